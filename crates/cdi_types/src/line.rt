//! A class with its superclasses.
ghost use Rattle.std.specs.Prelude.{◌≡◌, ◌++◌, map, filter, reverse, IfOk, OnOk};
ghost use Rattle.cdi_types.specs.LastClass as last;
ghost use Rattle.cdi_types.specs.Kinds.{has_kind, of_kind};
ghost use Rattle.cdi_types.specs.NameSet.{has};
ghost use Rattle.cdi_types.specs.Members as spec;

use crate::kind::MemberKind;
use crate::member::is_inherited;
use crate::name_set::NameSet;
use crate::part::ClassPart;
use cdi_base::Seq;
use cdi_deployment::{Class, Field, Member};
use std::alloc::{AllocError, Global};
use std::marker::Model;

/// A class with its superclasses, the topmost first. Contracts see the list of the classes.
#[derive(Drop)]
pub struct ClassLine<'a> {
    classes: Seq<&'a Class>,
}

impl<'a> Model for ClassLine<'a> {
    ghost use Rattle.std.specs.Prelude.{List, map};
    ghost use Rattle.cdi_deployment.specs.declared.deployment.Class.{Class};

    ghost Value = { List Class };

    ghost view = { λ t. map (λ c. c.now) t.classes };
}

/// Adds what a class declares.
fn add_parts<'a, T>(
    class: &'a Class,
    parts: &'a [T],
    found: &mut Seq<ClassPart<'a, T>>,
) -> Result<(), AllocError>
    ensures { OnOk result (found.new ≡ found.old ++ spec.parts_of class.now parts.now) }
{
    for part in parts {
        found.push(ClassPart { class, part })?;
    }
    Ok(())
}

/// Whether the last class of a line has a member of a class of the line. The classes below that declare these names.
fn is_had(member: &Member, is_last: bool, below: &NameSet) -> bool
    ensures { result ≡ last.is_had (has below.now) is_last member.now }
{
    is_last || (is_inherited(member) && !below.contains(member.name()))
}

/// Adds those members of a class that the last class of the line has, the last one first.
fn add_members<'a>(
    class: &'a Class,
    is_last: bool,
    below: &NameSet,
    found: &mut Seq<ClassPart<'a, Member>>,
) -> Result<(), AllocError>
    ensures { OnOk result (reverse found.new ≡ spec.parts_of class.now
        (filter (last.is_had (has below.now) is_last) class.now.members) ++ reverse found.old) }
{
    let members = class.members.as_slice();
    for place in (0..members.len()).rev() {
        let part = &members[place];
        if is_had(part, is_last, below) {
            found.push(ClassPart { class, part })?;
        }
    }
    Ok(())
}

/// Adds those members of a kind of a class that the last class of the line has, the last one first.
fn add_members_of_kind<'a>(
    class: &'a Class,
    is_last: bool,
    below: &NameSet,
    kind: MemberKind,
    found: &mut Seq<ClassPart<'a, Member>>,
) -> Result<(), AllocError>
    ensures { OnOk result (reverse found.new ≡ spec.parts_of class.now
        (filter (last.is_had (has below.now) is_last)
        (filter (has_kind kind) class.now.members)) ++ reverse found.old) }
{
    let members = class.members.as_slice();
    for place in (0..members.len()).rev() {
        let part = &members[place];
        if kind.is_of(part) && is_had(part, is_last, below) {
            found.push(ClassPart { class, part })?;
        }
    }
    Ok(())
}

/// What was found, the other way round.
pub(crate) fn in_reverse<T>(found: Seq<T>) -> Seq<T>
    ensures { result ≡ reverse found }
{
    let mut items = found.into_vec();
    items.reverse();
    Seq::new(items)
}

impl<'a> ClassLine<'a> {
    /// These classes, the topmost first.
    pub(crate) fn new(classes: Seq<&'a Class>) -> ClassLine<'a>
        ensures { result ≡ map (λ c. c.now) classes.entry }
    {
        ClassLine { classes }
    }

    /// The classes, the topmost first.
    pub fn classes(&self) -> &[&'a Class]
        ensures { map (λ c. c.now) result.now ≡ self.now }
    {
        self.classes.as_slice()
    }

    /// The fields that the last class of the line has: those of all its classes, none of which is overridden.
    pub fn fields(&self, alloc: Global) -> Result<Seq<ClassPart<'a, Field>>, AllocError>
        ensures { IfOk result (λ fields. fields ≡ spec.fields_of self.now) }
    {
        let mut fields = Seq::empty(alloc);
        for class in self.classes.as_slice() {
            add_parts(class, class.fields.as_slice(), &mut fields)?;
        }
        Ok(fields)
    }

    /// The members that the last class of the line has (Jakarta CDI 4.0, *Inheritance of member-level metadata*; Jakarta Interceptors
    /// 2.1, *Interceptor Methods for Lifecycle Event Callbacks*): its own, and those that it inherits. Methods, initializers,
    /// callbacks and observers are inherited unless a class below declares a member with their name; producers, producer fields and
    /// disposers aren't. They stand class by class, the topmost first, and in a class as they were written. It takes time in
    /// proportion to what all classes of the line declare.
    pub fn members(&self, alloc: Global) -> Result<Seq<ClassPart<'a, Member>>, AllocError>
        ensures { IfOk result (λ members. members ≡ spec.members_of self.now) }
    {
        let classes = self.classes.as_slice();
        let mut below = NameSet::new(alloc);
        let mut found = Seq::empty(alloc);
        for place in (0..classes.len()).rev() {
            let class = classes[place];
            add_members(class, place + 1 == classes.len(), &below, &mut found)?;
            if place > 0 {
                below.insert_members(class)?;
            }
        }
        Ok(in_reverse(found))
    }

    /// Those members of a kind that the last class of the line has, as [`ClassLine::members`] lists them. It takes time in
    /// proportion to what all classes of the line declare, and no memory if they declare none of this kind.
    pub fn members_of_kind(
        &self,
        alloc: Global,
        kind: MemberKind,
    ) -> Result<Seq<ClassPart<'a, Member>>, AllocError>
        ensures { IfOk result (λ members. members ≡ of_kind kind (spec.members_of self.now)) }
    {
        let line = self.classes.as_slice();
        let Some(topmost) = kind.first_in(line) else {
            return Ok(Seq::empty(alloc));
        };
        let classes = &line[topmost..];
        let mut below = NameSet::new(alloc);
        let mut found = Seq::empty(alloc);
        for place in (0..classes.len()).rev() {
            let class = classes[place];
            add_members_of_kind(class, place + 1 == classes.len(), &below, kind, &mut found)?;
            if place > 0 {
                below.insert_members(class)?;
            }
        }
        Ok(in_reverse(found))
    }
}
