//! Names that a superclass has already.
ghost use Rattle.std.specs.Prelude.{◌≡◌, ◌==◌, ◌++◌, ◌||◌, map, filter, nat_eq, Contains, IfOk, OnOk};
ghost use Rattle.std.specs.HashSet.{contains};
ghost use Rattle.std.specs.List.{list_any};
ghost use Rattle.cdi_bean_check.specs.MemberPlaces.{MemberPlace, same_place, has_place as is_place_of, HasPlaces, AddsPlaces};
ghost use Rattle.cdi_bean_check.specs.Repeated as spec;
ghost use Rattle.cdi_bean_check.specs.MixedNames.{has_mixed, HasSeenAll};
ghost use Rattle.cdi_bean_check.specs.SharedNames.{fields_in, HasShared};
ghost use Rattle.cdi_deployment.specs.Member.{member_name as name_of};

use crate::member_places::has_place;
use crate::mixed_names::MixedNames;
use crate::shared_names::{has_any_of, shared_names};
use cdi_base::{Name, Seq};
use cdi_deployment::{Class, Field, InjectedField, Member};
use cdi_problems::{Element, Rule};
use cdi_types::{ClassIndex, TypeTable};
use std::alloc::{AllocError, Global};
use std::collections::HashSet;

/// A field, injected or not, has the name of a superclass's one, or a member has the name of a superclass's member of another kind
/// or number of values (Jakarta CDI 4.0, *Inheritance and specialization*).
#[derive(Clone, Copy)]
pub struct RepeatsSuperclass<'a> {
    /// Where such names stand: the name of a class, and that of a field or a member.
    pub places: &'a HashSet<(Name, Name)>,
}

fn has_value(fields: &[Field], name: Name) -> bool
    ensures { result ≡ list_any (λ f. f.name == name) fields.now }
{
    fields.iter().any(|field| field.name == name)
}

fn has_injected(fields: &[InjectedField], name: Name) -> bool
    ensures { result ≡ list_any (λ f. f.name == name) fields.now }
{
    fields.iter().any(|field| field.name == name)
}

fn has_field(class: &Class, name: Name) -> bool
    ensures { result ≡ spec.has_field name class.now }
{
    has_value(class.fields.as_slice(), name) || has_injected(class.inject.as_slice(), name)
}

/// Whether two members are of one kind, and have one number of values if they are methods.
fn is_alike(member: &Member, other: &Member) -> bool
    ensures { result ≡ spec.is_alike member.now other.now }
{
    match member {
        Member::Method(method) => match other {
            Member::Method(other) => method.args == other.args,
            _ => false,
        },
        Member::Initializer(_) => matches!(other, Member::Initializer(_)),
        Member::PostConstruct(_) => matches!(other, Member::PostConstruct(_)),
        Member::PreDestroy(_) => matches!(other, Member::PreDestroy(_)),
        Member::Producer(_) => matches!(other, Member::Producer(_)),
        Member::ProducerField(_) => matches!(other, Member::ProducerField(_)),
        Member::Disposer(_) => matches!(other, Member::Disposer(_)),
        Member::Observer(_) => matches!(other, Member::Observer(_)),
    }
}

/// Whether a class has a member of the same name that isn't alike.
fn has_other_member(class: &Class, member: &Member) -> bool
    ensures { result ≡ spec.has_other_member member.now class.now }
{
    let name = member.name();
    for other in class.members.as_slice() {
        if other.name() == name && !is_alike(other, member) {
            return true;
        }
    }
    false
}

fn add_fields(above: &Class, fields: &[Field], names: &mut Seq<Name>) -> Result<(), AllocError>
    ensures { OnOk result (names.new
        ≡ names.old
        ++ map (λ f. f.name) (filter (λ f. spec.has_field f.name above.now) fields.now)) }
{
    for field in fields {
        if has_field(above, field.name) {
            names.push(field.name)?;
        }
    }
    Ok(())
}

fn add_injected(
    above: &Class,
    fields: &[InjectedField],
    names: &mut Seq<Name>,
) -> Result<(), AllocError>
    ensures { OnOk result (names.new
        ≡ names.old
        ++ map (λ f. f.name) (filter (λ f. spec.has_field f.name above.now) fields.now)) }
{
    for field in fields {
        if has_field(above, field.name) {
            names.push(field.name)?;
        }
    }
    Ok(())
}

fn add_members(above: &Class, members: &[Member], names: &mut Seq<Name>) -> Result<(), AllocError>
    ensures { OnOk result (names.new
        ≡ names.old ++ map name_of (filter (λ m. spec.has_other_member m above.now) members.now)) }
{
    for member in members {
        if has_other_member(above, member) {
            names.push(member.name())?;
        }
    }
    Ok(())
}

/// The names of a class that a class above it has already.
fn repeated_names(alloc: Global, above: &Class, class: &Class) -> Result<Seq<Name>, AllocError>
    ensures { IfOk result (λ names. names ≡ spec.repeated_names above.now class.now) }
{
    let mut names = Seq::empty(alloc);
    add_fields(above, class.fields.as_slice(), &mut names)?;
    add_injected(above, class.inject.as_slice(), &mut names)?;
    add_members(above, class.members.as_slice(), &mut names)?;
    Ok(names)
}

/// Adds the places of names in a class.
fn add_places(
    class: Name,
    names: &[Name],
    found: &mut HashSet<(Name, Name)>,
) -> Result<(), AllocError>
    ensures { OnOk result ((place : MemberPlace) → is_place_of found.new place
        ≡ (list_any (λ name. same_place (class, name) place) names.now
        || is_place_of found.old place)) }
{
    for name in names {
        found.insert((class, *name))?;
    }
    Ok(())
}

/// Adds the places of the names of a class that a class above it has already.
fn add_repeated(
    alloc: Global,
    class: &Class,
    above: &Class,
    found: &mut HashSet<(Name, Name)>,
) -> Result<(), AllocError>
    ensures { OnOk result ((place : MemberPlace) → is_place_of found.new place
        ≡ (spec.repeats_at class.now place above.now || is_place_of found.old place)) }
{
    let names = repeated_names(alloc, above, class)?;
    add_places(class.name, names.as_slice(), found)
}

/// Adds the places of the names of a class that one of these classes above it has already.
fn add_of_line(
    alloc: Global,
    class: &Class,
    line: &[&Class],
    found: &mut HashSet<(Name, Name)>,
) -> Result<(), AllocError>
    ensures { OnOk result ((place : MemberPlace) → is_place_of found.new place
        ≡ (list_any (spec.repeats_at class.now place) (map (λ c. c.now) line.now)
        || is_place_of found.old place)) }
{
    for above in line {
        add_repeated(alloc, class, above, found)?;
    }
    Ok(())
}

/// Whether one of these classes has a name.
fn has_class(classes: &[&Class], name: Name) -> bool
    ensures { result ≡ list_any (λ c. c.now.name == name) classes.now }
{
    classes.iter().any(|class| class.name == name)
}

/// The names by which classes can repeat something of their superclasses.
#[derive(Drop)]
struct Suspects {
    /// Those of fields that are declared more than once.
    fields: HashSet<Name>,
    /// Those of members that aren't all alike.
    members: MixedNames,
}

impl Suspects {
    /// Those of some classes.
    fn of(alloc: Global, classes: &[Class]) -> Result<Suspects, AllocError>
        ensures fields { IfOk result (λ s. HasShared classes.now s.fields) }
        ensures members { IfOk result (λ s. HasSeenAll classes.now s.members) }
    {
        Ok(Suspects {
            fields: shared_names(alloc, classes)?,
            members: MixedNames::of(alloc, classes)?,
        })
    }

    /// Whether a class has such a name.
    fn has_any_of(&self, class: &Class) -> bool
        ensures { result ≡ (list_any (contains nat_eq self.now.fields) (fields_in class.now)
            || has_mixed self.now.members class.now.members) }
    {
        has_any_of(&self.fields, class) || self.members.has_any_of(class.members.as_slice())
    }
}

/// Adds the places of the names of a class that one of its superclasses has already. If it has none by which it can repeat something,
/// and isn't above itself, there are none.
fn add_of_class(
    alloc: Global,
    index: &ClassIndex<'_>,
    types: &TypeTable,
    suspects: &Suspects,
    class: &Class,
    found: &mut HashSet<(Name, Name)>,
) -> Result<(), AllocError>
    requires fields { HasShared index.now suspects.now.fields }
    requires members { HasSeenAll index.now suspects.now.members }
    requires listed { Contains index.now class.now }
    ensures { OnOk result
        (AddsPlaces (spec.RepeatsAt index.now types.now class.now) found.old found.new) }
{
    let Some(direct) = class.extends else {
        return Ok(());
    };
    let line = index.line(alloc, types, direct)?;
    if !suspects.has_any_of(class) && !has_class(line.classes(), class.name) {
        return Ok(());
    }
    add_of_line(alloc, class, line.classes(), found)
}

/// Where classes repeat names of their superclasses: the name of a class, and that of a field or a member. This is the index of the
/// classes. If a class has the name of a field that is declared elsewhere, too, or of a member that isn't alike everywhere, then all its names
/// are compared with those of all its superclasses.
pub fn repeated_of_superclasses(
    alloc: Global,
    classes: &[Class],
    index: &ClassIndex<'_>,
    types: &TypeTable,
) -> Result<HashSet<(Name, Name)>, AllocError>
    requires { index.now ≡ classes.now }
    ensures { IfOk result (HasPlaces (spec.IsRepeatedAt classes.now types.now)) }
{
    let suspects = Suspects::of(alloc, classes)?;
    let mut found = HashSet::new(alloc);
    for class in classes {
        add_of_class(alloc, index, types, &suspects, class, &mut found)?;
    }
    Ok(found)
}

impl Rule for RepeatsSuperclass<'_> {
    ghost use Rattle.cdi_bean_check.specs.Repeated.{IsPartAt};

    ghost holds_at = { λ rule e. IsPartAt rule.places.now e };

    fn holds(&self, element: &Element<'_>) -> bool {
        match element {
            Element::Field { class, field, .. } => has_place(self.places, class.name, field.name),
            Element::InjectedField { class, field, .. } => {
                has_place(self.places, class.name, field.name)
            }
            Element::Member { class, member, .. } => {
                has_place(self.places, class.name, member.name())
            }
            _ => false,
        }
    }
}
