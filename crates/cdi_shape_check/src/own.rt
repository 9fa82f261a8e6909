//! What the instance has that a body runs on.
ghost use Rattle.std.specs.Prelude.{◌≡◌, ◌||◌, ℕ, nat_eq, cond, map, [], IfOk, OnOk};
ghost use Rattle.std.specs.HashSet.{contains};
ghost use Rattle.std.specs.List.{list_any, flat_map};
ghost use Rattle.cdi_name_check.specs.NameSets.{HasNames, HasPairs, same_pair};
ghost use Rattle.cdi_shape_check.specs.OwnParts as spec;

use crate::asked::AskedParts;
use crate::injected::{InjectedFields, add_fields as add_injected};
use cdi_base::{Name, Seq};
use cdi_deployment::{Class, Field, InjectedField, Interceptor, Member};
use cdi_live::DeploymentTables;
use std::alloc::{AllocError, Global};
use std::collections::HashSet;

/// What the instance has that a body runs on: what is asked for of what the class that declares the body and its superclasses declare, or
/// all that the interceptor declares whose method it is.
#[derive(Drop)]
pub(crate) struct OwnTables<'a> {
    /// The fields that hold values.
    fields: HashSet<Name>,
    injected: InjectedFields<'a>,
    /// The methods, each with its number of values.
    methods: HashSet<(Name, usize)>,
}

/// Adds the names of fields.
fn add_field_names(fields: &[Field], set: &mut HashSet<Name>) -> Result<(), AllocError>
    ensures { OnOk result ((name : ℕ) → contains nat_eq set.new name
        ≡ (contains nat_eq set.old name || spec.has_field name fields.now)) }
{
    for field in fields {
        set.insert(field.name)?;
    }
    Ok(())
}

/// The names of fields.
fn names_of(alloc: Global, fields: &[Field]) -> Result<HashSet<Name>, AllocError>
    ensures { IfOk result (HasNames (λ name. spec.has_field name fields.now)) }
{
    let mut set = HashSet::new(alloc);
    add_field_names(fields, &mut set)?;
    Ok(set)
}

/// The names of the fields that some classes declare.
fn field_names(alloc: Global, line: &[&Class]) -> Result<HashSet<Name>, AllocError>
    ensures { IfOk result (HasNames
        (λ name. list_any (λ c. spec.has_field name c.fields) (map (λ c. c.now) line.now))) }
{
    let mut set = HashSet::new(alloc);
    for class in line {
        add_field_names(class.fields.as_slice(), &mut set)?;
    }
    Ok(set)
}

/// Adds the methods among members.
fn add_methods(members: &[Member], set: &mut HashSet<(Name, usize)>) -> Result<(), AllocError>
    ensures { OnOk result ((name count : ℕ) → contains same_pair set.new (name, count)
        ≡ (contains same_pair set.old (name, count)
        || list_any (spec.is_method name count) members.now)) }
{
    for member in members {
        if let Member::Method(method) = member {
            set.insert((method.name, method.args as usize))?;
        }
    }
    Ok(())
}

/// The methods that some classes declare.
fn methods_of(alloc: Global, line: &[&Class]) -> Result<HashSet<(Name, usize)>, AllocError>
    ensures { IfOk result (HasPairs (λ name count.
        list_any (spec.declares_method name count) (map (λ c. c.now) line.now))) }
{
    let mut set = HashSet::new(alloc);
    for class in line {
        add_methods(class.members.as_slice(), &mut set)?;
    }
    Ok(set)
}

/// The injected fields that some classes declare.
fn injected_of<'a>(alloc: Global, line: &[&'a Class]) -> Result<InjectedFields<'a>, AllocError>
    ensures { IfOk result (λ injected.
        injected ≡ flat_map (λ c. c.inject) (map (λ c. c.now) line.now)) }
{
    let mut fields = Seq::empty(alloc);
    for class in line {
        add_injected(class.inject.as_slice(), &mut fields)?;
    }
    InjectedFields::build(alloc, fields)
}

/// The classes of a line, if a part of what they declare is asked for, else none.
fn asked_line<'a, 'b>(is_asked: bool, line: &'b [&'a Class]) -> &'b [&'a Class]
    ensures { result.now ≡ cond is_asked line.now [] }
{
    if is_asked { line } else { &[] }
}

impl<'a> OwnTables<'a> {
    ghost use Rattle.std.specs.Option.{option_copied};
    ghost use Rattle.cdi_shape_check.specs.Application.{application_of};
    ghost use Rattle.cdi_shape_check.specs.AskedParts.{asked_parts, AreAskedParts};
    ghost use Rattle.cdi_shape_check.specs.OwnTables.{parts_in};

    /// What is asked for of what these classes declare.
    fn of_line(
        alloc: Global,
        line: &[&'a Class],
        asked: AskedParts,
    ) -> Result<OwnTables<'a>, AllocError>
        ensures { IfOk result (λ own.
            parts_in own ≡ asked_parts asked (spec.parts_of_line (map (λ c. c.now) line.now))) }
    {
        Ok(OwnTables {
            fields: field_names(alloc, asked_line(asked.fields, line))?,
            injected: injected_of(alloc, asked_line(asked.injected, line))?,
            methods: methods_of(alloc, asked_line(asked.methods, line))?,
        })
    }

    /// What is asked for of what a class and its superclasses declare.
    pub(crate) fn of_class(
        alloc: Global,
        application: &DeploymentTables<'a>,
        class: &Class,
        asked: AskedParts,
    ) -> Result<OwnTables<'a>, AllocError>
        ensures { IfOk result (λ own. AreAskedParts
            (application_of application.now).deployment class.now asked (parts_in own)) }
    {
        let types = &application.beans.declared.types;
        let line = application.classes.line(alloc, types, class.name)?;
        OwnTables::of_line(alloc, line.classes(), asked)
    }

    /// What an interceptor declares.
    pub(crate) fn of_interceptor(
        alloc: Global,
        interceptor: &'a Interceptor,
    ) -> Result<OwnTables<'a>, AllocError>
        ensures { IfOk result (λ own.
            parts_in own ≡ spec.parts_of_interceptor interceptor.now) }
    {
        Ok(OwnTables {
            fields: names_of(alloc, interceptor.fields.as_slice())?,
            injected: InjectedFields::of(alloc, interceptor.inject.as_slice())?,
            methods: HashSet::new(alloc),
        })
    }

    /// Whether it has a field that holds a value.
    pub(crate) fn has_field(&self, name: Name) -> bool
        ensures { result ≡ (parts_in self.now).has_field name }
    {
        self.fields.contains(&name)
    }

    /// Its injected field of a name.
    pub(crate) fn injected(&self, name: Name) -> Option<&'a InjectedField>
        ensures { option_copied result ≡ (parts_in self.now).injected name }
    {
        self.injected.field(name)
    }

    /// Whether it has a method with so many values.
    pub(crate) fn has_method(&self, name: Name, count: usize) -> bool
        ensures { result ≡ (parts_in self.now).has_method name count }
    {
        self.methods.contains(&(name, count))
    }
}
