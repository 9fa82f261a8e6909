//! The groups that names are declared in.
ghost use Rattle.std.specs.Prelude.{◌≡◌, ◌++◌, IfOk, OnOk};
ghost use Rattle.cdi_name_check.specs.UnknownName.{is_valued_qualifier};
ghost use Rattle.cdi_name_uses.specs.Groups as spec;
ghost use Rattle.cdi_problems.specs.Elements.{element_of};

use crate::declared;
use cdi_base::{BuiltIn, Name, Seq};
use cdi_deployment::Deployment;
use cdi_problems::Element;
use std::alloc::{AllocError, Global};

/// What annotates a class, a member or a point.
#[derive(Clone, Copy)]
pub enum Annotation {
    Qualifier,
    /// A qualifier of an event, which is any but `Default`.
    EventQualifier,
    Binding,
}

/// A group of names, of which a name at its place has to be one.
#[derive(Clone, Copy)]
pub enum Group {
    /// What a class may extend: `Object`, or a class of the deployment that isn't final.
    Superclass,
    Interface,
    /// Classes, declared or built in, and interfaces.
    Type,
    Annotation(Annotation),
    /// The members of an annotation of this name.
    MemberOf(Annotation, Name),
    /// The members of the qualifier or the binding that the element is.
    OwnMember,
    /// The fields of the class that the element is a member of.
    OwnField,
    /// The classes that are beans.
    BeanClass,
    Interceptor,
    Script,
}

fn add_types(deployment: &Deployment, names: &mut Seq<Name>) -> Result<(), AllocError>
    ensures { OnOk result (names.new ≡ names.old ++ spec.type_names deployment.now) }
{
    names.push(BuiltIn::Object.name())?;
    names.push(BuiltIn::Startup.name())?;
    names.push(BuiltIn::Shutdown.name())?;
    declared::add_classes(deployment.classes.as_slice(), names)?;
    declared::add_interfaces(deployment.interfaces.as_slice(), names)
}

/// The built-in qualifiers other than `Default`.
fn add_built_in_qualifiers(names: &mut Seq<Name>) -> Result<(), AllocError>
    ensures { OnOk result (names.new ≡ names.old ++ spec.built_in_qualifiers) }
{
    names.push(BuiltIn::Any.name())?;
    names.push(BuiltIn::Named.name())?;
    names.push(BuiltIn::Initialized.name())?;
    names.push(BuiltIn::BeforeDestroyed.name())?;
    names.push(BuiltIn::Destroyed.name())?;
    Ok(())
}

fn add_annotations(
    deployment: &Deployment,
    annotation: Annotation,
    names: &mut Seq<Name>,
) -> Result<(), AllocError>
    ensures { OnOk result
        (names.new ≡ names.old ++ spec.annotation_names deployment.now annotation) }
{
    match annotation {
        Annotation::Qualifier => {
            names.push(BuiltIn::Default.name())?;
            add_built_in_qualifiers(names)?;
            declared::add_annotations(deployment.qualifiers.as_slice(), names)
        }
        Annotation::EventQualifier => {
            add_built_in_qualifiers(names)?;
            declared::add_event_qualifiers(deployment.qualifiers.as_slice(), names)
        }
        Annotation::Binding => declared::add_annotations(deployment.bindings.as_slice(), names),
    }
}

/// Whether a name is that of a built-in qualifier with the one member `value`.
fn is_valued_qualifier(name: Name) -> bool
    ensures { result ≡ is_valued_qualifier name }
{
    name == BuiltIn::Named.name()
        || name == BuiltIn::Initialized.name()
        || name == BuiltIn::BeforeDestroyed.name()
        || name == BuiltIn::Destroyed.name()
}

fn add_qualifier_members(
    deployment: &Deployment,
    name: Name,
    names: &mut Seq<Name>,
) -> Result<(), AllocError>
    ensures { OnOk result (names.new ≡ names.old ++ spec.qualifier_members deployment.now name) }
{
    if is_valued_qualifier(name) {
        names.push(BuiltIn::Value.name())?;
    }
    declared::add_members(deployment.qualifiers.as_slice(), name, names)
}

fn add_members(
    deployment: &Deployment,
    annotation: Annotation,
    name: Name,
    names: &mut Seq<Name>,
) -> Result<(), AllocError>
    ensures { OnOk result
        (names.new ≡ names.old ++ spec.member_names deployment.now annotation name) }
{
    match annotation {
        Annotation::Qualifier | Annotation::EventQualifier => {
            add_qualifier_members(deployment, name, names)
        }
        Annotation::Binding => {
            declared::add_members(deployment.bindings.as_slice(), name, names)
        }
    }
}

fn add_own_members(element: &Element<'_>, names: &mut Seq<Name>) -> Result<(), AllocError>
    ensures { OnOk result (names.new ≡ names.old ++ spec.own_members (element_of element.now)) }
{
    match element {
        Element::Qualifier(qualifier) => declared::add_names(qualifier.members.as_slice(), names),
        Element::Binding(binding) => declared::add_names(binding.members.as_slice(), names),
        _ => Ok(()),
    }
}

fn add_own_fields(element: &Element<'_>, names: &mut Seq<Name>) -> Result<(), AllocError>
    ensures { OnOk result (names.new ≡ names.old ++ spec.own_fields (element_of element.now)) }
{
    match element {
        Element::Member { class, .. } => declared::add_fields(class.fields.as_slice(), names),
        _ => Ok(()),
    }
}

fn add_group(
    deployment: &Deployment,
    element: &Element<'_>,
    group: Group,
    names: &mut Seq<Name>,
) -> Result<(), AllocError>
    ensures { OnOk result (names.new
        ≡ names.old ++ spec.group_names deployment.now (element_of element.now) group) }
{
    let classes = deployment.classes.as_slice();
    match group {
        Group::Superclass => {
            names.push(BuiltIn::Object.name())?;
            declared::add_open_classes(classes, names)
        }
        Group::Interface => declared::add_interfaces(deployment.interfaces.as_slice(), names),
        Group::Type => add_types(deployment, names),
        Group::Annotation(annotation) => add_annotations(deployment, annotation, names),
        Group::MemberOf(annotation, name) => add_members(deployment, annotation, name, names),
        Group::OwnMember => add_own_members(element, names),
        Group::OwnField => add_own_fields(element, names),
        Group::BeanClass => declared::add_bean_classes(classes, names),
        Group::Interceptor => {
            declared::add_interceptors(deployment.interceptors.as_slice(), names)
        }
        Group::Script => declared::add_scripts(deployment.scripts.as_slice(), names),
    }
}

/// The names that a group has for an element of a deployment: a name of the element that has to be of the group is known exactly
/// if it is one of these (Jakarta CDI 4.0, *Problems detected automatically by the container*).
pub fn group_names(
    alloc: Global,
    deployment: &Deployment,
    element: &Element<'_>,
    group: Group,
) -> Result<Seq<Name>, AllocError>
    ensures { IfOk result (λ names.
        names ≡ spec.group_names deployment.now (element_of element.now) group) }
{
    let mut names = Seq::empty(alloc);
    add_group(deployment, element, group, &mut names)?;
    Ok(names)
}
