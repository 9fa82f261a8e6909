//! The names that a deployment declares, of which the steps of its scripts use some.
ghost use Rattle.std.specs.Prelude.{◌≡◌, ◌++◌, map, IfOk, OnOk};
ghost use Rattle.std.specs.List.{flat_map};
ghost use Rattle.cdi_name_uses.specs.Known as spec;

use crate::step_name::StepGroup;
use cdi_base::{BuiltIn, Name, Seq};
use cdi_deployment::{
    Class, Deployment, Exception, Field, InjectedField, Interceptor, Interface, Member,
};
use std::alloc::{AllocError, Global};

fn add_fields(fields: &[Field], names: &mut Seq<Name>) -> Result<(), AllocError>
    ensures { OnOk result (names.new ≡ names.old ++ spec.field_names fields.now) }
{
    for field in fields {
        names.push(field.name)?;
    }
    Ok(())
}

fn add_injected_fields(fields: &[InjectedField], names: &mut Seq<Name>) -> Result<(), AllocError>
    ensures { OnOk result (names.new ≡ names.old ++ spec.injected_names fields.now) }
{
    for field in fields {
        names.push(field.name)?;
    }
    Ok(())
}

fn add_member(member: &Member, names: &mut Seq<Name>) -> Result<(), AllocError>
    ensures { OnOk result (names.new ≡ names.old ++ spec.method_name member.now) }
{
    if let Member::Method(method) = member {
        names.push(method.name)?;
    }
    Ok(())
}

fn add_methods(members: &[Member], names: &mut Seq<Name>) -> Result<(), AllocError>
    ensures { OnOk result (names.new ≡ names.old ++ spec.method_names members.now) }
{
    for member in members {
        add_member(member, names)?;
    }
    Ok(())
}

fn add_class_fields(classes: &[Class], names: &mut Seq<Name>) -> Result<(), AllocError>
    ensures { OnOk result
        (names.new ≡ names.old ++ flat_map (λ c. spec.field_names c.fields) classes.now) }
{
    for class in classes {
        add_fields(class.fields.as_slice(), names)?;
    }
    Ok(())
}

fn add_interceptor_fields(
    interceptors: &[Interceptor],
    names: &mut Seq<Name>,
) -> Result<(), AllocError>
    ensures { OnOk result
        (names.new ≡ names.old ++ flat_map (λ j. spec.field_names j.fields) interceptors.now) }
{
    for interceptor in interceptors {
        add_fields(interceptor.fields.as_slice(), names)?;
    }
    Ok(())
}

fn add_class_injected_fields(classes: &[Class], names: &mut Seq<Name>) -> Result<(), AllocError>
    ensures { OnOk result
        (names.new ≡ names.old ++ flat_map (λ c. spec.injected_names c.inject) classes.now) }
{
    for class in classes {
        add_injected_fields(class.inject.as_slice(), names)?;
    }
    Ok(())
}

fn add_interceptor_injected_fields(
    interceptors: &[Interceptor],
    names: &mut Seq<Name>,
) -> Result<(), AllocError>
    ensures { OnOk result
        (names.new ≡ names.old ++ flat_map (λ j. spec.injected_names j.inject) interceptors.now) }
{
    for interceptor in interceptors {
        add_injected_fields(interceptor.inject.as_slice(), names)?;
    }
    Ok(())
}

fn add_class_methods(classes: &[Class], names: &mut Seq<Name>) -> Result<(), AllocError>
    ensures { OnOk result
        (names.new ≡ names.old ++ flat_map (λ c. spec.method_names c.members) classes.now) }
{
    for class in classes {
        add_methods(class.members.as_slice(), names)?;
    }
    Ok(())
}

fn add_classes(classes: &[Class], names: &mut Seq<Name>) -> Result<(), AllocError>
    ensures { OnOk result (names.new ≡ names.old ++ map (λ c. c.name) classes.now) }
{
    for class in classes {
        names.push(class.name)?;
    }
    Ok(())
}

fn add_interfaces(interfaces: &[Interface], names: &mut Seq<Name>) -> Result<(), AllocError>
    ensures { OnOk result (names.new ≡ names.old ++ map (λ i. i.name) interfaces.now) }
{
    for interface in interfaces {
        names.push(interface.name)?;
    }
    Ok(())
}

fn add_types(deployment: &Deployment, names: &mut Seq<Name>) -> Result<(), AllocError>
    ensures { OnOk result (names.new ≡ names.old ++ spec.type_names deployment.now) }
{
    names.push(BuiltIn::Object.name())?;
    names.push(BuiltIn::Startup.name())?;
    names.push(BuiltIn::Shutdown.name())?;
    add_classes(deployment.classes.as_slice(), names)?;
    add_interfaces(deployment.interfaces.as_slice(), names)
}

fn add_built_in_exceptions(names: &mut Seq<Name>) -> Result<(), AllocError>
    ensures { OnOk result (names.new ≡ names.old ++ spec.built_in_exceptions) }
{
    names.push(BuiltIn::ContextNotActiveException.name())?;
    names.push(BuiltIn::CreationException.name())?;
    names.push(BuiltIn::IllegalProductException.name())?;
    names.push(BuiltIn::IllegalStateException.name())?;
    names.push(BuiltIn::IllegalArgumentException.name())?;
    names.push(BuiltIn::NullPointerException.name())?;
    names.push(BuiltIn::ObserverException.name())?;
    names.push(BuiltIn::UnsatisfiedResolutionException.name())?;
    names.push(BuiltIn::AmbiguousResolutionException.name())?;
    Ok(())
}

fn add_exceptions(exceptions: &[Exception], names: &mut Seq<Name>) -> Result<(), AllocError>
    ensures { OnOk result (names.new ≡ names.old ++ map (λ x. x.name) exceptions.now) }
{
    for exception in exceptions {
        names.push(exception.name)?;
    }
    Ok(())
}

fn add_group(
    deployment: &Deployment,
    group: StepGroup,
    names: &mut Seq<Name>,
) -> Result<(), AllocError>
    ensures { OnOk result (names.new ≡ names.old ++ spec.known_names deployment.now group) }
{
    let classes = deployment.classes.as_slice();
    let interceptors = deployment.interceptors.as_slice();
    match group {
        StepGroup::Field => {
            add_class_fields(classes, names)?;
            add_interceptor_fields(interceptors, names)
        }
        StepGroup::InjectedField => {
            add_class_injected_fields(classes, names)?;
            add_interceptor_injected_fields(interceptors, names)
        }
        StepGroup::Method => add_class_methods(classes, names),
        StepGroup::Class => add_classes(classes, names),
        StepGroup::Type => add_types(deployment, names),
        StepGroup::Exception => {
            add_built_in_exceptions(names)?;
            add_exceptions(deployment.exceptions.as_slice(), names)
        }
    }
}

/// The names of a deployment that a name in a step may be: the fields or the injected fields of all its classes and interceptors, the
/// business methods or the names of its classes, its types, or its exceptions, each with the built-in ones.
pub fn known_names(
    alloc: Global,
    deployment: &Deployment,
    group: StepGroup,
) -> Result<Seq<Name>, AllocError>
    ensures { IfOk result (λ names. names ≡ spec.known_names deployment.now group) }
{
    let mut names = Seq::empty(alloc);
    add_group(deployment, group, &mut names)?;
    Ok(names)
}
