//! The names that lists of a deployment declare.
ghost use Rattle.std.specs.Prelude.{◌≡◌, ◌++◌, OnOk};
ghost use Rattle.cdi_name_uses.specs.Groups as spec;

use cdi_base::{BuiltIn, Name, Seq};
use cdi_deployment::{AnnotationType, Class, Field, Interceptor, Interface, Script};
use std::alloc::AllocError;

pub(crate) fn add_names(added: &[Name], names: &mut Seq<Name>) -> Result<(), AllocError>
    ensures { OnOk result (names.new ≡ names.old ++ added.now) }
{
    for name in added {
        names.push(*name)?;
    }
    Ok(())
}

pub(crate) fn add_interfaces(
    interfaces: &[Interface],
    names: &mut Seq<Name>,
) -> Result<(), AllocError>
    ensures { OnOk result (names.new ≡ names.old ++ spec.names_of_interfaces interfaces.now) }
{
    for interface in interfaces {
        names.push(interface.name)?;
    }
    Ok(())
}

pub(crate) fn add_classes(classes: &[Class], names: &mut Seq<Name>) -> Result<(), AllocError>
    ensures { OnOk result (names.new ≡ names.old ++ spec.names_of_classes classes.now) }
{
    for class in classes {
        names.push(class.name)?;
    }
    Ok(())
}

pub(crate) fn add_open_classes(classes: &[Class], names: &mut Seq<Name>) -> Result<(), AllocError>
    ensures { OnOk result (names.new ≡ names.old ++ spec.names_of_open_classes classes.now) }
{
    for class in classes {
        if !class.is_final {
            names.push(class.name)?;
        }
    }
    Ok(())
}

pub(crate) fn add_bean_classes(classes: &[Class], names: &mut Seq<Name>) -> Result<(), AllocError>
    ensures { OnOk result (names.new ≡ names.old ++ spec.names_of_bean_classes classes.now) }
{
    for class in classes {
        if class.bean.is_some() {
            names.push(class.name)?;
        }
    }
    Ok(())
}

pub(crate) fn add_interceptors(
    interceptors: &[Interceptor],
    names: &mut Seq<Name>,
) -> Result<(), AllocError>
    ensures { OnOk result (names.new ≡ names.old ++ spec.names_of_interceptors interceptors.now) }
{
    for interceptor in interceptors {
        names.push(interceptor.name)?;
    }
    Ok(())
}

pub(crate) fn add_annotations(
    types: &[AnnotationType],
    names: &mut Seq<Name>,
) -> Result<(), AllocError>
    ensures { OnOk result (names.new ≡ names.old ++ spec.names_of_annotations types.now) }
{
    for declared in types {
        names.push(declared.name)?;
    }
    Ok(())
}

/// Those of an annotation type other than `Default`.
pub(crate) fn add_event_qualifiers(
    types: &[AnnotationType],
    names: &mut Seq<Name>,
) -> Result<(), AllocError>
    ensures { OnOk result (names.new ≡ names.old ++ spec.names_of_event_qualifiers types.now) }
{
    for declared in types {
        if declared.name != BuiltIn::Default.name() {
            names.push(declared.name)?;
        }
    }
    Ok(())
}

pub(crate) fn add_fields(fields: &[Field], names: &mut Seq<Name>) -> Result<(), AllocError>
    ensures { OnOk result (names.new ≡ names.old ++ spec.names_of_fields fields.now) }
{
    for field in fields {
        names.push(field.name)?;
    }
    Ok(())
}

pub(crate) fn add_scripts(scripts: &[Script], names: &mut Seq<Name>) -> Result<(), AllocError>
    ensures { OnOk result (names.new ≡ names.old ++ spec.names_of_scripts scripts.now) }
{
    for script in scripts {
        names.push(script.name)?;
    }
    Ok(())
}

pub(crate) fn add_members(
    types: &[AnnotationType],
    name: Name,
    names: &mut Seq<Name>,
) -> Result<(), AllocError>
    ensures { OnOk result (names.new ≡ names.old ++ spec.members_of types.now name) }
{
    for declared in types {
        if declared.name == name {
            add_names(declared.members.as_slice(), names)?;
        }
    }
    Ok(())
}
