//! Where the items of a deployment's lists stand, by their names.
ghost use Rattle.std.specs.Prelude.{◌≡◌};
ghost use Rattle.cdi_positions.specs.Pointers as spec;

use cdi_base::Name;
use cdi_deployment::{
    AnnotationType, Class, Exception, Field, InjectedField, Interceptor, Interface, Member, Script,
};

pub(crate) fn interface_named(interfaces: &[Interface], name: Name) -> Option<usize>
    ensures { result ≡ spec.interface_named interfaces.now name }
{
    interfaces
        .iter()
        .position(|interface| interface.name == name)
}

pub(crate) fn annotation_named(annotations: &[AnnotationType], name: Name) -> Option<usize>
    ensures { result ≡ spec.annotation_named annotations.now name }
{
    annotations
        .iter()
        .position(|annotation| annotation.name == name)
}

pub(crate) fn exception_named(exceptions: &[Exception], name: Name) -> Option<usize>
    ensures { result ≡ spec.exception_named exceptions.now name }
{
    exceptions
        .iter()
        .position(|exception| exception.name == name)
}

pub(crate) fn class_named(classes: &[Class], name: Name) -> Option<usize>
    ensures { result ≡ spec.class_named classes.now name }
{
    classes.iter().position(|class| class.name == name)
}

pub(crate) fn interceptor_named(interceptors: &[Interceptor], name: Name) -> Option<usize>
    ensures { result ≡ spec.interceptor_named interceptors.now name }
{
    interceptors
        .iter()
        .position(|interceptor| interceptor.name == name)
}

pub(crate) fn listed_name(names: &[Name], name: Name) -> Option<usize>
    ensures { result ≡ spec.listed_name names.now name }
{
    names.iter().position(|listed| *listed == name)
}

pub(crate) fn script_named(scripts: &[Script], name: Name) -> Option<usize>
    ensures { result ≡ spec.script_named scripts.now name }
{
    scripts.iter().position(|script| script.name == name)
}

pub(crate) fn field_named(fields: &[Field], name: Name) -> Option<usize>
    ensures { result ≡ spec.field_named fields.now name }
{
    fields.iter().position(|field| field.name == name)
}

pub(crate) fn injected_field_named(fields: &[InjectedField], name: Name) -> Option<usize>
    ensures { result ≡ spec.injected_field_named fields.now name }
{
    fields.iter().position(|field| field.name == name)
}

pub(crate) fn member_named(members: &[Member], name: Name) -> Option<usize>
    ensures { result ≡ spec.member_named members.now name }
{
    members.iter().position(|member| member.name() == name)
}
