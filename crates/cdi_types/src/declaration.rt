//! The declarations of types.
ghost use Rattle.std.specs.Prelude.{◌≡◌, ◌++◌, IfOk, OnOk, map};
ghost use Rattle.cdi_types.specs.Declarations as spec;

use cdi_base::{BuiltIn, Name, Seq};
use cdi_deployment::{Class, Deployment, Interface};
use std::alloc::{AllocError, Global};

/// A class or an interface with what it names directly above it.
#[derive(Debug, PartialEq, Eq, Drop)]
pub struct TypeDeclaration {
    pub name: Name,
    /// The class that it extends. An interface has none, and a class without one is directly below `Object`.
    pub superclass: Option<Name>,
    /// The interfaces that it implements, or, of an interface, extends.
    pub interfaces: Seq<Name>,
}

/// A copy of a list of names.
fn copy_of(alloc: Global, names: &Seq<Name>) -> Result<Seq<Name>, AllocError>
    ensures { IfOk result (λ copy. copy ≡ names.now) }
{
    Ok(Seq::new(Vec::from_slice(alloc, names.as_slice())?))
}

fn of_built_in(alloc: Global, class: BuiltIn) -> TypeDeclaration
    ensures { result ≡ spec.of_built_in class }
{
    TypeDeclaration {
        name: class.name(),
        superclass: None,
        interfaces: Seq::empty(alloc),
    }
}

fn of_interface(alloc: Global, interface: &Interface) -> Result<TypeDeclaration, AllocError>
    ensures { IfOk result (λ declared. declared ≡ spec.of_interface interface.now) }
{
    Ok(TypeDeclaration {
        name: interface.name,
        superclass: None,
        interfaces: copy_of(alloc, &interface.extends)?,
    })
}

fn of_class(alloc: Global, class: &Class) -> Result<TypeDeclaration, AllocError>
    ensures { IfOk result (λ declared. declared ≡ spec.of_class class.now) }
{
    Ok(TypeDeclaration {
        name: class.name,
        superclass: class.extends,
        interfaces: copy_of(alloc, &class.implements)?,
    })
}

fn add_interfaces(
    alloc: Global,
    interfaces: &[Interface],
    types: &mut Seq<TypeDeclaration>,
) -> Result<(), AllocError>
    ensures { OnOk result (types.new ≡ types.old ++ map spec.of_interface interfaces.now) }
{
    for interface in interfaces {
        types.push(of_interface(alloc, interface)?)?;
    }
    Ok(())
}

fn add_classes(
    alloc: Global,
    classes: &[Class],
    types: &mut Seq<TypeDeclaration>,
) -> Result<(), AllocError>
    ensures { OnOk result (types.new ≡ types.old ++ map spec.of_class classes.now) }
{
    for class in classes {
        types.push(of_class(alloc, class)?)?;
    }
    Ok(())
}

/// The types of a deployment but for `Object`: the other built-in classes, the interfaces, and the classes, in the order in which
/// they were written.
pub fn declarations_of(
    alloc: Global,
    deployment: &Deployment,
) -> Result<Seq<TypeDeclaration>, AllocError>
    ensures { IfOk result (λ types. types ≡ spec.declarations_of deployment.now) }
{
    let mut types = Seq::empty(alloc);
    types.push(of_built_in(alloc, BuiltIn::Startup))?;
    types.push(of_built_in(alloc, BuiltIn::Shutdown))?;
    add_interfaces(alloc, deployment.interfaces.as_slice(), &mut types)?;
    add_classes(alloc, deployment.classes.as_slice(), &mut types)?;
    Ok(types)
}
