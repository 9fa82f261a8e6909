//! The elements of a deployment, in the order of their places.
ghost use Rattle.std.specs.Prelude.{◌≡◌, ◌++◌, ◌∷◌, [], map, OnOk, IfOk, option_to_list};
ghost use Rattle.std.specs.List.{flat_map, enumerate_from};
ghost use Rattle.cdi_problems.specs.Elements as spec;

mod owned;

use cdi_base::{Name, Place};
use cdi_deployment::{
    AnnotationType, Class, Constructor, Deployment, Exception, Field, InjectedField, Interceptor,
    Interface, Member, Script,
};
use std::alloc::{AllocError, Global};

/// One thing that a deployment declares or lists. What stands inside a class or an interceptor comes with its owner, and with the
/// owner's index among the classes or the interceptors.
#[derive(Clone, Copy)]
pub enum Element<'a> {
    Interface(&'a Interface),
    Qualifier(&'a AnnotationType),
    Binding(&'a AnnotationType),
    Exception(&'a Exception),
    Class {
        index: usize,
        class: &'a Class,
    },
    Field {
        index: usize,
        class: &'a Class,
        field: &'a Field,
    },
    InjectedField {
        index: usize,
        class: &'a Class,
        field: &'a InjectedField,
    },
    Constructor {
        index: usize,
        class: &'a Class,
        constructor: &'a Constructor,
    },
    Member {
        index: usize,
        class: &'a Class,
        member: &'a Member,
    },
    Interceptor {
        index: usize,
        interceptor: &'a Interceptor,
    },
    InterceptorField {
        index: usize,
        interceptor: &'a Interceptor,
        field: &'a Field,
    },
    InterceptorInjectedField {
        index: usize,
        interceptor: &'a Interceptor,
        field: &'a InjectedField,
    },
    /// A name in the list of the selected alternatives.
    SelectedName(&'a Name),
    /// A name in the list of the enabled interceptors.
    OrderedName(&'a Name),
    Script(&'a Script),
}

/// Adds an element for each item of a list.
fn add_each<'a, X, F: Fn(&'a X) -> Element<'a>>(
    items: &'a [X],
    element: F,
    elements: &mut Vec<Element<'a>>,
) -> Result<(), AllocError>
    requires { F.IsAlwaysCallable element }
    ensures { OnOk result (spec.AddsEach (F.post element) items.now
        (spec.shown elements.old.items) (spec.shown elements.new.items)) }
{
    for item in items {
        elements.push(element(item))?;
    }
    Ok(())
}

/// The elements of a deployment, in the order of their places: interfaces, qualifiers, bindings, exceptions, classes, interceptors,
/// the selected alternatives, the enabled interceptors, scripts; within a class the class itself, its fields, its injected fields,
/// its constructor, its members; within an interceptor the interceptor itself, its fields, its injected fields.
pub fn elements_of(alloc: Global, deployment: &Deployment) -> Result<Vec<Element<'_>>, AllocError>
    ensures { IfOk result (λ elements.
        spec.shown elements.items ≡ spec.elements_of deployment.now) }
{
    let mut elements = Vec::new(alloc);
    add_each(
        deployment.interfaces.as_slice(),
        |i| Element::Interface(i),
        &mut elements,
    )?;
    add_each(
        deployment.qualifiers.as_slice(),
        |q| Element::Qualifier(q),
        &mut elements,
    )?;
    add_each(
        deployment.bindings.as_slice(),
        |b| Element::Binding(b),
        &mut elements,
    )?;
    add_each(
        deployment.exceptions.as_slice(),
        |x| Element::Exception(x),
        &mut elements,
    )?;
    owned::add_classes(deployment.classes.as_slice(), &mut elements)?;
    owned::add_interceptors(deployment.interceptors.as_slice(), &mut elements)?;
    add_each(
        deployment.selected.as_slice(),
        |name| Element::SelectedName(name),
        &mut elements,
    )?;
    add_each(
        deployment.order.as_slice(),
        |name| Element::OrderedName(name),
        &mut elements,
    )?;
    add_each(
        deployment.scripts.as_slice(),
        |script| Element::Script(script),
        &mut elements,
    )?;
    Ok(elements)
}

impl Element<'_> {
    /// The place by which problems tell the element.
    pub fn place(&self) -> Place
        ensures { result ≡ spec.place_of (spec.element_of self.now) }
    {
        match self {
            Element::Interface(interface) => Place::Class(interface.name),
            Element::Qualifier(qualifier) => Place::Class(qualifier.name),
            Element::Binding(binding) => Place::Class(binding.name),
            Element::Exception(exception) => Place::Class(exception.name),
            Element::Class { class, .. } => Place::Class(class.name),
            Element::Field { class, field, .. } => Place::Member {
                class: class.name,
                member: field.name,
            },
            Element::InjectedField { class, field, .. } => Place::Member {
                class: class.name,
                member: field.name,
            },
            Element::Constructor { class, .. } => Place::Constructor(class.name),
            Element::Member { class, member, .. } => Place::Member {
                class: class.name,
                member: member.name(),
            },
            Element::Interceptor { interceptor, .. } => Place::Class(interceptor.name),
            Element::InterceptorField {
                interceptor,
                field,
                ..
            } => Place::Member {
                class: interceptor.name,
                member: field.name,
            },
            Element::InterceptorInjectedField {
                interceptor,
                field,
                ..
            } => Place::Member {
                class: interceptor.name,
                member: field.name,
            },
            Element::SelectedName(name) => Place::Class(**name),
            Element::OrderedName(name) => Place::Class(**name),
            Element::Script(script) => Place::Class(script.name),
        }
    }
}
