//! What stands inside classes and interceptors.
ghost use Rattle.std.specs.Prelude.{◌≡◌, ◌++◌, map, OnOk, option_to_list};
ghost use Rattle.std.specs.List.{flat_map, enumerate_from};
ghost use Rattle.cdi_problems.specs.Elements as spec;

use crate::element::{Element, add_each};
use cdi_deployment::{Class, Interceptor};
use std::alloc::AllocError;

fn add_constructor<'a>(
    index: usize,
    class: &'a Class,
    elements: &mut Vec<Element<'a>>,
) -> Result<(), AllocError>
    ensures { OnOk result (spec.shown elements.new.items
        ≡ spec.shown elements.old.items
        ++ map (spec.Element.AConstructor index class.now) (option_to_list class.now.constructor)) }
{
    if let Some(constructor) = &class.constructor {
        elements.push(Element::Constructor {
            index,
            class,
            constructor,
        })?;
    }
    Ok(())
}

fn add_class<'a>(
    index: usize,
    class: &'a Class,
    elements: &mut Vec<Element<'a>>,
) -> Result<(), AllocError>
    ensures { OnOk result (spec.shown elements.new.items
        ≡ spec.shown elements.old.items ++ spec.class_elements (index, class.now)) }
{
    elements.push(Element::Class { index, class })?;
    add_each(
        class.fields.as_slice(),
        |field| Element::Field {
            index,
            class,
            field,
        },
        elements,
    )?;
    add_each(
        class.inject.as_slice(),
        |field| Element::InjectedField {
            index,
            class,
            field,
        },
        elements,
    )?;
    add_constructor(index, class, elements)?;
    add_each(
        class.members.as_slice(),
        |member| Element::Member {
            index,
            class,
            member,
        },
        elements,
    )
}

/// Adds the elements of classes.
pub(super) fn add_classes<'a>(
    classes: &'a [Class],
    elements: &mut Vec<Element<'a>>,
) -> Result<(), AllocError>
    ensures { OnOk result (spec.shown elements.new.items
        ≡ spec.shown elements.old.items
        ++ flat_map spec.class_elements (enumerate_from 0 classes.now)) }
{
    for (index, class) in classes.iter().enumerate() {
        add_class(index, class, elements)?;
    }
    Ok(())
}

fn add_interceptor<'a>(
    index: usize,
    interceptor: &'a Interceptor,
    elements: &mut Vec<Element<'a>>,
) -> Result<(), AllocError>
    ensures { OnOk result (spec.shown elements.new.items
        ≡ spec.shown elements.old.items ++ spec.interceptor_elements (index, interceptor.now)) }
{
    elements.push(Element::Interceptor { index, interceptor })?;
    add_each(
        interceptor.fields.as_slice(),
        |field| Element::InterceptorField {
            index,
            interceptor,
            field,
        },
        elements,
    )?;
    add_each(
        interceptor.inject.as_slice(),
        |field| Element::InterceptorInjectedField {
            index,
            interceptor,
            field,
        },
        elements,
    )
}

/// Adds the elements of interceptors.
pub(super) fn add_interceptors<'a>(
    interceptors: &'a [Interceptor],
    elements: &mut Vec<Element<'a>>,
) -> Result<(), AllocError>
    ensures { OnOk result (spec.shown elements.new.items
        ≡ spec.shown elements.old.items
        ++ flat_map spec.interceptor_elements (enumerate_from 0 interceptors.now)) }
{
    for (index, interceptor) in interceptors.iter().enumerate() {
        add_interceptor(index, interceptor, elements)?;
    }
    Ok(())
}
