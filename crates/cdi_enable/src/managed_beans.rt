//! The managed beans of a bean list, as far as they decide what is enabled.
ghost use Rattle.std.specs.Prelude.{◌≡◌, ◌==◌, map, option_and_then, IfOk};
ghost use Rattle.std.specs.List.{list_any};
ghost use Rattle.cdi_enable.specs.Enablement as spec;

use crate::class_places::ClassPlaces;
use crate::listed_bean::{ListedBean, listed_bean};
use crate::managed_bean::ManagedBean;
use cdi_base::{Name, Seq};
use cdi_beans::Bean;
use std::alloc::{AllocError, Global};

/// The classes of the managed ones of some beans, in their order.
pub(crate) fn managed_classes(alloc: Global, beans: &[Bean]) -> Result<Seq<Name>, AllocError>
    ensures { IfOk result (λ classes. classes ≡ spec.classes_of (spec.managed_beans beans.now)) }
{
    let mut classes = Seq::empty(alloc);
    for bean in beans {
        if bean.is_managed() {
            classes.push(bean.class)?;
        }
    }
    Ok(classes)
}

/// Whether a class is listed.
fn is_listed(classes: &[Name], class: Name) -> bool
    ensures { result ≡ list_any (λ c. c == class) classes.now }
{
    classes.iter().any(|listed| *listed == class)
}

/// Whether a bean has a priority, or its class is listed (Jakarta CDI 4.0, *Declaring selected alternatives*).
fn is_selected(selected: &[Name], bean: &Bean) -> bool
    ensures { result ≡ spec.is_selected selected.now bean.now }
{
    bean.priority.is_some() || is_listed(selected, bean.class)
}

/// The managed bean that a bean directly specializes, by its index among the managed beans.
fn specialized(classes: &ClassPlaces, bean: &Bean) -> Option<usize>
    ensures { result ≡ option_and_then (spec.bean_of_class classes.now) bean.now.specializes }
{
    match bean.specializes {
        Some(class) => classes.bean_of(class),
        None => None,
    }
}

fn managed_bean(classes: &ClassPlaces, selected: &[Name], bean: &Bean) -> ManagedBean
    ensures { result ≡ spec.managed_bean classes.now selected.now bean.now }
{
    ManagedBean {
        specializes: specialized(classes, bean),
        alternative: bean.alternative,
        selected: is_selected(selected, bean),
    }
}

/// The managed ones of some beans, in their order.
pub(crate) fn managed_beans(
    alloc: Global,
    beans: &[Bean],
    classes: &ClassPlaces,
    selected: &[Name],
) -> Result<Seq<ManagedBean>, AllocError>
    ensures { IfOk result (λ managed. managed
        ≡ map (spec.managed_bean classes.now selected.now) (spec.managed_beans beans.now)) }
{
    let mut managed = Seq::empty(alloc);
    for bean in beans {
        if bean.is_managed() {
            managed.push(managed_bean(classes, selected, bean))?;
        }
    }
    Ok(managed)
}

/// Where each of some beans is declared, in their order.
pub(crate) fn listed_beans(alloc: Global, beans: &[Bean]) -> Result<Seq<ListedBean>, AllocError>
    ensures { IfOk result (λ listed. listed ≡ map spec.listed_bean beans.now) }
{
    let mut listed = Seq::empty(alloc);
    for bean in beans {
        listed.push(listed_bean(bean))?;
    }
    Ok(listed)
}
