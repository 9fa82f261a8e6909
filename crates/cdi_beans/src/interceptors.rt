//! The enabled interceptors in their order.
ghost use Rattle.std.specs.Prelude.{◌≡◌, ◌++◌, [], ◌∷◌, option_to_list, filter, IfOk, OnOk};
ghost use Rattle.std.specs.List.{filter_map, enumerate_from, AllZip};
ghost use Rattle.cdi_quals.specs.OrderedSet.{IsOrderedSet};
ghost use Rattle.cdi_beans.specs.Interceptors as spec;

use crate::bean::EnabledInterceptor;
use cdi_base::{Name, Names, Seq};
use cdi_deployment::{Deployment, Interceptor};
use cdi_quals::{QualSet, QualifierTypes};
use std::alloc::{AllocError, Global};
use std::cmp::Ordering;
use std::marker::Model;

/// An interceptor with its index among those of the deployment.
#[derive(Drop)]
struct Indexed<'a> {
    index: usize,
    interceptor: &'a Interceptor,
}

impl<'a> Model for Indexed<'a> {
    ghost use Rattle.std.specs.Prelude.{ℕ};
    ghost use Rattle.cdi_deployment.specs.declared.deployment.Interceptor.{Interceptor};

    ghost Value = { ℕ × Interceptor };

    ghost view = { λ p. (p.index, p.interceptor.now) };
}

/// The order of interceptors with a priority (Jakarta Interceptors 2.1, *Interceptor Ordering*).
fn compare_priorities(a: &Indexed<'_>, b: &Indexed<'_>) -> Ordering
    ensures { result ≡ spec.compare_priorities a.now b.now }
{
    match a.interceptor.priority.cmp(&b.interceptor.priority) {
        Ordering::Equal => a.index.cmp(&b.index),
        order => order,
    }
}

/// The interceptors with a priority, in the order of the deployment.
fn prioritized<'a>(
    alloc: Global,
    interceptors: &'a [Interceptor],
) -> Result<Vec<Indexed<'a>>, AllocError>
    ensures { IfOk result (λ found.
        found.items ≡ filter spec.has_priority (enumerate_from 0 interceptors.now)) }
{
    let mut found = Vec::new(alloc);
    for (index, interceptor) in interceptors.iter().enumerate() {
        if interceptor.priority.is_some() {
            found.push(Indexed { index, interceptor })?;
        }
    }
    Ok(found)
}

/// The interceptors with a priority, in their order.
fn by_priority<'a>(
    alloc: Global,
    interceptors: &'a [Interceptor],
) -> Result<Seq<Indexed<'a>>, AllocError>
    ensures { IfOk result (λ sorted. IsOrderedSet spec.compare_priorities
        (filter spec.has_priority (enumerate_from 0 interceptors.now)) sorted) }
{
    let mut found = prioritized(alloc, interceptors)?;
    found.sort_by(|a, b| compare_priorities(a, b))?;
    Ok(Seq::new(found))
}

/// The interceptor that the list of the enabled ones names, if it has no priority.
fn listed<'a>(interceptors: &'a [Interceptor], name: Name) -> Option<Indexed<'a>>
    ensures { result ≡ spec.listed (enumerate_from 0 interceptors.now) name }
{
    for (index, interceptor) in interceptors.iter().enumerate() {
        if interceptor.name == name && interceptor.priority.is_none() {
            return Some(Indexed { index, interceptor });
        }
    }
    None
}

/// Adds the interceptor that the list names, if it has no priority.
fn add_listed<'a>(
    interceptors: &'a [Interceptor],
    name: Name,
    enabled: &mut Seq<Indexed<'a>>,
) -> Result<(), AllocError>
    ensures { OnOk result (enabled.new ≡ enabled.old
        ++ option_to_list (spec.listed (enumerate_from 0 interceptors.now) name)) }
{
    match listed(interceptors, name) {
        Some(interceptor) => {
            enabled.push(interceptor)?;
            Ok(())
        }
        None => Ok(()),
    }
}

/// The enabled interceptors in their order (Jakarta Interceptors 2.1, *Enabling Interceptors*): those with a priority, and then those
/// that the list names.
fn enabled<'a>(alloc: Global, deployment: &'a Deployment) -> Result<Seq<Indexed<'a>>, AllocError>
    ensures { IfOk result (λ enabled. spec.AreEnabled deployment.now enabled) }
{
    let interceptors = deployment.interceptors.as_slice();
    let mut enabled = by_priority(alloc, interceptors)?;
    for name in deployment.order.as_slice() {
        add_listed(interceptors, *name, &mut enabled)?;
    }
    Ok(enabled)
}

fn enabled_interceptor(
    alloc: Global,
    names: &Names,
    bindings: &QualifierTypes,
    indexed: &Indexed<'_>,
) -> Result<EnabledInterceptor, AllocError>
    ensures { IfOk result (λ interceptor.
        spec.IsEnabledInterceptor names.now bindings.now indexed.now interceptor) }
{
    let interceptor = indexed.interceptor;
    let uses = interceptor.bindings.as_slice();
    Ok(EnabledInterceptor {
        index: indexed.index,
        name: interceptor.name,
        bindings: QualSet::new(alloc, names, bindings, uses)?,
        invoke: interceptor.invoke,
        construct: interceptor.construct,
        post: interceptor.post,
        pre: interceptor.pre,
    })
}

/// The enabled interceptors of a deployment in their order, with the sets of their bindings.
pub(crate) fn interceptors_of(
    alloc: Global,
    deployment: &Deployment,
    bindings: &QualifierTypes,
) -> Result<Seq<EnabledInterceptor>, AllocError>
    ensures { IfOk result (λ interceptors.
        spec.AreInterceptorsOf deployment.now bindings.now interceptors) }
{
    let enabled = enabled(alloc, deployment)?;
    let mut interceptors = Seq::empty(alloc);
    for indexed in enabled.as_slice() {
        let names = &deployment.names;
        interceptors.push(enabled_interceptor(alloc, names, bindings, indexed)?)?;
    }
    Ok(interceptors)
}
