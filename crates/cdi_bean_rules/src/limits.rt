//! How many beans and observers there are.
ghost use Rattle.std.specs.Prelude.{◌≡◌, ◌+◌, ◌<◌, ◌↔◌, IsTrue, MatchBool, min, count_by, sum_by, IfOk};
ghost use Rattle.cdi_bean_check.specs.Inherited.{AreMembersOf};
ghost use Rattle.cdi_bean_rules.specs.Limits as spec;

use cdi_bean_check::bean_names::is_bean;
use cdi_deployment::{Class, Deployment, Member};
use cdi_types::{ClassIndex, MemberKind, TypeTable};
use std::alloc::{AllocError, Global};

/// The most managed beans and products together.
pub const MAX_BEANS: usize = 4096;

/// The most observers of beans, with the inherited ones.
pub const MAX_OBSERVERS: usize = 16384;

fn is_producer(member: &Member) -> bool
    ensures { result ≡ spec.is_producer member.now }
{
    matches!(member, Member::Producer(_) | Member::ProducerField(_))
}

fn producers_in(members: &[Member]) -> usize
    ensures { result ≡ count_by spec.is_producer members.now }
{
    let mut count = 0usize;
    for member in members {
        if is_producer(member) {
            count += 1;
        }
    }
    count
}

/// How many beans a class makes: itself as a managed bean, and its products. It stops at the greatest number.
fn beans_in(class: &Class) -> usize
    ensures { result ≡ min (spec.beans_in class.now) usize.MAX }
{
    if is_bean(class) {
        producers_in(class.members.as_slice()).saturating_add(1)
    } else {
        0
    }
}

/// How many managed beans and products there are. It stops at the greatest number.
fn bean_count(classes: &[Class]) -> usize
    ensures { result ≡ min (spec.bean_count classes.now) usize.MAX }
{
    let mut count = 0usize;
    for class in classes {
        count = count.saturating_add(beans_in(class));
    }
    count
}

/// How many observers a class has as a bean, with those that it inherits.
fn observers_of(
    alloc: Global,
    index: &ClassIndex<'_>,
    types: &TypeTable,
    class: &Class,
) -> Result<usize, AllocError>
    ensures { IfOk result (spec.IsObserverCountOf index.now types.now class.now) }
{
    let line = index.line(alloc, types, class.name)?;
    let observers = line.members_of_kind(alloc, MemberKind::Observer)?;
    Ok(observers.len())
}

/// How many observers the beans have, with those that they inherit. It stops at the greatest number.
fn observer_count(
    alloc: Global,
    classes: &[Class],
    index: &ClassIndex<'_>,
    types: &TypeTable,
) -> Result<usize, AllocError>
    requires { index.now ≡ classes.now }
    ensures { IfOk result (λ n. spec.IsObserverCountUpTo classes.now types.now usize.MAX n) }
{
    let mut count = 0usize;
    for class in classes {
        if is_bean(class) {
            count = count.saturating_add(observers_of(alloc, index, types, class)?);
        }
    }
    Ok(count)
}

/// Whether there are more than [`MAX_BEANS`] managed beans and products together, or more than [`MAX_OBSERVERS`] observers with the
/// inherited ones. This is the index of the classes.
pub fn has_too_many(
    alloc: Global,
    deployment: &Deployment,
    index: &ClassIndex<'_>,
    types: &TypeTable,
) -> Result<bool, AllocError>
    requires { index.now ≡ deployment.now.classes }
    ensures { IfOk result (λ too_many. MatchBool too_many
        (spec.HasTooMany deployment.now.classes types.now)
        (¬ spec.HasTooMany deployment.now.classes types.now)) }
{
    let classes = deployment.classes.as_slice();
    if bean_count(classes) > MAX_BEANS {
        return Ok(true);
    }
    let observers = observer_count(alloc, classes, index, types)?;
    Ok(observers > MAX_OBSERVERS)
}
