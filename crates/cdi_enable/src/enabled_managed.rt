//! The enabled ones of a list of managed beans.
ghost use Rattle.std.specs.Prelude.{◌≡◌, ◌↔◌, ℕ, IsTrue, IfOk};
ghost use Rattle.cdi_enable.specs.Enabled as spec;
ghost use Rattle.cdi_enable.specs.Free.{flag, IsFree};

use crate::managed_bean::ManagedBean;
use cdi_base::Seq;
use cdi_paths::Reachability;
use std::alloc::{AllocError, Global};
use std::marker::Model;

/// The enabled ones of a list of managed beans (Jakarta CDI 4.0, *Enabled and disabled beans*). Contracts see the list of the beans.
///
/// For n beans it is made in at most n³ / 64 steps; a look takes constant time.
#[derive(Drop)]
pub struct EnabledManaged {
    beans: Seq<ManagedBean>,
    reach: Reachability,
    flags: Seq<bool>,
}

impl Model for EnabledManaged {
    ghost use Rattle.std.specs.Prelude.{List};
    ghost use Rattle.cdi_enable.specs.declared.managed_bean.ManagedBean.{ManagedBean};
    ghost use Rattle.cdi_enable.specs.Free.{IsEnabledSetOf};

    ghost Value = { List ManagedBean };

    ghost view = { λ s. s.beans };

    ghost invariant = { λ s. IsEnabledSetOf s.beans s.reach s.flags };
}

/// Each bean with the one that it directly specializes.
fn graph_of(alloc: Global, beans: &[ManagedBean]) -> Result<Seq<Seq<usize>>, AllocError>
    ensures { IfOk result (λ graph. graph ≡ spec.graph_of beans.now) }
{
    let mut graph = Seq::empty(alloc);
    for bean in beans {
        let mut row = Seq::empty(alloc);
        if let Some(target) = bean.specializes {
            row.push(target)?;
        }
        graph.push(row)?;
    }
    Ok(graph)
}

/// Whether a bean is no alternative, or a selected one.
fn may_be_enabled(beans: &[ManagedBean], bean: usize) -> bool
    ensures { result ≡ spec.may_be_enabled beans.now bean }
{
    match beans.get(bean) {
        Some(bean) => !bean.alternative || bean.selected,
        None => false,
    }
}

/// Whether a bean may be enabled, and none that may be specializes it.
fn is_free(beans: &[ManagedBean], reach: &Reachability, bean: usize) -> bool
    requires { reach.now ≡ spec.graph_of beans.now }
    ensures { IsTrue result ↔ IsFree beans.now bean }
{
    if !may_be_enabled(beans, bean) {
        return false;
    }
    for other in 0..beans.len() {
        if may_be_enabled(beans, other) && reach.reaches_properly(other, bean) {
            return false;
        }
    }
    true
}

/// Each bean with whether it is free.
fn flags_of(
    alloc: Global,
    beans: &[ManagedBean],
    reach: &Reachability,
) -> Result<Seq<bool>, AllocError>
    requires { reach.now ≡ spec.graph_of beans.now }
    ensures { IfOk result (λ flags. (b : ℕ) → IsTrue (flag flags b) ↔ IsFree beans.now b) }
{
    let mut flags = Seq::empty(alloc);
    for bean in 0..beans.len() {
        flags.push(is_free(beans, reach, bean))?;
    }
    Ok(flags)
}

/// What a bean's flag says.
fn has_flag(flags: &[bool], bean: usize) -> bool
    ensures { result ≡ flag flags.now bean }
{
    match flags.get(bean) {
        Some(flag) => *flag,
        None => false,
    }
}

impl EnabledManaged {
    /// The enabled ones of these beans, none of which specializes itself, directly or through others.
    pub fn build(alloc: Global, beans: Seq<ManagedBean>) -> Result<EnabledManaged, AllocError>
        requires { spec.IsForest beans }
        ensures { IfOk result (λ set. set ≡ beans) }
    {
        let graph = graph_of(alloc, beans.as_slice())?;
        let reach = Reachability::build(alloc, graph)?;
        let flags = flags_of(alloc, beans.as_slice(), &reach)?;
        Ok(EnabledManaged {
            beans,
            reach,
            flags,
        })
    }

    /// Whether a bean is enabled: no enabled bean specializes it, directly or through others, and it is no alternative or a selected
    /// one. There is none past the last.
    pub fn contains(&self, bean: usize) -> bool
        ensures { spec.Enabled self.now bean result }
    {
        has_flag(self.flags.as_slice(), bean)
    }

    /// Whether two enabled beans specialize a bean (Jakarta CDI 4.0, *Inconsistent specialization*).
    pub fn inconsistent(&self, bean: usize) -> bool
        ensures { IsTrue result ↔ spec.IsInconsistent self.now bean }
    {
        let mut seen = false;
        for other in 0..self.beans.len() {
            if self.contains(other) && self.reach.reaches_properly(other, bean) {
                if seen {
                    return true;
                }
                seen = true;
            }
        }
        false
    }
}
