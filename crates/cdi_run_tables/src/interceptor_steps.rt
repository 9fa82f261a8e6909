//! The steps by which instances of the enabled interceptors are created (Jakarta Interceptors 2.1, *Interceptor Life Cycle*).
ghost use Rattle.std.specs.Prelude.{◌≡◌, length, map, option_map, slice_get, IfOk, IfSome, IsTrue};
ghost use Rattle.std.specs.List.{All, AllZip};
ghost use Rattle.cdi_machine.specs.Resolved.{IsResolvedStep};
ghost use Rattle.cdi_machine.specs.Told.{step_told};
ghost use Rattle.cdi_run_tables.specs.Index as index;
ghost use Rattle.cdi_run_tables.specs.Interceptors as spec;
ghost use Rattle.cdi_run_tables.specs.Machine.{interceptor_at, machine_tables};
ghost use Rattle.cdi_run_tables.specs.Numbered.{is_numbered};
ghost use Rattle.cdi_run_tables.specs.Seen.{parts_seen};

use crate::parts::KeptParts;
use crate::tables::RunTables;
use cdi_base::Seq;
use cdi_beans::EnabledInterceptor;
use cdi_cache::Lookup;
use cdi_machine::Step;
use cdi_numbered_plans::{Numbering, injections_by};
use cdi_resolve::Resolver;
use std::alloc::{AllocError, Global};

/// The steps by which an instance of an enabled interceptor is created: its injected fields, in the order of their declaration.
fn steps_of(
    alloc: Global,
    parts: &KeptParts,
    numbering: &Numbering<'_>,
    lookup: &mut Lookup<&Resolver>,
    interceptor: &EnabledInterceptor,
) -> Result<Seq<Step>, AllocError>
    requires numbering { index.IsNumberingOf (parts_seen parts.now) numbering.now }
    requires asks { index.AsksOf (parts_seen parts.now) lookup.old.now }
    ensures steps { IfOk result (index.ArePlannedBy (parts_seen parts.now) interceptor.now) }
    ensures kept { index.AsksOf (parts_seen parts.now) lookup.new.now }
{
    match parts.deployment.interceptors.get(interceptor.index) {
        Some(declared) => injections_by(alloc, numbering, lookup, declared.inject.as_slice()),
        None => Ok(Seq::empty(alloc)),
    }
}

/// Those of all enabled interceptors, in their order.
pub(crate) fn all_steps(
    alloc: Global,
    parts: &KeptParts,
    numbering: &Numbering<'_>,
    lookup: &mut Lookup<&Resolver>,
) -> Result<Seq<Seq<Step>>, AllocError>
    requires numbering { index.IsNumberingOf (parts_seen parts.now) numbering.now }
    requires asks { index.AsksOf (parts_seen parts.now) lookup.old.now }
    ensures all { IfOk result
        (AllZip (index.ArePlannedBy (parts_seen parts.now)) parts.now.tables.chains.interceptors) }
    ensures kept { index.AsksOf (parts_seen parts.now) lookup.new.now }
{
    let mut all = Seq::empty(alloc);
    for interceptor in parts.tables.chains.interceptors() {
        all.push(steps_of(alloc, parts, numbering, lookup, interceptor)?)?;
    }
    Ok(all)
}

impl RunTables {
    /// The steps by which an instance of the enabled interceptor at a place is created.
    fn steps_at(&self, place: u32) -> &[Step]
        requires { IsTrue (is_numbered self.now) }
        ensures tells { map step_told result.now ≡ spec.plan_of (interceptor_at self.now place) }
        ensures resolved { All (IsResolvedStep (machine_tables self.now).resolve) result.now }
    {
        match self.index.interceptor_steps.get(place as usize) {
            Some(steps) => steps.as_slice(),
            None => &[],
        }
    }

    /// How many steps create an instance of the enabled interceptor at a place. They have to be numbered ([`RunTables::is_numbered`]).
    pub fn interceptor_steps(&self, place: u32) -> u32
        requires { IsTrue (is_numbered self.now) }
        ensures { result ≡ length (spec.plan_of (interceptor_at self.now place)) }
    {
        self.steps_at(place).len() as u32
    }

    /// The step at an index among those by which an instance of the enabled interceptor at a place is created: its injected fields, in the
    /// order of their declaration. They have to be numbered ([`RunTables::is_numbered`]).
    pub fn interceptor_step(&self, place: u32, at: u32) -> Option<&Step>
        requires { IsTrue (is_numbered self.now) }
        ensures step { option_map (λ s. step_told s.now) result
            ≡ slice_get (spec.plan_of (interceptor_at self.now place)) at }
        ensures resolved { IfSome result
            (λ s. IsResolvedStep (machine_tables self.now).resolve s.now) }
    {
        self.steps_at(place).get(at as usize)
    }
}
