//! What is kept of a managed bean for the lives of its instances.
ghost use Rattle.std.specs.Prelude.{◌≡◌, ◌+◌, ◌<◌, ◌≤◌, ◌^◌, length, nat_lt, slice_get, IfOk, IsSome, IsTrue, OnOk};
ghost use Rattle.std.specs.Option.{option_copied};
ghost use Rattle.cdi_bean_lives.specs.Beans as spec;
ghost use Rattle.cdi_bean_lives.specs.Completed.{completed, life_with};
ghost use Rattle.cdi_bean_lives.specs.Lives as lives;
ghost use Rattle.cdi_bean_lives.specs.Steps.{kept_steps};
ghost use Rattle.cdi_bean_lives.specs.declared.kept.KeptBean.TheVariants as kept_beans;
ghost use Rattle.cdi_beans.specs.declared.bean.BeanKind.TheVariants as kinds;
ghost use Rattle.cdi_numbered_plans.specs.Numbered as numbered;
ghost use Rattle.cdi_planner.specs.Plans.{constructor_of};
ghost use Rattle.cdi_planner.specs.Steps as steps;
ghost use Rattle.cdi_types.specs.Line.{class_named};

use crate::line::KeptLines;
use cdi_base::{InterceptorMethod, Name, Seq};
use cdi_beans::Bean;
use cdi_cache::Lookup;
use cdi_class_lives::ClassLives;
use cdi_machine::{Code, Lifecycle, Step};
use cdi_numbered_plans::{Numbering, has_none, lifecycle_of, steps_of};
use cdi_planner::Planner;
use cdi_resolve::Resolver;
use std::alloc::{AllocError, Global};

/// What is kept of a managed bean for the lives of its instances (Jakarta CDI 4.0, *Lifecycle of managed beans*): what isn't told by its
/// class.
pub struct BeanLife {
    /// The steps up to the construction of an instance, but for those at which nothing runs.
    pub(crate) first: Seq<Step>,
    /// The place of its class among those that are kept.
    pub(crate) class: usize,
    /// The post-construct chain and callbacks, if something runs there.
    pub(crate) last: Seq<Step>,
    /// The pre-destroy chain and callbacks.
    pub(crate) pre_destroy: Lifecycle,
}

/// In one call, so that the proof of each function that owns one has one step here, and not one for each of its parts.
impl Drop for BeanLife {
    fn drop(self) {
        let BeanLife {
            first: _first,
            class: _class,
            last: _last,
            pre_destroy: _pre_destroy,
        } = self;
    }
}

/// Whether the steps that create an instance are fewer than 4,294,967,296, where some interceptors are enabled and as many steps inject
/// fields or run initializers. A bean has no more interceptors than are enabled, its construction and its completion.
fn are_few_steps(interceptors: usize, injections: usize) -> bool
    requires { interceptors ≤ 2 ^ 32 }
    ensures { result ≡ nat_lt (interceptors + injections + 2) (2 ^ 32) }
{
    injections < 4_294_967_296 && interceptors + injections + 2 < 4_294_967_296
}

/// The steps up to the construction of an instance, but for those at which nothing runs.
fn first_of(
    alloc: Global,
    planner: &Planner<'_>,
    numbering: &Numbering<'_>,
    lookup: &mut Lookup<&Resolver>,
    bean: &Bean,
) -> Result<Seq<Step>, AllocError>
    requires asks { numbered.AsksNumbered numbering.now lookup.old.now }
    requires few { length planner.now.chains.interceptors ≤ 2 ^ 32 }
    ensures steps { IfOk result (λ first. first ≡ numbered.steps_by numbering.now
        (steps.first_steps planner.now.chains
        (constructor_of planner.now.classes bean.now.class) bean.now)) }
    ensures kept { numbered.AsksNumbered numbering.now lookup.new.now }
{
    let first = planner.first_steps(alloc, bean)?;
    steps_of(alloc, numbering, lookup, first.as_slice())
}

/// The chain of a bean for a method of interceptors, with callbacks that have their numbers.
fn life_with(
    alloc: Global,
    planner: &Planner<'_>,
    numbering: &Numbering<'_>,
    bean: Name,
    method: InterceptorMethod,
    callbacks: &[Code],
) -> Result<Lifecycle, AllocError>
    requires { length planner.now.chains.interceptors ≤ 2 ^ 32 }
    ensures { IfOk result (λ life. life
        ≡ life_with planner.now.chains bean method callbacks.now) }
{
    let named = planner.lifecycle(alloc, bean, method, Seq::empty(alloc))?;
    let mut life = lifecycle_of(alloc, numbering.ids(), &named)?;
    life.callbacks = Seq::new(Vec::from_slice(alloc, callbacks)?);
    Ok(life)
}

/// The step of a post-construct chain with its callbacks, if something runs there.
fn completed(alloc: Global, lifecycle: Lifecycle) -> Result<Seq<Step>, AllocError>
    ensures { IfOk result (λ last. last ≡ completed lifecycle) }
{
    let mut last = Seq::empty(alloc);
    if !(has_none(&lifecycle.chain) && has_none(&lifecycle.callbacks)) {
        last.push(Step::Complete(lifecycle))?;
    }
    Ok(last)
}

impl BeanLife {
    /// That of a managed bean, whose class is declared. The classes of its line are kept. There is no memory for 4,294,967,296 steps.
    pub(crate) fn build(
        alloc: Global,
        planner: &Planner<'_>,
        numbering: &Numbering<'_>,
        lookup: &mut Lookup<&Resolver>,
        lines: &mut KeptLines,
        bean: &Bean,
    ) -> Result<BeanLife, AllocError>
        requires asks { numbered.AsksNumbered numbering.now lookup.old.now }
        requires few { spec.AreFew planner.now numbering.now }
        requires managed { bean.now.kind ≡ kinds.Managed }
        requires declared { IsSome (class_named planner.now.classes bean.now.class) }
        requires lives { lives.AreLives planner.now numbering.now lines.old.lives }
        ensures life { IfOk result (λ life. spec.IsKeptWith planner.now numbering.now
            lines.new.lives bean.now (kept_beans.Managed life)) }
        ensures lives { OnOk result (lives.AreLives planner.now numbering.now lines.new.lives) }
        ensures others { OnOk result (lives.KeepsLives lines.old.lives lines.new.lives) }
        ensures kept { numbered.AsksNumbered numbering.now lookup.new.now }
    {
        let place = lines.add_line(alloc, planner, numbering, lookup, bean.class)?;
        let lives = &lines.lives;
        if !are_few_steps(planner.interceptor_count(), lives.injection_count(place)) {
            return Err(AllocError);
        }
        let completion = life_with(
            alloc,
            planner,
            numbering,
            bean.class,
            InterceptorMethod::PostConstruct,
            lives.post_constructs(place),
        )?;
        let pre_destroy = life_with(
            alloc,
            planner,
            numbering,
            bean.class,
            InterceptorMethod::PreDestroy,
            lives.pre_destroys(place),
        )?;
        Ok(BeanLife {
            first: first_of(alloc, planner, numbering, lookup, bean)?,
            class: place,
            last: completed(alloc, completion)?,
            pre_destroy,
        })
    }

    /// How many steps create an instance, by what is kept of classes.
    pub(crate) fn step_count(&self, lives: &ClassLives) -> usize
        requires { length (kept_steps lives.now self.now) < 2 ^ 32 }
        ensures { result ≡ length (kept_steps lives.now self.now) }
    {
        self.first.len() + lives.injection_count(self.class) + self.last.len()
    }

    /// The one at a place of these steps.
    pub(crate) fn step<'a>(&'a self, lives: &'a ClassLives, at: usize) -> Option<&'a Step>
        ensures { option_copied result ≡ slice_get (kept_steps lives.now self.now) at }
    {
        let first = self.first.len();
        if at < first {
            return self.first.get(at);
        }
        let injections = lives.injection_count(self.class);
        if at - first < injections {
            return lives.injection(self.class, at - first);
        }
        self.last.get(at - first - injections)
    }
}
