//! What is kept of the beans of a deployment for the lives of their instances.
ghost use Rattle.std.specs.Prelude.{◌≡◌, length, slice_get, IfOk, OnOk};
ghost use Rattle.std.specs.List.{All};
ghost use Rattle.std.specs.Option.{is_some, option_copied};
ghost use Rattle.cdi_bean_lives.specs.Lives as lives;
ghost use Rattle.cdi_bean_lives.specs.Steps.{HaveFewSteps};
ghost use Rattle.cdi_class_lives.specs.ClassLives.{fields_of};
ghost use Rattle.cdi_class_lives.specs.declared.lives.ClassLives.{ClassLives};
ghost use Rattle.cdi_numbered_plans.specs.Machine.{first_values};
ghost use Rattle.cdi_numbered_plans.specs.Numbered as numbered;
ghost use Rattle.cdi_planner.specs.Plans.{IsDeclared};

use crate::bean::BeanLife;
use crate::line::KeptLines;
use cdi_base::{Fields, Name, Seq};
use cdi_beans::Bean;
use cdi_cache::Lookup;
use cdi_class_lives::ClassLives;
use cdi_machine::{Lifecycle, Method, Product, Step};
use cdi_numbered_plans::{Numbering, numbered_product, numbers_product};
use cdi_planner::Planner;
use cdi_plans::ProductPlan;
use cdi_resolve::Resolver;
use std::alloc::{AllocError, Global};

/// What is kept of a product (Jakarta CDI 4.0, *Lifecycle of producer methods*).
pub struct KeptProduct {
    /// Its plan.
    pub(crate) plan: ProductPlan,
    /// The same in the words of an instance's life, if what the plan names has numbers, and a managed bean declares the producer.
    pub(crate) numbered: Option<Product>,
}

/// In one call, so that the proof of each function that owns one has one step here, and not one for each of its parts.
impl Drop for KeptProduct {
    fn drop(self) {
        let KeptProduct {
            plan: _plan,
            numbered: _numbered,
        } = self;
    }
}

/// What is kept of a bean.
#[derive(Drop)]
pub enum KeptBean {
    Managed(BeanLife),
    Product(KeptProduct),
}

impl KeptBean {
    ghost use Rattle.cdi_bean_lives.specs.Beans as spec;

    /// What is kept of a bean whose class is declared, as is its producer, if it is a product.
    fn build(
        alloc: Global,
        planner: &Planner<'_>,
        numbering: &Numbering<'_>,
        lookup: &mut Lookup<&Resolver>,
        lines: &mut KeptLines,
        bean: &Bean,
    ) -> Result<KeptBean, AllocError>
        requires asks { numbered.AsksNumbered numbering.now lookup.old.now }
        requires few { spec.AreFew planner.now numbering.now }
        requires declared { IsDeclared planner.now.classes bean.now }
        requires lives { lives.AreLives planner.now numbering.now lines.old.lives }
        ensures kept { IfOk result
            (spec.IsKeptWith planner.now numbering.now lines.new.lives bean.now) }
        ensures lives { OnOk result (lives.AreLives planner.now numbering.now lines.new.lives) }
        ensures others { OnOk result (lives.KeepsLives lines.old.lives lines.new.lives) }
        ensures asks { numbered.AsksNumbered numbering.now lookup.new.now }
    {
        if bean.is_managed() {
            let life = BeanLife::build(alloc, planner, numbering, lookup, lines, bean)?;
            return Ok(KeptBean::Managed(life));
        }
        let plan = planner.product(alloc, bean.class, bean.kind)?;
        let numbered = numbered_product(alloc, numbering, lookup, &plan)?;
        Ok(KeptBean::Product(KeptProduct { plan, numbered }))
    }

    /// Whether an instance can be made.
    fn is_instantiable(&self) -> bool
        ensures { (l : ClassLives) → result ≡ is_some (spec.numbered_kept l self.now) }
    {
        match self {
            KeptBean::Managed(_) => true,
            KeptBean::Product(product) => product.numbered.is_some(),
        }
    }

    /// Whether the places of the interceptors in its plan are below 4,294,967,296.
    fn has_numbers(&self) -> bool
        ensures { result ≡ spec.numbers_kept self.now }
    {
        match self {
            KeptBean::Managed(_) => true,
            KeptBean::Product(product) => numbers_product(&product.plan),
        }
    }
}

/// The fields of a new instance of a class, each with its first value.
fn first_values(alloc: Global, lives: &ClassLives, class: usize) -> Result<Fields, AllocError>
    ensures { IfOk result (λ fields. fields ≡ first_values (fields_of lives.now class)) }
{
    let mut fields = Fields::new(alloc);
    for at in 0..lives.field_count(class) {
        if let Some(field) = lives.field(class, at) {
            fields.put(field.name, field.value.clone()?)?;
        }
    }
    Ok(fields)
}

/// What is kept of the beans of a deployment for the lives of their instances: the plan of each bean, in the words of an instance's life.
/// What beans have of a class that is among their superclasses is kept once.
pub struct KeptBeans {
    pub(crate) lives: ClassLives,
    pub(crate) beans: Seq<KeptBean>,
    ghost few: { HaveFewSteps lives beans },
}

/// In one call, so that the proof of each function that owns them has one step here, and not one for each part.
impl Drop for KeptBeans {
    fn drop(self) {
        let KeptBeans {
            lives: _lives,
            beans: _beans,
        } = self;
    }
}

impl KeptBeans {
    ghost use Rattle.cdi_bean_lives.specs.Beans as spec;

    /// Those of a deployment, in their order. The class of each has to be declared, and its producer, if it is a product, as they are in a
    /// deployment whose names have no problem ([`law_beans_are_declared`](cdi_planner::laws::law_beans_are_declared)). There is no memory
    /// for more than 4,294,967,296 beans or interceptors.
    pub fn build(
        alloc: Global,
        planner: &Planner<'_>,
        numbering: &Numbering<'_>,
        lookup: &mut Lookup<&Resolver>,
        beans: &[Bean],
    ) -> Result<KeptBeans, AllocError>
        requires asks { numbered.AsksOf numbering.now lookup.old.now }
        requires declared { All (IsDeclared planner.now.classes) beans.now }
        ensures beans { IfOk result (spec.AreKeptBeans planner.now numbering.now beans.now) }
        ensures few { IfOk result (λ kept. spec.AreFew planner.now numbering.now) }
        ensures kept { numbered.AsksOf numbering.now lookup.new.now }
    {
        if !numbering.has_few_beans() || planner.interceptor_count() > 4_294_967_296 {
            return Err(AllocError);
        }
        let mut lines = KeptLines::new(alloc)?;
        let mut kept = Seq::empty(alloc);
        for bean in beans {
            kept.push(KeptBean::build(alloc, planner, numbering, lookup, &mut lines, bean)?)?;
        }
        Ok(KeptBeans {
            lives: lines.into_lives(),
            beans: kept,
        })
    }

    /// Whether instances of the bean with an index can be made.
    pub fn is_instantiable(&self, bean: usize) -> bool
        ensures { result ≡ is_some (spec.numbered_at self.now bean) }
    {
        match self.beans.get(bean) {
            Some(kept) => kept.is_instantiable(),
            None => false,
        }
    }

    /// How many steps create an instance of the bean with an index; a product has none.
    pub fn step_count(&self, bean: usize) -> usize
        ensures { result ≡ length (spec.steps_at self.now bean) }
    {
        match self.beans.get(bean) {
            Some(KeptBean::Managed(life)) => life.step_count(&self.lives),
            _ => 0,
        }
    }

    /// The one at a place of these steps.
    pub fn step(&self, bean: usize, at: usize) -> Option<&Step>
        ensures { option_copied result ≡ slice_get (spec.steps_at self.now bean) at }
    {
        match self.beans.get(bean)? {
            KeptBean::Managed(life) => life.step(&self.lives, at),
            KeptBean::Product(_) => None,
        }
    }

    /// What runs where an instance of the bean with an index is destroyed, if it is a managed bean.
    pub fn pre_destroy(&self, bean: usize) -> Option<&Lifecycle>
        ensures { option_copied result ≡ spec.pre_destroy_at self.now bean }
    {
        match self.beans.get(bean)? {
            KeptBean::Managed(life) => Some(&life.pre_destroy),
            KeptBean::Product(_) => None,
        }
    }

    /// What an instance of the bean with an index comes from, and what disposes of it, if it is a product of a managed bean.
    pub fn product(&self, bean: usize) -> Option<&Product>
        ensures { option_copied result ≡ spec.product_at self.now bean }
    {
        match self.beans.get(bean)? {
            KeptBean::Managed(_) => None,
            KeptBean::Product(product) => product.numbered.as_ref(),
        }
    }

    /// The business method of a name that the bean with an index has.
    pub fn method(&self, bean: usize, name: Name) -> Option<&Method>
        ensures { option_copied result ≡ spec.method_at self.now bean name }
    {
        match self.beans.get(bean)? {
            KeptBean::Managed(life) => self.lives.method(life.class, name),
            KeptBean::Product(_) => None,
        }
    }

    /// The fields of a new instance of the bean with an index, each with its first value; a product has none.
    pub fn first_fields(&self, alloc: Global, bean: usize) -> Result<Fields, AllocError>
        ensures { IfOk result (λ fields. fields ≡ first_values (spec.fields_at self.now bean)) }
    {
        match self.beans.get(bean) {
            Some(KeptBean::Managed(life)) => first_values(alloc, &self.lives, life.class),
            _ => Ok(Fields::new(alloc)),
        }
    }

    /// Whether the places of the interceptors in all plans are below 4,294,967,296.
    pub fn have_numbers(&self) -> bool
        ensures { result ≡ spec.have_numbers self.now }
    {
        self.beans.iter().all(KeptBean::has_numbers)
    }
}
