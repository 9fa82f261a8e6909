//! The tables of a deployment that is served.
ghost use Rattle.std.specs.Prelude.{◌≡◌};
ghost use Rattle.cdi_run_tables.specs.Machine.{machine_tables};
ghost use Rattle.cdi_run_tables.specs.Machine.{machine_resolution as machine_told};
ghost use Rattle.cdi_host.specs.Asked.{asked_for, machine_resolution};
ghost use Rattle.cdi_runtime.specs.Standing.{HasNumber, IsServable};

use cdi_base::{Fields, InterceptorMethod, Name, Seq, Use};
use cdi_bodies::BodyId;
use cdi_host::Tables;
use cdi_host::beans::{BeanHead, Code, Lifecycle, Method, Observer, Product, Resolution, Step};
use cdi_resolve::Resolution as Resolved;
use cdi_run_tables::RunTables;
use cdi_store::Component;
use std::alloc::{AllocError, Global};
use std::marker::Model;

/// The tables of a deployment that is served: what its plans name is numbered, and what resolves is one of its beans.
#[derive(Drop)]
pub struct ServedTables {
    tables: RunTables,
}

impl Model for ServedTables {
    ghost use Rattle.cdi_run_tables.specs.contracts.tables.RunTables as run_tables;
    ghost use Rattle.cdi_run_tables.specs.declared.tables.RunTables.{RunTables as AnyTables};
    ghost use Rattle.cdi_runtime.specs.Standing.{IsServable};

    ghost Value = { AnyTables };

    ghost coded = { run_tables.the_row.coded };

    ghost view = { λ t. t.tables };

    ghost invariant = { λ t. IsServable t.tables };
}

/// What resolution tells, with a bean by its number.
fn numbered(resolved: Resolved) -> Resolution
    requires { HasNumber resolved }
    ensures { machine_resolution result ≡ machine_told resolved }
{
    match resolved {
        Resolved::One(bean) => Resolution::One(bean as u32),
        Resolved::Nothing => Resolution::Nothing,
        Resolved::Many => Resolution::Many,
    }
}

impl ServedTables {
    /// The tables of a deployment that has to be served.
    pub fn new(tables: RunTables) -> ServedTables
        requires { IsServable tables }
        ensures { result ≡ tables }
    {
        ServedTables { tables }
    }

    /// The tables themselves.
    pub fn run_tables(&self) -> &RunTables
        ensures same { result.now ≡ self.now }
        ensures servable { IsServable self.now }
    {
        &self.tables
    }

    /// What a type and qualifiers, as they were written, resolve to (Jakarta CDI 4.0, *Typesafe resolution*). It is
    /// remembered.
    pub(crate) fn ask(&mut self, alloc: Global, bean_type: Name, qualifiers: &[Use]) -> Resolution
        ensures told { (machine_tables self.old).resolve (asked_for bean_type qualifiers.now)
            ≡ machine_resolution result }
        ensures kept { self.new ≡ self.old }
    {
        numbered(self.tables.ask(alloc, bean_type, qualifiers))
    }
}

impl Tables for ServedTables {
    ghost tables = { λ t. machine_tables t };

    fn bean(&self, bean: u32) -> Option<BeanHead> {
        match self.tables.instantiable(bean) {
            Some(bean) => Some(BeanHead {
                place: bean.place,
                scope: bean.scope,
            }),
            None => None,
        }
    }

    fn interceptor(&self, interceptor: u32) -> Option<Name> {
        self.tables.interceptor_name(interceptor as usize)
    }

    fn first_fields(&self, alloc: Global, component: Component) -> Result<Fields, AllocError> {
        match component {
            Component::Bean(bean) => self.tables.first_fields(alloc, bean as usize),
            Component::Interceptor(interceptor) => {
                self.tables.interceptor_fields(alloc, interceptor as usize)
            }
        }
    }

    fn steps(&self, component: Component) -> u32 {
        match component {
            Component::Bean(bean) => self.tables.steps(bean),
            Component::Interceptor(interceptor) => self.tables.interceptor_steps(interceptor),
        }
    }

    fn step(&self, component: Component, at: u32) -> Option<&Step> {
        match component {
            Component::Bean(bean) => self.tables.step(bean, at),
            Component::Interceptor(interceptor) => self.tables.interceptor_step(interceptor, at),
        }
    }

    fn pre_destroy(&self, bean: u32) -> Option<&Lifecycle> {
        self.tables.pre_destroy(bean)
    }

    fn method(&self, bean: u32, name: Name) -> Option<&Method> {
        self.tables.business_method(bean, name)
    }

    fn product(&self, bean: u32) -> Option<&Product> {
        self.tables.product(bean)
    }

    fn interceptor_method(&self, interceptor: u32, role: InterceptorMethod) -> Option<Code> {
        self.tables.interceptor_method(interceptor as usize, role)
    }

    fn lookup(&self, body: BodyId, lookup: u32) -> Option<Resolution> {
        let point = self.tables.lookup(body, lookup as usize)?;
        Some(self.resolve(point.bean_type, point.qualifiers.as_slice()))
    }

    fn written(&self, alloc: Global, qualifiers: &[Use]) -> Result<Seq<Use>, AllocError> {
        self.tables.written(alloc, qualifiers)
    }

    fn resolve(&self, bean_type: Name, qualifiers: &[Use]) -> Resolution {
        numbered(self.tables.resolve(bean_type, qualifiers))
    }

    fn is_checked(&self, exception: Name) -> bool {
        self.tables.is_checked(exception)
    }

    fn text(&self, exception: Name) -> Option<&str> {
        self.tables.deployment().names.get(exception)
    }

    fn observers(
        &self,
        alloc: Global,
        class: Name,
        qualifiers: &[Use],
    ) -> Result<Seq<Seq<Observer>>, AllocError> {
        self.tables.observers(alloc, class, qualifiers)
    }
}
