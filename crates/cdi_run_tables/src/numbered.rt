//! What is asked of a bean in the words of an instance's life.
ghost use Rattle.std.specs.Prelude.{◌≡◌, length, option_map, slice_get, IfSome, IsTrue};
ghost use Rattle.std.specs.List.{list_all};
ghost use Rattle.cdi_machine.specs.Resolved.{IsResolvedProduct, IsResolvedStep};
ghost use Rattle.cdi_machine.specs.Told.{lifecycle_told, method_told, product_told, step_told};
ghost use Rattle.cdi_numbered_plans.specs.Numbers.{has_numbers};
ghost use Rattle.cdi_run_tables.specs.Machine.{bean_at, machine_tables, method_of};
ghost use Rattle.cdi_run_tables.specs.Numbered as spec;
ghost use Rattle.cdi_run_tables.specs.Places.{place_of};

use crate::observers::groups_have_numbers;
use crate::planned::PlacedBean;
use crate::sizes::have_few_fields;
use crate::tables::RunTables;
use cdi_base::Name;
use cdi_machine::{Lifecycle, Method, Product, Step};

impl RunTables {
    /// Whether what the plans of the beans name has numbers.
    fn have_numbers(&self) -> bool
        ensures { result ≡ list_all (λ b. has_numbers b.plan) self.now.beans }
    {
        self.parts.beans.have_numbers()
    }

    /// Whether what the plans of the beans and the observers name has numbers of 32 bits: the beans, the steps of each plan, the
    /// interceptors, and the injected fields of each of these.
    pub fn is_numbered(&self) -> bool
        ensures { result ≡ spec.is_numbered self.now }
    {
        self.parts.tables.resolver.beans().len() <= 4_294_967_296
            && self.have_numbers()
            && have_few_fields(self.parts.deployment.interceptors.as_slice())
            && groups_have_numbers(self.observer_groups())
    }

    /// Where the bean with an index stands, and its scope, if there is one.
    fn placed(&self, bean: usize) -> Option<PlacedBean>
        ensures { option_map spec.head_of result ≡ option_map (λ b. (place_of b, b.scope))
            (slice_get self.now.tables.resolver.beans bean) }
    {
        let bean = self.parts.tables.resolver.beans().get(bean)?;
        Some(PlacedBean::new(bean))
    }

    /// The bean with an index, if instances of it can be made: it is enabled, and a managed bean or a product that one declares. What the
    /// plans name has to be numbered ([`RunTables::is_numbered`]).
    pub fn instantiable(&self, bean: u32) -> Option<PlacedBean>
        requires { IsTrue (spec.is_numbered self.now) }
        ensures { option_map spec.head_of result
            ≡ option_map (λ b. (b.place, b.scope)) (bean_at self.now bean) }
    {
        let index = bean as usize;
        if !self.is_enabled(index) {
            return None;
        }
        if self.parts.beans.is_instantiable(index) {
            self.placed(index)
        } else {
            None
        }
    }

    /// How many steps create an instance of the bean with an index; for a product, and for a bean that isn't enabled, there are none. They have to be numbered
    /// ([`RunTables::is_numbered`]).
    pub fn steps(&self, bean: u32) -> u32
        requires { IsTrue (spec.is_numbered self.now) }
        ensures { result ≡ length (spec.plan_in (spec.kind_at self.now bean)) }
    {
        if self.is_enabled(bean as usize) {
            return self.parts.beans.step_count(bean as usize) as u32;
        }
        0
    }

    /// The step at a place among those by which an instance of the bean with an index is created (Jakarta CDI 4.0, *Lifecycle of managed
    /// beans*), but for steps at which nothing runs. They have to be numbered ([`RunTables::is_numbered`]).
    pub fn step(&self, bean: u32, at: u32) -> Option<&Step>
        requires { IsTrue (spec.is_numbered self.now) }
        ensures step { option_map (λ s. step_told s.now) result
            ≡ slice_get (spec.plan_in (spec.kind_at self.now bean)) at }
        ensures resolved { IfSome result
            (λ s. IsResolvedStep (machine_tables self.now).resolve s.now) }
    {
        if self.is_enabled(bean as usize) {
            return self.parts.beans.step(bean as usize, at as usize);
        }
        None
    }

    /// What runs where an instance of the bean with an index is destroyed (Jakarta Interceptors 2.1, *Interceptor Methods for Lifecycle
    /// Event Callbacks*), if it is an enabled managed bean. Its steps have to be numbered ([`RunTables::is_numbered`]).
    pub fn pre_destroy(&self, bean: u32) -> Option<&Lifecycle>
        requires { IsTrue (spec.is_numbered self.now) }
        ensures { option_map (λ l. lifecycle_told l.now) result
            ≡ spec.pre_destroy_in (spec.kind_at self.now bean) }
    {
        if self.is_enabled(bean as usize) {
            return self.parts.beans.pre_destroy(bean as usize);
        }
        None
    }

    /// A business method of the bean with an index (Jakarta CDI 4.0, *Container invocations and interception*), if its body is registered;
    /// a product has none, nor has a bean that isn't enabled. What the plans name has to be numbered ([`RunTables::is_numbered`]).
    pub fn business_method(&self, bean: u32, name: Name) -> Option<&Method>
        requires { IsTrue (spec.is_numbered self.now) }
        ensures { option_map (λ m. method_told m.now) result ≡ method_of self.now bean name }
    {
        if self.is_enabled(bean as usize) {
            return self.parts.beans.method(bean as usize, name);
        }
        None
    }

    /// What an instance of the bean with an index comes from, and what disposes of it (Jakarta CDI 4.0, *Lifecycle of producer methods*),
    /// if it is an enabled product. What its plan names has to be numbered ([`RunTables::is_numbered`]).
    pub fn product(&self, bean: u32) -> Option<&Product>
        requires { IsTrue (spec.is_numbered self.now) }
        ensures product { option_map (λ p. product_told p.now) result
            ≡ spec.product_in (spec.kind_at self.now bean) }
        ensures resolved { IfSome result
            (λ p. IsResolvedProduct (machine_tables self.now).resolve p.now) }
    {
        if self.is_enabled(bean as usize) {
            return self.parts.beans.product(bean as usize);
        }
        None
    }
}
