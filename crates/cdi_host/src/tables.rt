//! The tables of a deployment, as the engine asks them.
use crate::beans::{BeanHead, Code, Lifecycle, Method, Observer, Product, Resolution, Step};
use cdi_base::{Fields, InterceptorMethod, Name, Seq, Use};
use cdi_bodies::BodyId;
use cdi_store::Component;
use std::alloc::{AllocError, Global};

/// The tables of a deployment. They answer as those of the definition, and never change.
pub trait Tables {
    ghost use Rattle.std.specs.Prelude.{◌≡◌, length, map, slice_get, option_map, IfOk, IfSome};
    ghost use Rattle.std.specs.List.{All};
    ghost use Rattle.cdi_machine.specs.Tables.{Tables as MachineTables};
    ghost use Rattle.cdi_host.specs.Asked.{asked_for, machine_resolution, head_of, fields_at, plan_at, method_at};
    ghost use Rattle.cdi_host.specs.Asked.{interceptor_code, pre_destroy_of, product_of};
    ghost use Rattle.cdi_machine.specs.Resolved.{IsResolvedObserver, IsResolvedProduct, IsResolvedStep};
    ghost use Rattle.cdi_machine.specs.Told.{lifecycle_told, method_told, observer_told, product_told};
    ghost use Rattle.cdi_machine.specs.Told.{step_told};

    /// What the definition asks.
    ghost tables: { Self → MachineTables };

    /// The bean with an index.
    fn bean(&self, bean: u32) -> Option<BeanHead>
        ensures { option_map head_of ((tables self.now).bean bean) ≡ result };

    /// The name of the enabled interceptor at a place.
    fn interceptor(&self, interceptor: u32) -> Option<Name>
        ensures { option_map (λ i. i.name) ((tables self.now).interceptor interceptor) ≡ result };

    /// The method of this kind that the enabled interceptor at a place has, if it has one (Jakarta Interceptors 2.1, *Business Method
    /// Interceptor Methods* and *Interceptor Methods for Lifecycle Event Callbacks*).
    fn interceptor_method(&self, interceptor: u32, role: InterceptorMethod) -> Option<Code>
        ensures { interceptor_code (tables self.now) interceptor role ≡ result };

    /// The fields of a new instance of a bean or an interceptor, each with its first value.
    fn first_fields(&self, alloc: Global, component: Component) -> Result<Fields, AllocError>
        ensures { IfOk result (λ fields. fields ≡ fields_at (tables self.now) component) };

    /// How many steps the creation of an instance of a bean or an interceptor has.
    fn steps(&self, component: Component) -> u32
        ensures { length (plan_at (tables self.now) component) ≡ result };

    /// A step of this creation (Jakarta CDI 4.0, *Lifecycle of managed beans*; Jakarta Interceptors 2.1, *Interceptor Life Cycle*).
    fn step(&self, component: Component, at: u32) -> Option<&Step>
        ensures found { slice_get (plan_at (tables self.now) component) at
            ≡ option_map (λ s. step_told s.now) result }
        ensures resolved { IfSome result (λ s. IsResolvedStep (tables self.now).resolve s.now) };

    /// The lifecycle chain before an instance of the bean with an index is destroyed, and the callbacks at its end (Jakarta CDI 4.0,
    /// *Lifecycle of managed beans*).
    fn pre_destroy(&self, bean: u32) -> Option<&Lifecycle>
        ensures { pre_destroy_of ((tables self.now).bean bean)
            ≡ option_map (λ l. lifecycle_told l.now) result };

    /// A business method of the bean with an index, and the interceptors of its chain (Jakarta Interceptors 2.1, *Interceptor
    /// Ordering*).
    fn method(&self, bean: u32, name: Name) -> Option<&Method>
        ensures { method_at (tables self.now) bean name
            ≡ option_map (λ m. method_told m.now) result };

    /// What an instance of the bean with an index comes from, and what disposes of it, if it is a product (Jakarta CDI 4.0, *Lifecycle
    /// of producer methods*, *Lifecycle of producer fields*).
    fn product(&self, bean: u32) -> Option<&Product>
        ensures product { product_of ((tables self.now).bean bean)
            ≡ option_map (λ p. product_told p.now) result }
        ensures resolved { IfSome result (λ p. IsResolvedProduct (tables self.now).resolve p.now) };

    /// What a type resolves to, with qualifiers as they are written (Jakarta CDI 4.0, *Typesafe resolution*).
    fn resolve(&self, bean_type: Name, qualifiers: &[Use]) -> Resolution
        ensures { (tables self.now).resolve (asked_for bean_type qualifiers.now)
            ≡ machine_resolution result };

    /// What a lookup of a body, counted from 0, resolves to (Jakarta CDI 4.0, *Programmatic lookup*).
    fn lookup(&self, body: BodyId, lookup: u32) -> Option<Resolution>
        ensures { option_map (tables self.now).resolve ((tables self.now).lookup body lookup)
            ≡ option_map machine_resolution result };

    /// The qualifiers of an event as they are written (Jakarta CDI 4.0, *Event types and qualifier types*). Memory can be wanting.
    fn written(&self, alloc: Global, qualifiers: &[Use]) -> Result<Seq<Use>, AllocError>
        ensures { IfOk result (λ uses. uses ≡ (tables self.now).written qualifiers.now) };

    /// Whether an exception's class is checked.
    fn is_checked(&self, exception: Name) -> bool
        ensures { (tables self.now).is_checked exception ≡ result };

    /// The text of an exception's class.
    fn text(&self, exception: Name) -> Option<&str>
        ensures { (tables self.now).text exception ≡ option_map (λ t. t.now) result };

    /// The observers that hear an event of a class with qualifiers as they are written, in groups by priority (Jakarta CDI 4.0, *Observer
    /// resolution* and *Observer ordering*). Memory can be wanting.
    fn observers(
        &self,
        alloc: Global,
        class: Name,
        qualifiers: &[Use],
    ) -> Result<Seq<Seq<Observer>>, AllocError>
        ensures heard { IfOk result (λ groups. map (map observer_told) groups
            ≡ (tables self.now).observers class qualifiers.now) }
        ensures resolved { IfOk result (λ groups.
            All (All (IsResolvedObserver (tables self.now).resolve)) groups) };
}
