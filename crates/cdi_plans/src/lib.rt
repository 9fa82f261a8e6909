//! Which interceptors stand round the members of a bean, and in which order (Jakarta Interceptors 2.1, *Interceptor Resolution*,
//! *Interceptor Ordering*); and what a plan is: by which steps an instance of a bean is created, and what else runs in its life.
#![tactic(auto)]

mod bean_bindings;
pub mod bindings;
pub mod chain;
pub mod chains;
pub mod laws;
pub mod plan;

pub use bindings::{ClassBindings, MemberBindings};
pub use chain::Chain;
pub use chains::Chains;
pub use plan::{
    BusinessMethod, Code, InjectedMethod, Lifecycle, ManagedPlan, Plan, ProductPlan, Source, Step,
};
