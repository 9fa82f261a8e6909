//! Which beans are enabled (Jakarta CDI 4.0, *Enabled and disabled beans*).
#![tactic(auto)]

mod class_places;
pub mod enabled_managed;
pub mod enabled_set;
pub mod laws;
pub mod listed_bean;
pub mod managed_bean;
mod managed_beans;

pub use enabled_managed::EnabledManaged;
pub use enabled_set::{EnabledSet, enabled};
pub use listed_bean::ListedBean;
pub use managed_bean::ManagedBean;
