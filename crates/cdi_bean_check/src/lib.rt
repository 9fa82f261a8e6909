//! What makes a class a bean, with its types and its members (Jakarta CDI 4.0, *Beans*), and the single rules of classes and types that beans
//! can break, in a deployment in which all names are known.
#![tactic(auto)]

pub mod abstract_bean;
pub mod bean_classes;
pub mod bean_names;
pub mod bean_types;
pub mod bindings;
pub mod lost_types;
pub mod member_places;
mod mixed_names;
pub mod repeated;
mod shared_names;
pub mod specialization;
pub mod typed;

pub use abstract_bean::AbstractBean;
pub use bean_classes::BeanClasses;
pub use bean_names::BeanNames;
pub use bean_types::{is_bean_type, is_left, is_type_of_class};
pub use bindings::TwoBindingsOfOneType;
pub use lost_types::SpecializedTypeLost;
pub use repeated::{RepeatsSuperclass, repeated_of_superclasses};
pub use specialization::SpecializesNothing;
pub use typed::TypedNotAType;
