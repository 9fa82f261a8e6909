//! The business methods of many classes by their names (Jakarta CDI 4.0, *Container invocations and interception*).
//!
//! Each class has a map, which begins as that of its superclass (*Inheritance of member-level metadata*). A method is kept once,
//! also if many classes inherit it: the maps tell its place, and share all that is the same in them.
#![tactic(auto)]

mod kept_methods;
mod method_maps;
mod named_method;

pub use method_maps::MethodMaps;
pub use named_method::NamedMethod;
