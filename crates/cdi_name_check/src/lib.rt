//! Names that stand twice, names that aren't known, and types above themselves: the problems of a deployment that are looked for
//! before all others.
#![tactic(auto)]

pub mod claim;
mod claims;
pub mod cyclic_hierarchy;
pub mod duplicate_name;
pub mod laws;
pub mod problems;
pub mod unknown_name;

pub use claim::Claim;
pub use cyclic_hierarchy::CyclicHierarchy;
pub use duplicate_name::duplicate_places;
pub use problems::name_problems;
pub use unknown_name::declared::DeclaredNames;
pub use unknown_name::name_sets::NameSets;
pub use unknown_name::{UnknownName, are_event_qualifiers, are_qualifiers};
