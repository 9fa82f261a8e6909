//! The names that the elements of a deployment and the steps of its scripts use, and those of them that aren't declared in the groups
//! that they have to be of (Jakarta CDI 4.0, *Problems detected automatically by the container*).
#![tactic(auto)]

mod declared;
pub mod group;
pub mod known;
pub mod name_use;
pub mod step_name;
pub mod unknown;
pub mod unknown_step_name;

pub use group::{Annotation, Group, group_names};
pub use known::known_names;
pub use name_use::{NameUse, uses_of};
pub use step_name::{ScriptNames, StepGroup, StepName};
pub use unknown::{unknown_among, unknown_names};
pub use unknown_step_name::first_unknown;
