//! Scripts: bodies that are written in a deployment.
#![tactic(auto)]

pub mod expression;
mod expression_form;
pub mod fault;
mod form;
pub mod laws;
pub mod next;
mod part;
mod places;
mod qualifier;
mod reading;
pub mod script;
pub mod shape;
pub mod step;
pub mod value;
mod via;

pub use expression::Expression;
pub use fault::ScriptFault;
pub use form::{are_steps, caught, is_step};
pub use part::PartKind;
pub use script::{MAX_STEPS, Script};
pub use step::{Action, Step, StepKind};
