//! Plans and observers in the words of an instance's life, made once: bodies by their numbers, with what each injection point resolves to. Steps at
//! which nothing runs are left out (Jakarta CDI 4.0, *Lifecycle of managed beans*, *Lifecycle of producer methods*, *Typesafe
//! resolution*).
#![tactic(auto)]

pub mod codes;
pub mod fields;
pub mod injections;
mod members;
pub mod methods;
pub mod numbering;
pub mod numbers;
pub mod observers;
pub mod points;
pub mod product;
pub mod steps;

pub use codes::{codes_of, lifecycle_of};
pub use fields::first_values;
pub use injections::injections_by;
pub use methods::named_methods;
pub use numbering::Numbering;
pub use numbers::{numbers_product, observers_have_numbers};
pub use observers::observers_by;
pub use points::{resolution_at, resolutions_at};
pub use product::numbered_product;
pub use steps::{has_none, is_idle, steps_of};
