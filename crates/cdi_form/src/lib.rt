//! What is read from JSON: the value that bytes are, and names, values and uses; and the form of a deployment: which keys its objects have
//! and what stands at each, and the first place at which a value is not of the form.
#![tactic(auto)]

pub mod form;
pub mod json_reading;
pub mod keys;
pub mod laws;
pub mod names;
pub mod numbers;
pub mod shape;
pub mod table;
pub mod value_forms;
pub mod words;

pub use form::{Kind, Part, part_at};
pub use json_reading::{is_word, read_json};
pub use names::first_bad_name;
pub use numbers::numbers_fit;
pub use shape::wrong;
pub use value_forms::{Form, each, is_use, is_value, list_of};
