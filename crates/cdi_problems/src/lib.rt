//! Problems of a deployment (Jakarta CDI 4.0, *Problems detected automatically by the container*), with their words, and the
//! elements of a deployment at whose places they stand, in the order of these places.
#![tactic(auto)]

pub mod distinct;
pub mod element;
pub mod finding;
pub mod place;
pub mod place_key;
pub mod problem;

pub use distinct::once;
pub use element::{Element, elements_of};
pub use finding::{Rule, places_where};
pub use place::{PlaceText, name_text};
pub use place_key::{PlaceKey, key_of};
pub use problem::{Problem, ProblemKind, ProblemText, add_problems_at, problems_at};
