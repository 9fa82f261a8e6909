//! The elements of a deployment, and what of it has a body, by their places: each hint for a problem asks for what stands at a place.
#![tactic(auto)]

pub mod index;
pub mod rows;

pub use index::PlaceIndex;
pub use rows::PlaceRows;
