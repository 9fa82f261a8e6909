//! Many maps from small numbers to numbers, each made from an earlier one by a few changes, which share all that they don't change.
//!
//! A map has a page for each 32 keys in a row. A new map begins with the pages of its origin, and only those that its changes touch
//! are copied. So a map costs four bytes for each 32 keys up to its largest one, and a page for each page that its changes touch.
#![tactic(auto)]

mod change;
mod draft;
mod pages;
mod shared_maps;
mod table;

pub use change::Change;
pub use shared_maps::SharedMaps;
