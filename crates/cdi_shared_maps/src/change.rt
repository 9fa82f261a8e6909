//! A change to a map.

/// What a new map has at a key, in place of what its origin has there: a value, or none.
#[derive(Clone, Copy, Debug, PartialEq, Eq)]
pub struct Change {
    pub key: usize,
    pub value: Option<u32>,
}
