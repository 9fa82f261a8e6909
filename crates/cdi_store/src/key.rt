//! What names a live instance.

/// What names a live instance: its number, which no other instance of the store has ever had, and the slot that it
/// lies in. The slot is used again once the instance is freed, the number never.
#[derive(Clone, Copy, Debug, PartialEq, Eq)]
pub struct Key {
    pub slot: usize,
    pub number: u32,
}
