//! The table of the pages of a map.
ghost use Rattle.std.specs.Prelude.{◌≡◌, ◌==◌, ◌<◌, ◌^◌, [], ℕ, if◌then◌else◌, slice_index, IfOk, OnOk, OnErr};

use std::alloc::{AllocError, Global};
use std::marker::Model;

/// The number of the page of each 32 keys in a row. Contracts see the list of the numbers. Behind its end each is 0.
#[derive(Drop)]
pub(crate) struct Table {
    numbers: Vec<u32>,
}

impl Model for Table {
    ghost use Rattle.std.specs.Prelude.{ℕ, List};

    ghost Value = { List ℕ };

    ghost view = { λ t. t.numbers.items };
}

impl Table {
    /// No pages.
    pub(crate) fn empty(alloc: Global) -> Table
        ensures { result ≡ [] }
    {
        Table {
            numbers: Vec::new(alloc),
        }
    }

    /// A copy.
    pub(crate) fn copy(&self, alloc: Global) -> Result<Table, AllocError>
        ensures { IfOk result (λ table. table ≡ self.now) }
    {
        Ok(Table {
            numbers: Vec::from_slice(alloc, self.numbers.as_slice())?,
        })
    }

    /// The number of a page.
    pub(crate) fn get(&self, index: usize) -> u32
        ensures { result ≡ slice_index self.now index }
    {
        self.numbers.get(index).copied().unwrap_or(0)
    }

    /// Gives a page another number, and makes the table longer if it has to be. Where there is no memory, nothing changes.
    pub(crate) fn put(&mut self, index: usize, number: u32) -> Result<(), AllocError>
        requires { index < 2 ^ 63 }
        ensures ok { OnOk result ((i : ℕ) → slice_index self.new i
            ≡ (if i == index then number else slice_index self.old i)) }
        ensures err { OnErr result (self.new ≡ self.old) }
    {
        if self.numbers.len() <= index {
            self.numbers.resize(index + 1, 0)?;
        }
        self.numbers[index] = number;
        Ok(())
    }
}
