//! Maps that share their pages.
ghost use Rattle.std.specs.Prelude.{◌≡◌, ◌+◌, ◌<◌, [], ℕ, IfOk, OnOk, OnErr};
ghost use Rattle.cdi_shared_maps.specs.Maps.{count, value_in, value_from, changed};
ghost use Rattle.cdi_shared_maps.specs.Pages.{table_of};

use crate::change::Change;
use crate::draft::put_changes;
use crate::pages::{PAGE_LEN, Pages};
use crate::table::Table;
use std::alloc::{AllocError, Global};
use std::marker::Model;

/// Maps from small numbers, their keys, to numbers. A map has a number, the first one 0, and is made from an earlier one by a few
/// changes. Both share what is the same in them, by pages of 32 keys: a map costs four bytes for each 32 keys up to its largest
/// one, and a page for each one that its changes touch. Contracts see the list of the maps, each as the list of its values by their
/// keys.
#[derive(Drop)]
pub struct SharedMaps {
    pages: Pages,
    tables: Vec<Table>,
}

impl Model for SharedMaps {
    ghost use Rattle.std.specs.Prelude.{ℕ, List, Option, map};
    ghost use Rattle.cdi_shared_maps.specs.Pages.{values_of, AreTables};

    ghost Value = { List (List (Option ℕ)) };

    ghost view = { λ m. map (values_of m.pages) m.tables.items };

    ghost invariant = { λ m. AreTables m.pages m.tables.items };
}

/// A copy of the table of a map; an empty one if there is no such map.
fn table_from(alloc: Global, tables: &[Table], origin: Option<usize>) -> Result<Table, AllocError>
    ensures { IfOk result (λ table. table ≡ table_of tables.now origin) }
{
    let Some(map) = origin else {
        return Ok(Table::empty(alloc));
    };
    match tables.get(map) {
        Some(table) => table.copy(alloc),
        None => Ok(Table::empty(alloc)),
    }
}

impl SharedMaps {
    /// No maps.
    pub fn new(alloc: Global) -> Result<SharedMaps, AllocError>
        ensures { IfOk result (λ maps. count maps ≡ 0) }
    {
        Ok(SharedMaps {
            pages: Pages::new(alloc)?,
            tables: Vec::new(alloc),
        })
    }

    /// How many maps there are.
    pub fn len(&self) -> usize
        ensures { result ≡ count self.now }
    {
        self.tables.len()
    }

    /// The value at a key of a map, by the map's number, in constant time; none if there is no such map.
    pub fn get(&self, map: usize, key: usize) -> Option<u32>
        ensures { result ≡ value_in self.now map key }
    {
        let table = self.tables.get(map)?;
        self.pages.get(table.get(key / PAGE_LEN), key % PAGE_LEN)
    }

    /// Adds a map that has what its origin has, but for these changes. Its number, which is given back, is that of the maps before.
    /// An origin that is not there counts as one that has nothing, and of changes at one key the first counts. It takes a step for
    /// each 32 keys up to the largest one, 32 for each page that the changes touch, and one for each change. The error is that
    /// there is no memory, and then no map is added or changed.
    pub fn add(
        &mut self,
        alloc: Global,
        origin: Option<usize>,
        changes: &[Change],
    ) -> Result<usize, AllocError>
        ensures number { IfOk result (λ map. map ≡ count self.old) }
        ensures added { OnOk result (count self.new ≡ 1 + count self.old) }
        ensures values { IfOk result (λ map. (key : ℕ) → value_in self.new map key
            ≡ changed changes.now (value_from self.old origin) key) }
        ensures kept { (map key : ℕ) → map < count self.old
            → value_in self.new map key ≡ value_in self.old map key }
        ensures err { OnErr result (count self.new ≡ count self.old) }
    {
        let number = self.tables.len();
        let mut table = table_from(alloc, self.tables.as_slice(), origin)?;
        put_changes(&mut self.pages, &mut table, changes)?;
        self.tables.push(table)?;
        Ok(number)
    }
}
