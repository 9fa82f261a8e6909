//! The table of a map that is being made.
ghost use Rattle.std.specs.Prelude.{◌≡◌, ◌<◌, ◌≤◌, ◌^◌, ◌==◌, ℕ, length, if◌then◌else◌, slice_index, IfOk, OnOk};
ghost use Rattle.cdi_shared_maps.specs.Maps.{changed};
ghost use Rattle.cdi_shared_maps.specs.Pages.{value_at, IsDraft, KeepsPages};

use crate::change::Change;
use crate::pages::{PAGE_LEN, Pages};
use crate::table::Table;
use std::alloc::AllocError;

/// The number of the page that a table has at an index, which is then the table's own: one below `shared` may be other tables' too,
/// so the table gets a copy in its place.
fn own_page(
    pages: &mut Pages,
    table: &mut Table,
    shared: usize,
    index: usize,
) -> Result<u32, AllocError>
    requires draft { IsDraft pages.old table.old shared }
    requires index { index < 2 ^ 63 }
    ensures draft { OnOk result (IsDraft pages.new table.new shared) }
    ensures page { IfOk result (λ page. page ≡ slice_index table.new index) }
    ensures own { IfOk result (λ page. shared ≤ page) }
    ensures same { OnOk result ((key : ℕ)
        → value_at pages.new table.new key ≡ value_at pages.old table.old key) }
    ensures kept { KeepsPages pages.old pages.new shared }
{
    let page = table.get(index);
    if page as usize >= shared {
        return Ok(page);
    }
    let copy = pages.copy_of(page)?;
    table.put(index, copy)?;
    Ok(copy)
}

/// Gives a key of a table another value.
fn put_change(
    pages: &mut Pages,
    table: &mut Table,
    shared: usize,
    change: Change,
) -> Result<(), AllocError>
    requires { IsDraft pages.old table.old shared }
    ensures draft { OnOk result (IsDraft pages.new table.new shared) }
    ensures values { OnOk result ((key : ℕ) → value_at pages.new table.new key
        ≡ (if change.key == key then change.value else value_at pages.old table.old key)) }
    ensures kept { KeepsPages pages.old pages.new shared }
{
    let page = own_page(pages, table, shared, change.key / PAGE_LEN)?;
    pages.set(page, change.key % PAGE_LEN, change.value);
    Ok(())
}

/// Gives the keys of changes their values in a table. The pages that were there stay as they are, on an error too. Of changes at
/// one key the first counts, so it comes last.
pub(crate) fn put_changes(
    pages: &mut Pages,
    table: &mut Table,
    changes: &[Change],
) -> Result<(), AllocError>
    requires { (i : ℕ) → slice_index table.old i < length pages.old }
    ensures in_range { OnOk result ((i : ℕ) → slice_index table.new i < length pages.new) }
    ensures values { OnOk result ((key : ℕ) → value_at pages.new table.new key
        ≡ changed changes.now (value_at pages.old table.old) key) }
    ensures kept { KeepsPages pages.old pages.new (length pages.old) }
{
    let shared = pages.len();
    for i in (0..changes.len()).rev() {
        put_change(pages, table, shared, changes[i])?;
    }
    Ok(())
}
