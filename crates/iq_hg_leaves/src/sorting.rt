//! Putting the values of a column in order.
ghost use Rattle.std.specs.Prelude.{◌≡◌, ◌<◌, ◌^◌, ◌+◌, length, map, IfOk};
ghost use Rattle.std.specs.List.{All};
ghost use Rattle.std.specs.List.Sorted.{IsPermutation};
ghost use Rattle.iq_hg_leaves.specs.Entries.{entries_from};
ghost use Rattle.iq_hg_leaves.specs.Order.{AreInOrder, entry_cmp};
ghost use Rattle.iq_hg_leaves.specs.Spots.{entry_of, AreSpotsOf};

use crate::entries::{Entries, rows_then};
use crate::spots::Spot;
use iq_base::NoMemory;
use iq_cells::Cells;
use std::alloc::Global;
use std::cmp::Ordering;

/// The entries of the values of a column that aren't NULL, in order; the first value is that of row `first`. It takes memory for
/// the entries, and for 16 bytes for each of them, twice while it sorts.
pub fn sorted(alloc: Global, cells: &Cells, first: u32) -> Result<Entries, NoMemory>
    requires { first + length cells.now.values < 2 ^ 32 }
    ensures kind { IfOk result (λ list. list.kind ≡ cells.now.kind) }
    ensures all { IfOk result (λ list. IsPermutation (entries_from first cells.now.values) list.entries) }
    ensures in_order { IfOk result (λ list. AreInOrder list.entries) }
{
    let mut spots = spots_of(alloc, cells, first)?;
    spots.sort_by(|a, b| spot_order(a, b))?;
    listed(alloc, cells, &spots)
}

/// The places of a column whose value isn't NULL.
fn spots_of<'a>(alloc: Global, cells: &'a Cells, first: u32) -> Result<Vec<Spot<'a>>, NoMemory>
    requires { first + length cells.now.values < 2 ^ 32 }
    ensures { IfOk result (λ spots. AreSpotsOf cells.now first spots.items) }
{
    let mut spots = Vec::with_capacity(alloc, cells.len())?;
    for i in 0..cells.len() {
        if cells.is_null(i) {
            continue;
        }
        spots.push(Spot::of(cells, i as u32, first + i as u32))?;
    }
    Ok(spots)
}

/// How two values stand to each other; equal ones stand by their rows.
fn spot_order(a: &Spot<'_>, b: &Spot<'_>) -> Ordering
    ensures { result ≡ entry_cmp (entry_of a.now) (entry_of b.now) }
{
    rows_then(
        a.cells.compare(a.place as usize, b.cells, b.place as usize),
        a.row,
        b.row,
    )
}

/// The entries of places of one column, in their order.
fn listed(alloc: Global, cells: &Cells, spots: &[Spot<'_>]) -> Result<Entries, NoMemory>
    requires few { length spots.now < 2 ^ 32 }
    requires same { All (λ spot. spot.cells.now.kind ≡ cells.now.kind) spots.now }
    ensures { IfOk result (λ list. list ≡ record { kind = cells.now.kind; entries = map entry_of spots.now }) }
{
    let mut list = Entries::with_room(alloc, cells.kind(), spots.len())?;
    for spot in spots {
        list.push_cell(spot.cells, spot.place as usize, spot.row)?;
    }
    Ok(list)
}
