//! Whether no value of a column stands twice.
ghost use Rattle.std.specs.Prelude.{◌≡◌, ◌<◌, ◌+◌, ◌^◌, length, IfOk};
ghost use Rattle.iq_numbering.specs.Numbers.{AreDistinct};
ghost use Rattle.iq_fp.specs.Calls.{IsRepeat};

use indexmap::IndexSet;
use iq_base::NoMemory;
use iq_cells::Cells;
use iq_numbering::CellKey;
use std::alloc::Global;

/// The place of the first value that stands before it too. It hashes each value once.
pub(crate) fn first_repeat(alloc: Global, cells: &Cells) -> Result<Option<usize>, NoMemory>
    ensures { IfOk result (IsRepeat cells.now.values) }
{
    let mut keys = IndexSet::with_capacity(alloc, cells.len())?;
    for i in 0..cells.len() {
        let (_, added) = keys.insert_full(CellKey::of(cells.cell(i)))?;
        if !added {
            return Ok(Some(i));
        }
    }
    Ok(None)
}
