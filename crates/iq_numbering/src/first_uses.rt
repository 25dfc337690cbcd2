//! The values of a column that a numbering found to be new.
ghost use Rattle.std.specs.Prelude.{◌≡◌, ◌<◌, ◌≤◌, ◌+◌, ◌^◌, length, IfOk};
ghost use Rattle.iq_numbering.specs.Numbers.{AreNew};

use iq_base::NoMemory;
use iq_cells::Cells;
use std::alloc::Global;

/// The distinct values of a column that weren't known when its values were numbered, in the order of their codes; there are `new`
/// of them, behind so many that were known. It takes memory for so many cells, and needs no index: a value is new where its code is
/// greater than those of all values before it.
pub fn new_values(
    alloc: Global,
    known: usize,
    new: usize,
    cells: &Cells,
    codes: &[u32],
) -> Result<Cells, NoMemory>
    requires long { length codes.now ≡ length cells.now.values }
    requires few { known + length cells.now.values < 2 ^ 32 }
    requires room { new < 2 ^ 32 }
    ensures kind { IfOk result (λ found. found.kind ≡ cells.now.kind) }
    ensures ok { IfOk result (λ found. AreNew known cells.now.values codes.now found.values) }
{
    let mut found = Cells::with_room(alloc, cells.kind(), new)?;
    for i in 0..cells.len() {
        if codes[i] as usize == known + found.len() {
            found.push_from(cells, i)?;
        }
    }
    Ok(found)
}
