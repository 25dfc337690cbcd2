//! Places of a column that hold values.
ghost use Rattle.std.specs.Prelude.{◌≡◌, ◌≢◌, ◌<◌, length};
ghost use Rattle.iq_cells.specs.Packed.{value_at};
ghost use Rattle.iq_base.specs.declared.values.Value.{Value};
ghost use Rattle.iq_base.specs.declared.values.Value.TheVariants as values;

use iq_cells::Cells;

/// A place of a column that holds a value, and the row that has it: 16 bytes, whatever the kind.
#[derive(Drop)]
pub(crate) struct Spot<'a> {
    pub(crate) cells: &'a Cells,
    pub(crate) place: u32,
    pub(crate) row: u32,
    ghost there: { place < length cells.now.values },
    ghost filled: { value_at place cells.now.values ≢ values.Null },
}

impl<'a> Spot<'a> {
    /// A place whose value isn't NULL.
    pub(crate) fn of(cells: &'a Cells, place: u32, row: u32) -> Spot<'a>
        requires there { place < length cells.now.values }
        requires filled { value_at place cells.now.values ≢ values.Null }
        ensures cells { result.cells.now ≡ cells.now }
        ensures place { result.place ≡ place }
        ensures row { result.row ≡ row }
    {
        Spot { cells, place, row }
    }
}
