//! A table: its place and its descriptor.
ghost use Rattle.std.specs.Prelude.{◌≡◌, ◌≢◌, false, ◌<◌, ◌≤◌, ◌+◌, ◌*◌, ℕ, [], length, map, IsTrue, OnOk, IfOk, IfErr};
ghost use Rattle.iq_pages.specs.PageCalls.{view};
ghost use Rattle.iq_pages.specs.Pages.{CountsMore};
ghost use Rattle.iq_base.specs.Cells.{width};
ghost use Rattle.iq_table.specs.Places.{new_part, no_ref, part_at, part_kinds};
ghost use Rattle.iq_table.specs.Table.{TableStands};
ghost use Rattle.iq_table.specs.Calls.{new_parts, IsUnused, TellsObjects, KeepsOtherTables, HasMakeCause};

use crate::places::existence_of;
use iq_base::{Column, ColumnPart, Descriptor, Listed, Name, NoMemory, Ref, width};
use iq_cells::Rows;
use iq_pages::{PageFault, PageSink};
use std::alloc::Global;

/// A table: its place among the tables, from 0, and what is kept of it beside its pages. Its objects have the numbers from
/// 256 times its place on: of the rows that are there, then of codes and values of each column. The references and the indexes of
/// the descriptor aren't looked at.
#[derive(Debug, Drop)]
pub struct Table {
    pub place: u32,
    pub parts: Descriptor,
}

impl Table {
    /// A table without rows.
    pub fn new(alloc: Global, place: u32, name: Name, columns: &[Column]) -> Result<Table, NoMemory>
        ensures table { IfOk result (λ table. table ≡ record { place = place; parts = new_parts name columns.now }) }
        ensures unused { IfOk result (λ table. IsUnused table.parts) }
    {
        let mut parts = Vec::with_capacity(alloc, columns.len())?;
        for column in columns {
            parts.push(new_part(column))?;
        }
        Ok(Table {
            place,
            parts: Descriptor {
                name,
                slots: 0,
                existence: no_ref(),
                columns: Listed::from_vec(parts),
                indexes: Listed::new(alloc),
            },
        })
    }

    /// Whether rows may be put behind those of the table: their columns hold what the table's hold.
    pub fn takes(&self, rows: &Rows) -> bool
        ensures yes { IsTrue result → rows.now.kinds ≡ part_kinds self.now.parts.columns }
        ensures no { result ≡ false → rows.now.kinds ≢ part_kinds self.now.parts.columns }
    {
        have_kinds(self.parts.columns.as_slice(), rows)
    }

    /// Makes the objects of a table without rows. It writes no page.
    pub fn create<S: PageSink>(&self, sink: &mut S) -> Result<(), PageFault>
        requires place { self.now.place < 64 }
        requires few { length self.now.parts.columns ≤ 32 }
        requires unused { IsUnused self.now.parts }
        ensures ok { OnOk result (TellsObjects (S.told sink.old) self.now → TableStands (S.told sink.new) self.now.place self.now.parts [] []) }
        ensures others { KeepsOtherTables self.now.place (view S.PageSource sink.old) (view S.PageSource sink.new) }
        ensures reads { S.reads sink.new ≡ S.reads sink.old }
        ensures written { OnOk result (CountsMore 0 (S.writes sink.old) (S.writes sink.new)) }
        ensures later { S.faults sink.old ≤ S.faults sink.new }
        ensures cause { IfErr result (HasMakeCause self.now (view S.PageSource sink.old) (view S.PageSource sink.new)) }
    {
        cells_fit_pages(self.parts.columns.as_slice());
        let first = existence_of(self.place);
        let behind = first + 1 + 2 * self.parts.columns.len() as u32;
        for object in first..behind {
            sink.new_object(object)?;
        }
        Ok(())
    }
}

/// Whether columns of rows hold what columns of a table hold.
fn have_kinds(parts: &[ColumnPart], rows: &Rows) -> bool
    ensures yes { IsTrue result → rows.now.kinds ≡ part_kinds parts.now }
    ensures no { result ≡ false → rows.now.kinds ≢ part_kinds parts.now }
{
    if rows.width() != parts.len() {
        return false;
    }
    for c in 0..parts.len() {
        if rows.column(c).kind() != parts[c].kind {
            return false;
        }
    }
    true
}

/// An object without pages.
fn no_ref() -> Ref
    ensures { result ≡ no_ref }
{
    Ref { root: 0, pages: 0 }
}

/// A column of a table without rows.
fn new_part(column: &Column) -> ColumnPart
    ensures { result ≡ new_part column.now }
{
    ColumnPart {
        name: column.name.again(),
        kind: column.kind,
        null: column.null,
        form: 1,
        distinct: 0,
        cells: no_ref(),
        values: no_ref(),
    }
}

/// Nothing: no cell is longer than a page, which each kind tells.
pub(crate) fn cells_fit_pages(parts: &[ColumnPart])
    ensures { (c : ℕ) → c < length parts.now → (1 ≤ width (part_at c parts.now).kind) × (width (part_at c parts.now).kind ≤ 257) }
{
    for part in parts {
        let _width = width(part.kind);
    }
}
