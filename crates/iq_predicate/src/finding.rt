//! The rows that one test finds.
ghost use Rattle.std.specs.Prelude.{◌≡◌, ◌≤◌, ◌<◌, ◌+◌, ℕ, length, map, IsSome, IfOk, IfErr};
ghost use Rattle.iq_pages.specs.PageCalls.{view};
ghost use Rattle.iq_pieces.specs.Counts.{OnlyReads};
ghost use Rattle.iq_chunks.specs.Chunks.{chunks_for};
ghost use Rattle.iq_table.specs.Limits.{as_columns};
ghost use Rattle.iq_conditions.specs.Servers.{column_place};
ghost use Rattle.iq_database.specs.Standing.{OfTableAt};
ghost use Rattle.iq_predicate.specs.Found.{is_found, on_test, AreNamed, fp_named};
ghost use Rattle.iq_predicate.specs.Calls.{pages_tested, HasTableCause};

use iq_ast::Test;
use iq_base::{Column, Name};
use iq_bitmap::Bitmap;
use iq_database::column_place;
use iq_fp::Fp;
use iq_pages::{PageFault, PageSource};
use iq_table::{Table, fp_of};
use iq_truth::Side;
use std::alloc::Global;

/// The rows of a table that are there and on a side of a test: of which it is true, or of which it is false. A row of which it is
/// unknown is on neither. The columns are the table's, and those that the test names are among them. It reads each page of existence and
/// of the columns that the test names once, so twice where it compares a column with itself.
pub fn found<S: PageSource>(
    alloc: Global,
    table: &Table,
    columns: &[Column],
    test: &Test,
    side: Side,
    source: &mut S,
) -> Result<Bitmap, PageFault>
    requires place { table.now.place < 64 }
    requires narrow { length table.now.parts.columns ≤ 32 }
    requires columns { columns.now ≡ as_columns table.now.parts.columns }
    requires named { AreNamed columns.now test.now }
    ensures long { IfOk result (λ bits. length bits ≡ table.now.parts.slots) }
    ensures rows { IfOk result (λ bits. OfTableAt (S.told source.old) table.now.place table.now.parts (λ t. bits ≡ map (is_found t.columns side test.now) t.slots)) }
    ensures reads { OnlyReads (chunks_for table.now.parts.slots + pages_tested table.now columns.now test.now) (view S.PageSource source.old) (view S.PageSource source.new) }
    ensures cause { IfErr result (HasTableCause table.now.place table.now.parts (view S.PageSource source.old) (view S.PageSource source.new)) }
{
    let mut bits = tested(alloc, table, columns, test, side, source)?;
    let alive = table.alive(alloc, source)?;
    bits.and_with(&alive);
    Ok(bits)
}

/// The rows on a side of a test, those that were removed too.
fn tested<S: PageSource>(
    alloc: Global,
    table: &Table,
    columns: &[Column],
    test: &Test,
    side: Side,
    source: &mut S,
) -> Result<Bitmap, PageFault>
    requires place { table.now.place < 64 }
    requires narrow { length table.now.parts.columns ≤ 32 }
    requires columns { columns.now ≡ as_columns table.now.parts.columns }
    requires named { AreNamed columns.now test.now }
    ensures long { IfOk result (λ bits. length bits ≡ table.now.parts.slots) }
    ensures rows { IfOk result (λ bits. OfTableAt (S.told source.old) table.now.place table.now.parts (λ t. bits ≡ map (on_test t.columns side test.now) t.slots)) }
    ensures reads { OnlyReads (pages_tested table.now columns.now test.now) (view S.PageSource source.old) (view S.PageSource source.new) }
    ensures cause { IfErr result (HasTableCause table.now.place table.now.parts (view S.PageSource source.old) (view S.PageSource source.new)) }
{
    match test {
        Test::Columns { left, op, right } => {
            let left = column_of(table, columns, left);
            let right = column_of(table, columns, right);
            left.scan_pair(alloc, source, *op, &right, side)
        }
        Test::Compare { column, .. }
        | Test::Between { column, .. }
        | Test::OneOf { column, .. }
        | Test::Null { column, .. } => {
            column_of(table, columns, column).scan(alloc, source, test, side)
        }
    }
}

/// A column of a table, by its name.
fn column_of(table: &Table, columns: &[Column], name: &Name) -> Fp
    requires place { table.now.place < 64 }
    requires narrow { length table.now.parts.columns ≤ 32 }
    requires columns { columns.now ≡ as_columns table.now.parts.columns }
    requires named { IsSome (column_place columns.now name.now) }
    ensures { result ≡ fp_named table.now columns.now name.now }
{
    let Some(place) = column_place(columns, name) else {
        unreachable!()
    };
    fp_of(
        table.place,
        table.parts.slots,
        place,
        &table.parts.columns.as_slice()[place],
    )
}
