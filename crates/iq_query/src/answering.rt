//! What a query answers.
ghost use Rattle.std.specs.Prelude.{◌≡◌, ◌<◌, ◌≤◌, ◌⊎◌, ◌+◌, ℕ, length, map, pos, [], ◌∷◌, Some, None, IfOk, OnOk, IfErr, true, false};
ghost use Rattle.std.specs.List.{filter_map};
ghost use Rattle.std.specs.Option.{option_copied};
ghost use Rattle.iq_history.specs.Placed.{IsPlacedRefusal};
ghost use Rattle.iq_pages.specs.PageCalls.{view};
ghost use Rattle.iq_pieces.specs.Counts.{OnlyReads};
ghost use Rattle.iq_chunks.specs.Chunks.{chunks_for};
ghost use Rattle.iq_table.specs.Calls.{pages_of_columns};
ghost use Rattle.iq_table.specs.Limits.{as_columns};
ghost use Rattle.iq_table.specs.Table.{values_at};
ghost use Rattle.iq_statements.specs.Checks.{first_refusal};
ghost use Rattle.iq_statements.specs.Named.{item_column, select_checks, query_checks};
ghost use Rattle.iq_statements.specs.Tables.{Table as PlainTable, content};
ghost use Rattle.iq_statements.specs.Answers.{answer, answer_at};
ghost use Rattle.iq_model.specs.Outs.{outs_of};
ghost use Rattle.iq_database.specs.Standing.{Describes, OfDescribed, OfStanding, OfTableAt, AreTables};
ghost use Rattle.iq_query.specs.Simple.{IsSimple};
ghost use Rattle.iq_predicate.specs.Calls.{HasTableCause};
ghost use Rattle.iq_query.specs.Calls.{AreWithin, AreTested, places_of, pages_at, pages_of_test, pages_needed, test_in, test_refusal, chosen, is_chosen, IsUnread, HasQueryCause, page_refusal, counts_rows, counted_rows};

use crate::columns::places;
use iq_ast::{Cond, Item, Select, Test};
use iq_base::{Column, Descriptor, Listed, NoMemory, Refusal};
use iq_bitmap::Bitmap;
use iq_database::{columns_of, copied, place_of};
use iq_model::{Answer, AnswerRows, Out};
use iq_pages::{PageFault, PageSource};
use iq_predicate::{found, unfit, unnamed};
use iq_table::Table;
use iq_truth::Side;
use std::alloc::Global;

/// What a query answers over tables whose pages the source tells, or what refuses it. Each page that it needs is read once.
pub fn select<S: PageSource>(
    alloc: Global,
    tables: &[Descriptor],
    statement: &Select,
    source: &mut S,
) -> Result<Answer, Refusal>
    requires tables { AreTables tables.now }
    requires simple { IsSimple statement.now }
    ensures granted { OnOk result (OfDescribed tables.now (λ db. first_refusal (query_checks statement.now db) ≡ None)) }
    ensures answer { IfOk result (λ told. OfStanding (S.told source.old) tables.now (λ db. told ≡ answer statement.now db)) }
    ensures reads { OnlyReads (pages_needed tables.now statement.now) (view S.PageSource source.old) (view S.PageSource source.new) }
    ensures placed { IfErr result (λ e. (n : ℕ) → IsPlacedRefusal n e) }
    ensures cause { IfErr result (HasQueryCause tables.now statement.now (view S.PageSource source.old) (view S.PageSource source.new)) }
{
    match place_of(tables, &statement.table) {
        None => Err(Refusal::NoTable {
            name: statement.table.again(),
        }),
        Some(place) => answer_of(alloc, place as u32, &tables[place], statement, source),
    }
}

/// What a query answers over the table at a place.
fn answer_of<S: PageSource>(
    alloc: Global,
    place: u32,
    table: &Descriptor,
    statement: &Select,
    source: &mut S,
) -> Result<Answer, Refusal>
    requires place { place < 64 }
    requires narrow { length table.now.columns ≤ 32 }
    requires simple { IsSimple statement.now }
    ensures granted { OnOk result ((t : PlainTable) → Describes table.now t → first_refusal (select_checks statement.now t) ≡ None) }
    ensures answer { IfOk result (λ told. OfTableAt (S.told source.old) place table.now (λ t. told ≡ answer_at (Some t) statement.now)) }
    ensures reads { OnlyReads (pages_at statement.now place (Some table.now)) (view S.PageSource source.old) (view S.PageSource source.new) }
    ensures placed { IfErr result (λ e. (n : ℕ) → IsPlacedRefusal n e) }
    ensures cause { IfErr result (λ cause. ((t : PlainTable) → Describes table.now t → first_refusal (select_checks statement.now t) ≡ Some cause)
        ⊎ IsUnread place table.now (view S.PageSource source.old) (view S.PageSource source.new) cause ⊎ (cause ≡ Refusal.NoMemory)) }
{
    let columns = columns_of(alloc, table)?;
    let places = places(alloc, columns.as_slice(), statement.items.as_slice())?;
    let test = test_in(&statement.cond);
    admit(columns.as_slice(), test)?;
    let table = Table {
        place,
        parts: copied(alloc, table)?,
    };
    match rows_of(
        alloc,
        &table,
        columns.as_slice(),
        statement.items.as_slice(),
        places.as_slice(),
        test,
        source,
    ) {
        Ok(rows) => Ok(Answer::Rows(rows)),
        Err(fault) => Err(refusal_of(fault)),
    }
}

/// The rows that are there, or those of them for which a test is true.
fn chosen_rows<S: PageSource>(
    alloc: Global,
    table: &Table,
    columns: &[Column],
    test: Option<&Test>,
    source: &mut S,
) -> Result<Bitmap, PageFault>
    requires place { table.now.place < 64 }
    requires narrow { length table.now.parts.columns ≤ 32 }
    requires columns { columns.now ≡ as_columns table.now.parts.columns }
    requires named { AreTested columns.now (option_copied test) }
    ensures long { IfOk result (λ bits. length bits ≡ table.now.parts.slots) }
    ensures rows { IfOk result (λ bits. OfTableAt (S.told source.old) table.now.place table.now.parts (λ t. bits ≡ map (is_chosen t.columns (option_copied test.entry)) t.slots)) }
    ensures reads { OnlyReads (chunks_for table.now.parts.slots + pages_of_test table.now columns.now (option_copied test.entry)) (view S.PageSource source.old) (view S.PageSource source.new) }
    ensures cause { IfErr result (HasTableCause table.now.place table.now.parts (view S.PageSource source.old) (view S.PageSource source.new)) }
{
    match test {
        None => table.alive(alloc, source),
        Some(test) => found(alloc, table, columns, test, Side::True, source),
    }
}

/// The rows of an answer: the values of some columns in the rows that are there and of which a test is true, or how many these are.
fn rows_of<S: PageSource>(
    alloc: Global,
    table: &Table,
    columns: &[Column],
    items: &[Item],
    places: &[usize],
    test: Option<&Test>,
    source: &mut S,
) -> Result<AnswerRows, PageFault>
    requires place { table.now.place < 64 }
    requires narrow { length table.now.parts.columns ≤ 32 }
    requires columns { columns.now ≡ as_columns table.now.parts.columns }
    requires named { AreTested columns.now (option_copied test) }
    requires within { AreWithin (length table.now.parts.columns) places.now }
    ensures counted { counts_rows items.now ≡ true → IfOk result (λ rows. OfTableAt (S.told source.old) table.now.place table.now.parts (λ t. rows ≡ counted_rows (chosen (option_copied test.entry) t))) }
    ensures listed { counts_rows items.now ≡ false → IfOk result (λ rows. OfTableAt (S.told source.old) table.now.place table.now.parts (λ t. rows ≡ map outs_of (map (values_at places.now) (chosen (option_copied test.entry) t)))) }
    ensures reads { OnlyReads (chunks_for table.now.parts.slots + pages_of_test table.now columns.now (option_copied test.entry) + pages_of_columns table.now places.now) (view S.PageSource source.old) (view S.PageSource source.new) }
    ensures cause { IfErr result (HasTableCause table.now.place table.now.parts (view S.PageSource source.old) (view S.PageSource source.new)) }
{
    let rows = chosen_rows(alloc, table, columns, test, source)?;
    match items {
        [Item::CountAll] => Ok(counted(alloc, rows.count())?),
        _ => Ok(AnswerRows::of_columns(table.rows_of(alloc, source, &rows, places)?)),
    }
}

/// The one test of a condition, if there is one.
fn test_in(cond: &Option<Cond>) -> Option<&Test>
    ensures { option_copied result ≡ test_in cond.now }
{
    match cond {
        Some(Cond::Test(test)) => Some(test),
        Some(Cond::Not(_) | Cond::And(_) | Cond::Or(_)) | None => None,
    }
}

/// Tests whether a test can be made of a table with these columns.
fn admit(columns: &[Column], test: Option<&Test>) -> Result<(), Refusal>
    ensures named { OnOk result (AreTested columns.now (option_copied test.entry)) }
    ensures granted { OnOk result (test_refusal columns.now (option_copied test.entry) ≡ None) }
    ensures placed { IfErr result (λ e. (n : ℕ) → IsPlacedRefusal n e) }
    ensures cause { IfErr result (λ e. test_refusal columns.now (option_copied test.entry) ≡ Some e) }
{
    let Some(test) = test else {
        return Ok(());
    };
    if let Some(refusal) = unnamed(columns, test) {
        return Err(refusal);
    }
    match unfit(columns, test) {
        None => Ok(()),
        Some(refusal) => Err(refusal),
    }
}

/// One row with one number.
fn counted(alloc: Global, count: u32) -> Result<AnswerRows, NoMemory>
    ensures { IfOk result (λ rows. rows ≡ (Out.Int (pos count) ∷ []) ∷ []) }
{
    let mut row = Listed::new(alloc);
    row.push(Out::Int(i128::from(count)))?;
    let mut rows = Listed::new(alloc);
    rows.push(row)?;
    Ok(AnswerRows::of_values(rows))
}

/// A fault of pages as a line is refused.
fn refusal_of(fault: PageFault) -> Refusal
    ensures is { result ≡ page_refusal fault }
    ensures placed { (n : ℕ) → IsPlacedRefusal n result }
{
    match fault {
        PageFault::Failed { before, after } => Refusal::StoreFault { before, after },
        PageFault::BadPage { object, page } => Refusal::BadPage { object, page },
        PageFault::NoMemory => Refusal::NoMemory,
    }
}
