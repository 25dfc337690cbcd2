//! How many pages the objects of a table have for its slots.
ghost use Rattle.std.specs.Prelude.{◌≡◌, ◌<◌};
ghost use Rattle.iq_catalog.specs.Sizes.{pages_for, chunks, cells_a_page, codes_a_page, column_fits, low_fast_fits, high_group_fits, high_non_group_fits, same_kind, compare_fits, kind_in, second_kind, parts_fit, index_fits_in, index_fits, columns_fit, indexes_fit, fits_slots};
ghost use Rattle.std.specs.Option.{option_copied};

use iq_base::{ColumnPart, Descriptor, IndexKind, IndexPart, Kind, PAGE_BYTES, width};

/// How many rows have their bits in one page.
const CHUNK: u64 = 8_064;

/// How many numbers of 4 bytes a page has.
const NUMBERS: u64 = 252;

/// Whether each object of a table has the pages that its slots and distinct values ask for, where they tell how many: not the
/// bitmaps of an LF index, nor the leaves of an HG one. It takes no memory.
pub fn fits_slots(table: &Descriptor) -> bool
    ensures { result ≡ fits_slots table.now }
{
    let columns = table.columns.as_slice();
    u64::from(table.existence.pages) == chunks(table.slots)
        && columns_fit(table.slots, columns)
        && indexes_fit(table.slots, columns, table.indexes.as_slice())
}

fn pages_for(items: u64, room: u64) -> u64
    requires room { 0 < room }
    requires small { room < 65536 }
    requires few { items < 281474976710656 }
    ensures { result ≡ pages_for items room }
{
    (items + (room - 1)) / room
}

fn chunks(slots: u32) -> u64
    ensures value { result ≡ chunks slots }
    ensures few { result < 1048576 }
{
    pages_for(u64::from(slots), CHUNK)
}

fn cells_a_page(kind: Kind) -> u64
    ensures value { result ≡ cells_a_page kind }
    ensures some { 0 < result }
    ensures few { result < 65536 }
{
    (PAGE_BYTES / width(kind)) as u64
}

fn codes_a_page(form: u8) -> u64
    ensures value { result ≡ codes_a_page form }
    ensures some { 0 < result }
    ensures few { result < 65536 }
{
    if form == 1 {
        1008
    } else if form == 2 {
        504
    } else {
        336
    }
}

fn column_fits(slots: u32, column: &ColumnPart) -> bool
    ensures { result ≡ column_fits slots column.now }
{
    u64::from(column.cells.pages) == pages_for(u64::from(slots), codes_a_page(column.form))
        && u64::from(column.values.pages)
            == pages_for(u64::from(column.distinct), cells_a_page(column.kind))
}

fn low_fast_fits(kind: Kind, index: &IndexPart) -> bool
    ensures { result ≡ low_fast_fits kind index.now }
{
    let values = u64::from(index.distinct);
    u64::from(index.first.pages) == pages_for(values, cells_a_page(kind))
        && u64::from(index.second.pages) == pages_for(33 * values, NUMBERS)
}

fn high_group_fits(kind: Kind, index: &IndexPart) -> bool
    ensures { result ≡ high_group_fits kind index.now }
{
    let entries = (1004 / (width(kind) + 8)) as u64;
    u64::from(index.second.pages) == pages_for(u64::from(index.first.pages), entries)
        && index.third.pages == 0
}

fn high_non_group_fits(slots: u32, kind: Kind, index: &IndexPart) -> bool
    ensures { result ≡ high_non_group_fits slots kind index.now }
{
    match kind {
        Kind::Int => {
            u64::from(index.first.pages) == 33 * chunks(slots)
                && index.second.pages == 0
                && index.third.pages == 0
        }
        Kind::Big => {
            u64::from(index.first.pages) == 65 * chunks(slots)
                && index.second.pages == 0
                && index.third.pages == 0
        }
        Kind::Varchar(_) => false,
    }
}

fn same_kind(first: Kind, second: Kind) -> bool
    ensures { result ≡ same_kind first second }
{
    match (first, second) {
        (Kind::Int, Kind::Int) | (Kind::Big, Kind::Big) => true,
        (Kind::Varchar(m), Kind::Varchar(n)) => m == n,
        (Kind::Int, Kind::Big | Kind::Varchar(_)) => false,
        (Kind::Big, Kind::Int | Kind::Varchar(_)) => false,
        (Kind::Varchar(_), Kind::Int | Kind::Big) => false,
    }
}

fn compare_fits(slots: u32, kind: Kind, second: Option<Kind>, index: &IndexPart) -> bool
    ensures { result ≡ compare_fits slots kind second index.now }
{
    match second {
        None => false,
        Some(second) => {
            same_kind(kind, second)
                && u64::from(index.first.pages) == 3 * chunks(slots)
                && index.second.pages == 0
                && index.third.pages == 0
        }
    }
}

fn kind_in(column: Option<&ColumnPart>) -> Option<Kind>
    ensures { result ≡ kind_in (option_copied column.entry) }
{
    match column {
        None => None,
        Some(column) => Some(column.kind),
    }
}

fn second_kind(columns: &[ColumnPart], second: Option<u8>) -> Option<Kind>
    ensures { result ≡ second_kind columns.now second }
{
    match second {
        None => None,
        Some(k) => kind_in(columns.get(k as usize)),
    }
}

fn parts_fit(slots: u32, kind: Kind, second: Option<Kind>, index: &IndexPart) -> bool
    ensures { result ≡ parts_fit slots index.now.spec.kind kind second index.now }
{
    match index.spec.kind {
        IndexKind::Lf => low_fast_fits(kind, index),
        IndexKind::Hg => high_group_fits(kind, index),
        IndexKind::Hng => high_non_group_fits(slots, kind, index),
        IndexKind::Cmp => compare_fits(slots, kind, second, index),
    }
}

fn index_fits(slots: u32, columns: &[ColumnPart], index: &IndexPart) -> bool
    ensures { result ≡ index_fits slots columns.now index.now }
{
    match kind_in(columns.get(index.spec.column as usize)) {
        None => false,
        Some(kind) => parts_fit(slots, kind, second_kind(columns, index.spec.second), index),
    }
}

fn columns_fit(slots: u32, columns: &[ColumnPart]) -> bool
    ensures { result ≡ columns_fit slots columns.now }
{
    for column in columns {
        if !column_fits(slots, column) {
            return false;
        }
    }
    true
}

fn indexes_fit(slots: u32, columns: &[ColumnPart], indexes: &[IndexPart]) -> bool
    ensures { result ≡ indexes_fit slots columns.now indexes.now }
{
    for index in indexes {
        if !index_fits(slots, columns, index) {
            return false;
        }
    }
    true
}
