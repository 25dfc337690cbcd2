//! Which descriptors may be stored.
ghost use Rattle.std.specs.Prelude.{◌≡◌, ◌↔◌, ◌&&◌, length, IsTrue};
ghost use Rattle.iq_catalog.specs.Storable.{is_ascii, is_name, is_ref, is_kind, form_for, is_column, is_second, most_distinct, is_index, are_columns, are_indexes, is_among, are_distinct, column_names, index_names, longest_text, is_low_fast, has_low_fast, slot_limit, IsStorable};

use iq_base::{
    ColumnPart, Descriptor, IndexKind, IndexPart, Kind, MOST_PAGES, Name, Ref, rows_within,
    text_length,
};

/// The most columns of a table, and the most indexes.
pub const MOST_PARTS: usize = 32;

/// The most distinct values of an LF index.
const MOST_DISTINCT: u32 = 1_000;

/// Whether a descriptor may be stored. It takes no memory, and compares each two names of columns and each two of indexes.
pub fn is_storable(table: &Descriptor) -> bool
    ensures { IsTrue result ↔ IsStorable table.now }
{
    let columns = table.columns.as_slice();
    let indexes = table.indexes.as_slice();
    is_name(&table.name)
        && table.slots <= slot_limit(table)
        && is_ref(table.existence)
        && 1 <= columns.len()
        && columns.len() <= MOST_PARTS
        && indexes.len() <= MOST_PARTS
        && are_columns(columns)
        && are_indexes(columns.len(), indexes)
        && differ_in_columns(columns)
        && differ_in_indexes(indexes)
}

/// How many slots a table may have, by its longest text and by whether it has a Low Fast index.
pub fn slot_limit(table: &Descriptor) -> u32
    ensures { result ≡ slot_limit table.now }
{
    rows_within(
        longest_text(table.columns.as_slice()),
        has_low_fast(table.indexes.as_slice()),
    )
}

fn longest_text(columns: &[ColumnPart]) -> u8
    ensures { result ≡ longest_text columns.now }
{
    let mut most = 0;
    for column in columns {
        most = most.max(text_length(column.kind));
    }
    most
}

fn is_low_fast(kind: IndexKind) -> bool
    ensures { result ≡ is_low_fast kind }
{
    match kind {
        IndexKind::Lf => true,
        IndexKind::Hg | IndexKind::Hng | IndexKind::Cmp => false,
    }
}

fn has_low_fast(indexes: &[IndexPart]) -> bool
    ensures { result ≡ has_low_fast indexes.now }
{
    for index in indexes {
        if is_low_fast(index.spec.kind) {
            return true;
        }
    }
    false
}

fn is_ascii(bytes: &[u8]) -> bool
    ensures { result ≡ is_ascii bytes.now }
{
    for byte in bytes {
        if *byte >= 128 {
            return false;
        }
    }
    true
}

pub fn is_name(name: &Name) -> bool
    ensures { result ≡ is_name name.now }
{
    let bytes = name.as_str().as_bytes();
    1 <= bytes.len() && bytes.len() <= 30 && is_ascii(bytes)
}

pub fn is_ref(object: Ref) -> bool
    ensures { result ≡ is_ref object }
{
    object.pages <= MOST_PAGES
        && object.root <= u32::MAX
        && if object.pages == 0 {
            object.root == 0
        } else {
            0 < object.root
        }
}

pub fn is_kind(kind: Kind) -> bool
    ensures { result ≡ is_kind kind }
{
    match kind {
        Kind::Int | Kind::Big => true,
        Kind::Varchar(length) => 1 <= length && length <= u8::MAX,
    }
}

pub fn form_for(distinct: u32) -> u8
    ensures { result ≡ form_for distinct }
{
    if distinct <= 256 {
        1
    } else if distinct <= 65_536 {
        2
    } else {
        3
    }
}

fn is_column(column: &ColumnPart) -> bool
    ensures { result ≡ is_column column.now }
{
    is_name(&column.name)
        && is_kind(column.kind)
        && column.form == form_for(column.distinct)
        && column.distinct <= u32::MAX
        && is_ref(column.cells)
        && is_ref(column.values)
}

pub fn is_second(count: usize, column: u8, kind: IndexKind, second: Option<u8>) -> bool
    ensures { result ≡ is_second count column kind second }
{
    match (kind, second) {
        (IndexKind::Lf | IndexKind::Hg | IndexKind::Hng, None) => true,
        (IndexKind::Lf | IndexKind::Hg | IndexKind::Hng, Some(_)) => false,
        (IndexKind::Cmp, None) => false,
        (IndexKind::Cmp, Some(second)) => (second as usize) < count && second != column,
    }
}

pub fn most_distinct(kind: IndexKind) -> u32
    ensures { result ≡ most_distinct kind }
{
    match kind {
        IndexKind::Lf => MOST_DISTINCT,
        IndexKind::Hg | IndexKind::Hng | IndexKind::Cmp => 0,
    }
}

fn is_index(count: usize, index: &IndexPart) -> bool
    ensures { result ≡ is_index count index.now }
{
    is_name(&index.spec.name)
        && (index.spec.column as usize) < count
        && is_second(count, index.spec.column, index.spec.kind, index.spec.second)
        && index.distinct <= most_distinct(index.spec.kind)
        && is_ref(index.first)
        && is_ref(index.second)
        && is_ref(index.third)
}

fn are_columns(columns: &[ColumnPart]) -> bool
    ensures { result ≡ are_columns columns.now }
{
    for column in columns {
        if !is_column(column) {
            return false;
        }
    }
    true
}

fn are_indexes(count: usize, indexes: &[IndexPart]) -> bool
    ensures { result ≡ are_indexes count indexes.now }
{
    for index in indexes {
        if !is_index(count, index) {
            return false;
        }
    }
    true
}

pub fn has_column(columns: &[ColumnPart], name: &Name) -> bool
    ensures { result ≡ is_among (column_names columns.now) name.now }
{
    for column in columns {
        if column.name == *name {
            return true;
        }
    }
    false
}

pub fn has_index(indexes: &[IndexPart], name: &Name) -> bool
    ensures { result ≡ is_among (index_names indexes.now) name.now }
{
    for index in indexes {
        if index.spec.name == *name {
            return true;
        }
    }
    false
}

fn differ_in_columns(columns: &[ColumnPart]) -> bool
    ensures { result ≡ are_distinct (column_names columns.now) }
{
    for (k, column) in columns.iter().enumerate() {
        if has_column(columns.split_at(k + 1).1, &column.name) {
            return false;
        }
    }
    true
}

fn differ_in_indexes(indexes: &[IndexPart]) -> bool
    ensures { result ≡ are_distinct (index_names indexes.now) }
{
    for (k, index) in indexes.iter().enumerate() {
        if has_index(indexes.split_at(k + 1).1, &index.spec.name) {
            return false;
        }
    }
    true
}
