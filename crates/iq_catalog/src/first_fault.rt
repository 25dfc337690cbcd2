//! Where pages that are no descriptor's first contradict the format.
ghost use Rattle.std.specs.Prelude.{◌≡◌, ◌≤◌, length};
ghost use Rattle.iq_catalog.specs.Pages.{descriptor_bytes};
ghost use Rattle.iq_catalog.specs.FirstFault.{first_failed, head_tests, column_tests, index_tests, columns_tests, indexes_tests, all_tests, same_front, bad_byte, has_count};

use crate::storable::{
    MOST_PARTS, form_for, has_column, has_index, is_kind, is_name, is_ref, is_second,
    most_distinct, slot_limit,
};
use iq_base::{ColumnPart, Descriptor, IndexPart, PAGE_BYTES};

/// A test of a descriptor: the byte of its pages at which it is decided, and whether it holds.
#[derive(Clone, Copy, Debug)]
pub struct Test {
    byte: u32,
    holds: bool,
}

/// Where the first column begins, behind three addresses and the head.
const COLUMNS: u32 = 57;

/// Whether bytes are those of as many pages as their counts of columns and indexes ask for.
pub fn has_count(bytes: &[u8]) -> bool
    ensures { result ≡ has_count bytes.now }
{
    if bytes.len() < 57 {
        return false;
    }
    let text = bytes.split_at(12).1;
    let size = 57 + 55 * text[31] as usize + 62 * text[32] as usize;
    bytes.len() == PAGE_BYTES * size.div_ceil(PAGE_BYTES)
}

/// The first byte that contradicts: of the first test that fails, or the first that isn't as it was written again.
pub fn bad_byte(table: &Descriptor, again: &[u8], bytes: &[u8]) -> u32
    requires columns { length table.now.columns ≤ 255 }
    requires indexes { length table.now.indexes ≤ 255 }
    requires few { length bytes.now ≤ 65536 }
    ensures { result ≡ bad_byte table.now again.now bytes.now }
{
    let same = same_front(bytes, again);
    match failed(table) {
        Some(byte) => byte.min(same),
        None => same,
    }
}

/// How many bytes at the front are as they were written again.
fn same_front(bytes: &[u8], again: &[u8]) -> u32
    requires { length bytes.now ≤ 65536 }
    ensures { result ≡ same_front bytes.now again.now }
{
    for (k, byte) in bytes.iter().enumerate() {
        if again.len() <= k {
            return k as u32;
        }
        if *byte != again[k] {
            return k as u32;
        }
    }
    bytes.len() as u32
}

/// The byte of the first test of a descriptor that fails.
fn failed(table: &Descriptor) -> Option<u32>
    requires columns { length table.now.columns ≤ 255 }
    requires indexes { length table.now.indexes ≤ 255 }
    ensures { result ≡ first_failed (all_tests table.now) }
{
    let columns = table.columns.as_slice();
    if let Some(byte) = first_failed(&head_tests(table)) {
        return Some(byte);
    }
    if let Some(byte) = failed_column(columns) {
        return Some(byte);
    }
    failed_index(columns.len(), table.indexes.as_slice())
}

fn first_failed(tests: &[Test]) -> Option<u32>
    ensures { result ≡ first_failed tests.now }
{
    for test in tests {
        if !test.holds {
            return Some(test.byte);
        }
    }
    None
}

fn head_tests(table: &Descriptor) -> [Test; 5]
    ensures { result ≡ head_tests table.now }
{
    let columns = table.columns.len();
    [
        decided(12, is_name(&table.name)),
        decided(43, 1 <= columns && columns <= MOST_PARTS),
        decided(44, table.indexes.len() <= MOST_PARTS),
        decided(45, table.slots <= slot_limit(table)),
        decided(49, is_ref(table.existence)),
    ]
}

fn decided(byte: u32, holds: bool) -> Test
    ensures byte { result.byte ≡ byte }
    ensures holds { result.holds ≡ holds }
{
    Test { byte, holds }
}

fn column_tests(columns: &[ColumnPart], k: usize, byte: u32, column: &ColumnPart) -> [Test; 6]
    requires among { k ≤ length columns.now }
    requires small { byte ≤ 65536 }
    ensures { result ≡ column_tests columns.now k byte column.now }
{
    let before = columns.split_at(k).0;
    [
        decided(
            byte,
            is_name(&column.name) && !has_column(before, &column.name),
        ),
        decided(byte + 32, is_kind(column.kind)),
        decided(byte + 34, column.form == form_for(column.distinct)),
        decided(byte + 35, column.distinct <= u32::MAX),
        decided(byte + 39, is_ref(column.cells)),
        decided(byte + 47, is_ref(column.values)),
    ]
}

fn index_tests(
    count: usize,
    indexes: &[IndexPart],
    k: usize,
    byte: u32,
    index: &IndexPart,
) -> [Test; 7]
    requires among { k ≤ length indexes.now }
    requires small { byte ≤ 65536 }
    ensures { result ≡ index_tests count indexes.now k byte index.now }
{
    let before = indexes.split_at(k).0;
    let spec = &index.spec;
    [
        decided(byte, is_name(&spec.name) && !has_index(before, &spec.name)),
        decided(byte + 32, (spec.column as usize) < count),
        decided(
            byte + 33,
            is_second(count, spec.column, spec.kind, spec.second),
        ),
        decided(byte + 34, index.distinct <= most_distinct(spec.kind)),
        decided(byte + 38, is_ref(index.first)),
        decided(byte + 46, is_ref(index.second)),
        decided(byte + 54, is_ref(index.third)),
    ]
}

fn failed_column(columns: &[ColumnPart]) -> Option<u32>
    requires { length columns.now ≤ 255 }
    ensures { result ≡ first_failed (columns_tests columns.now 0 columns.now) }
{
    for (k, column) in columns.iter().enumerate() {
        let byte = COLUMNS + 55 * k as u32;
        if let Some(failed) = first_failed(&column_tests(columns, k, byte, column)) {
            return Some(failed);
        }
    }
    None
}

fn failed_index(count: usize, indexes: &[IndexPart]) -> Option<u32>
    requires columns { count ≤ 255 }
    requires indexes { length indexes.now ≤ 255 }
    ensures { result ≡ first_failed (indexes_tests count indexes.now 0 indexes.now) }
{
    for (k, index) in indexes.iter().enumerate() {
        let byte = COLUMNS + 55 * count as u32 + 62 * k as u32;
        if let Some(failed) = first_failed(&index_tests(count, indexes, k, byte, index)) {
            return Some(failed);
        }
    }
    None
}
