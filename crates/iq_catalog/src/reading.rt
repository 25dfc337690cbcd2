//! Pages as a descriptor.
ghost use Rattle.std.specs.Prelude.{◌≡◌, ◌≤◌, ◌+◌, ◌*◌, ◌/◌, [], length, slice_index, IfOk, IfErr};
ghost use Rattle.iq_catalog.specs.Pages.{joined, HasPages};
ghost use Rattle.iq_catalog.specs.Storable.{IsStorable};
ghost use Rattle.iq_catalog.specs.Faults.{HasNoTable};
ghost use Rattle.iq_catalog.specs.Reading.{text_size, text_of, name_of, ref_of, column_of, index_of, columns_of, indexes_of, descriptor_of};
ghost use Rattle.iq_catalog.specs.FirstFault.{bad_byte, NamesPage};
ghost use Rattle.iq_catalog.specs.declared.faults.CatalogFault.TheVariants.{BadCatalog};
ghost use Rattle.iq_base.specs.declared.descriptors.Descriptor.{Descriptor};

use crate::CatalogFault;
use crate::codes::{MOST_NAME, index_kind_of, kind_of, number_at, second_of};
use crate::first_fault::{bad_byte, has_count};
use crate::pages::join;
use crate::storable::is_storable;
use crate::writing::descriptor_bytes;
use iq_base::{ColumnPart, Descriptor, IndexPart, IndexSpec, Listed, Name, NoMemory, Page, Ref};
use std::alloc::Global;

/// How many bytes stand before the text: three addresses.
const BEFORE: usize = 12;

/// How many bytes of a text stand before its columns.
const HEAD: usize = 45;

/// How many bytes a column has.
const COLUMN: usize = 55;

/// How many bytes an index has.
const INDEX: usize = 62;

/// The descriptor whose pages these are, with 0 for the three addresses at the front. Pages that no storable descriptor has are
/// BadCatalog, with the page that has the first byte that contradicts the format, and 0 where they aren't as many as they count
/// themselves. It takes the bytes three times, and reads each a few times.
pub fn get(alloc: Global, pages: &[Page]) -> Result<Descriptor, CatalogFault>
    ensures ok { IfOk result (λ table. IsStorable table) }
    ensures pages { IfOk result (λ table. HasPages table pages.now) }
    ensures only { IfOk result (λ table. (t : Descriptor) → IsStorable t
        → HasPages t pages.now → t ≡ table) }
    ensures err { IfErr result (λ e. HasNoTable e pages.now) }
    ensures page { IfErr result (λ e. NamesPage e (joined pages.now)) }
{
    let all = join(alloc, pages)?;
    let bytes = all.as_slice();
    if !has_count(bytes) {
        return Err(CatalogFault::BadCatalog { page: 0 });
    }
    let table = descriptor_of(alloc, bytes.split_at(BEFORE).1)?;
    let again = descriptor_bytes(alloc, &table)?;
    let written = again.as_slice();
    if !is_storable(&table) {
        return Err(contradiction(&table, written, bytes));
    }
    if written == bytes {
        Ok(table)
    } else {
        Err(contradiction(&table, written, bytes))
    }
}

/// The fault of bytes that aren't a storable table's as they are written again.
fn contradiction(table: &Descriptor, again: &[u8], bytes: &[u8]) -> CatalogFault
    requires columns { length table.now.columns ≤ 255 }
    requires indexes { length table.now.indexes ≤ 255 }
    requires few { length bytes.now ≤ 65536 }
    ensures { result ≡ BadCatalog (bad_byte table.now again.now bytes.now / 1008) }
{
    CatalogFault::BadCatalog {
        page: bad_byte(table, again, bytes) / 1_008,
    }
}

/// What bytes say, read as a text.
#[tactic(auto, unfolding(crate::specs::Reading::descriptor_of))]
fn descriptor_of(alloc: Global, text: &[u8]) -> Result<Descriptor, NoMemory>
    requires { text_size (slice_index text.now 31) (slice_index text.now 32) ≤ length text.now }
    ensures ok { IfOk result (λ table. table ≡ descriptor_of text.now) }
    ensures columns { IfOk result (λ table. length table.columns ≤ 255) }
    ensures indexes { IfOk result (λ table. length table.indexes ≤ 255) }
{
    let columns = text[31] as usize;
    let indexes = text[32] as usize;
    Ok(Descriptor {
        name: name_of(text),
        slots: number_at(text, 33),
        existence: ref_of(text, 37),
        columns: columns_of(alloc, columns, text.split_at(HEAD).1)?,
        indexes: indexes_of(alloc, indexes, text.split_at(HEAD + COLUMN * columns).1)?,
    })
}

fn columns_of(alloc: Global, count: usize, bytes: &[u8]) -> Result<Listed<ColumnPart>, NoMemory>
    requires { 55 * count ≤ length bytes.now }
    ensures ok { IfOk result (λ columns. columns ≡ columns_of count bytes.now) }
    ensures count { IfOk result (λ columns. length columns ≡ count) }
{
    let mut columns = Listed::new(alloc);
    let mut rest = bytes;
    for _ in 0..count {
        columns.push(column_of(rest))?;
        rest = rest.split_at(COLUMN).1;
    }
    Ok(columns)
}

fn indexes_of(alloc: Global, count: usize, bytes: &[u8]) -> Result<Listed<IndexPart>, NoMemory>
    requires { 62 * count ≤ length bytes.now }
    ensures ok { IfOk result (λ indexes. indexes ≡ indexes_of count bytes.now) }
    ensures count { IfOk result (λ indexes. length indexes ≡ count) }
{
    let mut indexes = Listed::new(alloc);
    let mut rest = bytes;
    for _ in 0..count {
        indexes.push(index_of(rest))?;
        rest = rest.split_at(INDEX).1;
    }
    Ok(indexes)
}

#[tactic(auto, unfolding(crate::specs::Reading::column_of))]
fn column_of(bytes: &[u8]) -> ColumnPart
    requires { 55 ≤ length bytes.now }
    ensures { result ≡ column_of bytes.now }
{
    ColumnPart {
        name: name_of(bytes),
        kind: kind_of(bytes[31], bytes[32]),
        null: bytes[33] == 1,
        form: bytes[34],
        distinct: number_at(bytes, 35),
        cells: ref_of(bytes, 39),
        values: ref_of(bytes, 47),
    }
}

#[tactic(auto, unfolding(crate::specs::Reading::index_of))]
fn index_of(bytes: &[u8]) -> IndexPart
    requires { 62 ≤ length bytes.now }
    ensures { result ≡ index_of bytes.now }
{
    IndexPart {
        spec: IndexSpec {
            name: name_of(bytes),
            kind: index_kind_of(bytes[31]),
            column: bytes[32],
            second: second_of(bytes[33]),
        },
        distinct: number_at(bytes, 34),
        first: ref_of(bytes, 38),
        second: ref_of(bytes, 46),
        third: ref_of(bytes, 54),
    }
}

#[tactic(auto, unfolding(crate::specs::Reading::ref_of))]
fn ref_of(bytes: &[u8], i: usize) -> Ref
    requires { i + 8 ≤ length bytes.now }
    ensures { result ≡ ref_of bytes.now i }
{
    Ref {
        root: number_at(bytes, i),
        pages: number_at(bytes, i + 4),
    }
}

#[tactic(auto, unfolding(crate::specs::Reading::name_of))]
fn name_of(bytes: &[u8]) -> Name
    requires { 31 ≤ length bytes.now }
    ensures { result ≡ name_of bytes.now }
{
    let size = bytes[0] as usize;
    if size <= MOST_NAME {
        text_of(bytes.split_at(1).1.split_at(size).0)
    } else {
        no_name()
    }
}

fn text_of(bytes: &[u8]) -> Name
    requires { length bytes.now ≤ 30 }
    ensures { result ≡ text_of bytes.now }
{
    match str::from_utf8(bytes) {
        Ok(text) => match Name::of(text) {
            Some(name) => name,
            None => unreachable!(),
        },
        Err(_) => no_name(),
    }
}

fn no_name() -> Name
    ensures { result ≡ [] }
{
    match Name::of("") {
        Some(name) => name,
        None => unreachable!(),
    }
}
