//! What any bytes say, read as a descriptor.
ghost use Rattle.std.specs.Prelude.{◌≡◌, ◌≤◌, [], length, IfOk};
ghost use Rattle.iq_catalog.specs.Reading.{text_of, name_of, ref_of, kind_of, index_kind_of, second_of, column_of, index_of, columns_of, indexes_of, descriptor_of};

use crate::bytes::{behind, byte_at, front, number_at};
use iq_base::{
    ColumnPart, Descriptor, IndexKind, IndexPart, IndexSpec, Kind, Listed, Name, NoMemory, Ref,
};
use std::alloc::Global;

/// The descriptor whose text begins some bytes.
#[tactic(auto, unfolding(iq_catalog::specs::Reading::descriptor_of))]
pub fn descriptor_of(alloc: Global, text: &[u8]) -> Result<Descriptor, NoMemory>
    ensures ok { IfOk result (λ table. table ≡ descriptor_of text.now) }
    ensures columns { IfOk result (λ table. length table.columns ≤ 255) }
    ensures indexes { IfOk result (λ table. length table.indexes ≤ 255) }
{
    let columns = byte_at(text, 31) as usize;
    let indexes = byte_at(text, 32) as usize;
    Ok(Descriptor {
        name: name_of(text),
        slots: number_at(text, 33),
        existence: ref_of(text, 37),
        columns: columns_of(alloc, columns, behind(text, 45))?,
        indexes: indexes_of(alloc, indexes, behind(text, 45 + 55 * columns))?,
    })
}

fn columns_of(alloc: Global, count: usize, bytes: &[u8]) -> Result<Listed<ColumnPart>, NoMemory>
    ensures ok { IfOk result (λ columns. columns ≡ columns_of count bytes.now) }
    ensures count { IfOk result (λ columns. length columns ≡ count) }
{
    let mut columns = Listed::new(alloc);
    let mut rest = bytes;
    for _ in 0..count {
        columns.push(column_of(rest))?;
        rest = behind(rest, 55);
    }
    Ok(columns)
}

fn indexes_of(alloc: Global, count: usize, bytes: &[u8]) -> Result<Listed<IndexPart>, NoMemory>
    ensures ok { IfOk result (λ indexes. indexes ≡ indexes_of count bytes.now) }
    ensures count { IfOk result (λ indexes. length indexes ≡ count) }
{
    let mut indexes = Listed::new(alloc);
    let mut rest = bytes;
    for _ in 0..count {
        indexes.push(index_of(rest))?;
        rest = behind(rest, 62);
    }
    Ok(indexes)
}

#[tactic(auto, unfolding(iq_catalog::specs::Reading::column_of))]
fn column_of(bytes: &[u8]) -> ColumnPart
    ensures { result ≡ column_of bytes.now }
{
    ColumnPart {
        name: name_of(bytes),
        kind: kind_of(byte_at(bytes, 31), byte_at(bytes, 32)),
        null: byte_at(bytes, 33) == 1,
        form: byte_at(bytes, 34),
        distinct: number_at(bytes, 35),
        cells: ref_of(bytes, 39),
        values: ref_of(bytes, 47),
    }
}

#[tactic(auto, unfolding(iq_catalog::specs::Reading::index_of))]
fn index_of(bytes: &[u8]) -> IndexPart
    ensures { result ≡ index_of bytes.now }
{
    IndexPart {
        spec: IndexSpec {
            name: name_of(bytes),
            kind: index_kind_of(byte_at(bytes, 31)),
            column: byte_at(bytes, 32),
            second: second_of(byte_at(bytes, 33)),
        },
        distinct: number_at(bytes, 34),
        first: ref_of(bytes, 38),
        second: ref_of(bytes, 46),
        third: ref_of(bytes, 54),
    }
}

#[tactic(auto, unfolding(iq_catalog::specs::Reading::ref_of))]
fn ref_of(bytes: &[u8], i: usize) -> Ref
    requires { i ≤ 1020 }
    ensures { result ≡ ref_of bytes.now i }
{
    Ref {
        root: number_at(bytes, i),
        pages: number_at(bytes, i + 4),
    }
}

/// The kind of values of a number; its texts have at most so many bytes.
fn kind_of(code: u8, length: u8) -> Kind
    ensures { result ≡ kind_of code length }
{
    if code == 1 {
        Kind::Int
    } else if code == 2 {
        Kind::Big
    } else {
        Kind::Varchar(length)
    }
}

/// The kind of indexes of a number.
fn index_kind_of(code: u8) -> IndexKind
    ensures { result ≡ index_kind_of code }
{
    if code == 1 {
        IndexKind::Lf
    } else if code == 2 {
        IndexKind::Hg
    } else if code == 3 {
        IndexKind::Hng
    } else {
        IndexKind::Cmp
    }
}

/// The second column of a number.
fn second_of(code: u8) -> Option<u8>
    ensures { result ≡ second_of code }
{
    if code == 255 { None } else { Some(code) }
}

#[tactic(auto, unfolding(iq_catalog::specs::Reading::name_of))]
fn name_of(bytes: &[u8]) -> Name
    ensures { result ≡ name_of bytes.now }
{
    let size = byte_at(bytes, 0) as usize;
    if size <= 30 {
        text_of(front(behind(bytes, 1), size))
    } else {
        no_name()
    }
}

fn text_of(bytes: &[u8]) -> Name
    requires { length bytes.now ≤ 30 }
    ensures { result ≡ text_of bytes.now }
{
    match str::from_utf8(bytes) {
        Ok(text) => match Name::of(text) {
            Some(name) => name,
            None => unreachable!(),
        },
        Err(_) => no_name(),
    }
}

/// The name without bytes.
pub fn no_name() -> Name
    ensures { result ≡ [] }
{
    match Name::of("") {
        Some(name) => name,
        None => unreachable!(),
    }
}
