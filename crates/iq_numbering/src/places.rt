//! Numbering the values of a column.
ghost use Rattle.std.specs.Prelude.{◌≡◌, ◌<◌, ◌≤◌, ◌+◌, ◌^◌, length, map, IfOk};
ghost use Rattle.iq_base.specs.Cells.{width};
ghost use Rattle.iq_cells.specs.Packed.{value_at};
ghost use Rattle.iq_numbering.specs.Numbers.{AreDistinct, HasNumbered, HasKeys, NumbersNext};

use crate::cell_key::CellKey;
use crate::key::Key;
use crate::number_key::NumberKey;
use indexmap::IndexSet;
use iq_base::{Kind, NoMemory};
use iq_cells::Cells;
use std::alloc::Global;

/// What a numbering gives: the code of each value, in the order of the values, and how many distinct values weren't known. The
/// first of these has as its code how many were known, and `new_values` gives them.
#[derive(Debug, Drop)]
pub struct Numbered {
    pub codes: Vec<u32>,
    pub new: usize,
}

/// Numbers the values of a column by their place among those that are known, no value twice, and the others behind them in
/// order of first appearance. NULL is a value as any other. It hashes each value once, and takes 4 bytes a value for the codes
/// and, until it ends, a key for each distinct value: 8 bytes of a number, 16 of a text, and 8 and more of the index.
pub fn number(alloc: Global, known: &Cells, cells: &Cells) -> Result<Numbered, NoMemory>
    requires kind { known.now.kind ≡ cells.now.kind }
    requires distinct { AreDistinct known.now.values }
    requires few { length known.now.values + length cells.now.values < 2 ^ 32 }
    ensures few { IfOk result (λ r. r.new ≤ length cells.now.values) }
    ensures ok { IfOk result (λ r. HasNumbered known.now.values cells.now.values r.new r.codes.items) }
{
    match cells.kind() {
        Kind::Int => number_by::<NumberKey<5>>(alloc, known, cells),
        Kind::Big => number_by::<NumberKey<9>>(alloc, known, cells),
        Kind::Varchar(_) => number_by::<CellKey>(alloc, known, cells),
    }
}

/// Numbers the values of a column by keys of one type.
fn number_by<'a, K: Key<'a> + Drop>(
    alloc: Global,
    known: &'a Cells,
    cells: &'a Cells,
) -> Result<Numbered, NoMemory>
    requires kind { known.now.kind ≡ cells.now.kind }
    requires distinct { AreDistinct known.now.values }
    requires few { length known.now.values + length cells.now.values < 2 ^ 32 }
    requires takes { K.takes (width cells.now.kind) }
    ensures few { IfOk result (λ r. r.new ≤ length cells.now.values) }
    ensures ok { IfOk result (λ r. HasNumbered known.now.values cells.now.values r.new r.codes.items) }
{
    let mut codes = Vec::with_capacity(alloc, cells.len())?;
    let mut keys = keys_of::<K>(alloc, known, cells.len())?;
    for i in 0..cells.len() {
        codes.push(code_of(&mut keys, cells, i)?)?;
    }
    let new = keys.len() - known.len();
    Ok(Numbered { codes, new })
}

/// The keys of distinct values, in their order, with room for some more.
fn keys_of<'a, K: Key<'a> + Drop>(
    alloc: Global,
    known: &'a Cells,
    more: usize,
) -> Result<IndexSet<K>, NoMemory>
    requires distinct { AreDistinct known.now.values }
    requires few { length known.now.values + more < 2 ^ 32 }
    requires takes { K.takes (width known.now.kind) }
    ensures { IfOk result (λ keys. HasKeys known.now.kind known.now.values (map K.bytes keys.keys)) }
{
    let mut keys = IndexSet::with_capacity(alloc, known.len() + more)?;
    for i in 0..known.len() {
        keys.insert(K::of(known.cell(i)))?;
    }
    Ok(keys)
}

/// The code of one value, which comes behind all where it is among none.
fn code_of<'a, K: Key<'a> + Drop>(
    keys: &mut IndexSet<K>,
    cells: &'a Cells,
    i: usize,
) -> Result<u32, NoMemory>
    requires within { i < length cells.now.values }
    requires few { length keys.old.keys < 2 ^ 32 }
    requires takes { K.takes (width cells.now.kind) }
    ensures { let value = value_at i cells.now.values in
        IfOk result (NumbersNext cells.now.kind value (map K.bytes keys.old.keys) (map K.bytes keys.new.keys)) }
{
    let (code, _) = keys.insert_full(K::of(cells.cell(i)))?;
    Ok(code as u32)
}
