//! The rows of a chunk by their codes.
ghost use Rattle.std.specs.Prelude.{◌≡◌, ◌<◌, ◌≤◌, ◌+◌, ◌^◌, ℕ, true, false, length, replicate, slice_index_or, IfOk};
ghost use Rattle.iq_pieces.specs.Codes.{AreBelow};
ghost use Rattle.iq_lf.specs.Gathered.{AreUsed, AreGathered, rows_at};

use iq_base::NoMemory;
use iq_bitmap::{Bitmap, CHUNK_ROWS};
use std::alloc::Global;

/// Which codes some rows have, and for each of these the rows that have it.
#[derive(Drop)]
pub(crate) struct Gathered {
    pub used: Vec<bool>,
    pub rows: Vec<Bitmap>,
}

/// Gathers the rows of a chunk by their codes, NULL's and those of so many values. The first is row `from` of the chunk. It takes a
/// bitmap of a chunk for each code that is used.
pub(crate) fn gather(
    alloc: Global,
    codes: &[u32],
    from: u32,
    values: usize,
) -> Result<Gathered, NoMemory>
    requires below { AreBelow codes.now (values + 1) }
    requires fits { from + length codes.now ≤ CHUNK_ROWS }
    requires few { values < 2 ^ 32 }
    ensures used { IfOk result (λ g. AreUsed codes.now values g.used.items) }
    ensures long { IfOk result (λ g. length g.rows.items ≡ values + 1) }
    ensures rows { IfOk result (λ g. (c : ℕ) → 1 ≤ c → c ≤ values → slice_index_or g.used.items c false ≡ true → AreGathered codes.now from c (rows_at c g.rows.items)) }
{
    let used = used_codes(alloc, codes, values)?;
    let mut rows = empty_rows(alloc, &used)?;
    for i in 0..codes.len() {
        rows[codes[i] as usize].set(from + i as u32, true);
    }
    Ok(Gathered { used, rows })
}

/// Which codes are used.
fn used_codes(alloc: Global, codes: &[u32], values: usize) -> Result<Vec<bool>, NoMemory>
    requires below { AreBelow codes.now (values + 1) }
    requires few { values < 2 ^ 32 }
    ensures { IfOk result (λ used. AreUsed codes.now values used.items) }
{
    let mut used = vec![in alloc; false; values + 1]?;
    for i in 0..codes.len() {
        used[codes[i] as usize] = true;
    }
    Ok(used)
}

/// A bitmap of a chunk for each code that is used, with no row yet.
fn empty_rows(alloc: Global, used: &[bool]) -> Result<Vec<Bitmap>, NoMemory>
    requires { length used.now < 2 ^ 33 }
    ensures long { IfOk result (λ rows. length rows.items ≡ length used.now) }
    ensures rows { IfOk result (λ rows. (c : ℕ) → slice_index_or used.now c false ≡ true → rows_at c rows.items ≡ replicate CHUNK_ROWS false) }
{
    let mut rows = Vec::with_capacity(alloc, used.len())?;
    for c in 0..used.len() {
        rows.push(Bitmap::empty(alloc, rows_where(used[c]))?)?;
    }
    Ok(rows)
}

/// The rows of a chunk where its code is used, else none.
fn rows_where(used: bool) -> u32
    ensures { used ≡ true → result ≡ CHUNK_ROWS }
{
    if used { CHUNK_ROWS } else { 0 }
}
