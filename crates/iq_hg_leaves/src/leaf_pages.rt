//! Leaves as bytes.
//!
//! | bytes | meaning |
//! |---|---|
//! | 0 to 3 | how many entries there are |
//! | 4 to 7 | the page of the next leaf, plus 1; 0 at the last |
//! | 8 on | the entries, each the cell of its value and its row |
//! | then | zero |
ghost use Rattle.std.specs.Prelude.{◌≡◌, ◌≢◌, ◌<◌, ◌≤◌, ◌+◌, ◌-◌, ◌++◌, ℕ, List, length, drop, take, replicate, ◌↔◌, IsTrue, OnOk, IfOk, IfSome, IfNone};
ghost use Rattle.std.specs.List.{All};
ghost use Rattle.std.specs.Int.{w32, to_le_bytes};
ghost use Rattle.iq_base.specs.Cells.{width};
ghost use Rattle.iq_base.specs.declared.values.Value.{Value};
ghost use Rattle.iq_base.specs.declared.values.Value.TheVariants as values;
ghost use Rattle.iq_hg_leaves.specs.Entries.{IsEntry, entry_at};
ghost use Rattle.iq_hg_leaves.specs.Bytes.{most_in_leaf, entry_bytes, entries_bytes, leaf_head, BeginsAsLeaf, IsLeaf};
ghost use Rattle.iq_hg_leaves.specs.declared.entries.Entry.{Entry};

use crate::entries::{Entries, Entry};
use byteorder::{ByteOrder, LittleEndian};
use iq_base::{Kind, NoMemory, PAGE_BYTES, Page, Value, cell_get, width};
use std::alloc::Global;

/// Puts the bytes of an entry behind others.
pub fn put_entry(bytes: &mut Vec<u8>, entries: &Entries, i: usize) -> Result<(), NoMemory>
    requires { i < length entries.now.entries }
    ensures { OnOk result (bytes.new.items ≡ bytes.old.items ++ entry_bytes entries.now.kind (entry_at i entries.now.entries)) }
{
    bytes.extend_from_slice(entries.cells().cell(i))?;
    bytes.extend_from_slice(&entries.row(i).to_le_bytes())?;
    Ok(())
}

/// A page that begins with these bytes, and has zeros behind them.
pub fn page_of(bytes: &[u8]) -> Page
    requires { length bytes.now ≤ 1008 }
    ensures { result ≡ bytes.now ++ replicate (1008 - length bytes.now) 0 }
{
    let mut page = [0; PAGE_BYTES];
    let (front, _) = page.split_at_mut(bytes.len());
    front.copy_from_slice(bytes);
    page
}

/// The bytes of a leaf with `n` entries of a list, from one on.
fn leaf_bytes(
    alloc: Global,
    entries: &Entries,
    from: usize,
    n: usize,
    next: u32,
) -> Result<Vec<u8>, NoMemory>
    requires there { from + n ≤ length entries.now.entries }
    requires fits { n ≤ most_in_leaf entries.now.kind }
    ensures { IfOk result (λ bytes. bytes.items ≡ leaf_head n next ++ entries_bytes entries.now.kind (take n (drop from entries.now.entries))) }
{
    let _all = entries.len();
    let mut bytes = Vec::with_capacity(alloc, PAGE_BYTES)?;
    bytes.extend_from_slice(&(n as u32).to_le_bytes())?;
    bytes.extend_from_slice(&next.to_le_bytes())?;
    for i in 0..n {
        put_entry(&mut bytes, entries, from + i)?;
    }
    Ok(bytes)
}

/// The page of a leaf with `n` entries of a list, from one on. It takes memory for a page.
pub fn leaf_page(
    alloc: Global,
    entries: &Entries,
    from: usize,
    n: usize,
    next: u32,
) -> Result<Page, NoMemory>
    requires there { from + n ≤ length entries.now.entries }
    requires fits { n ≤ most_in_leaf entries.now.kind }
    ensures { IfOk result (λ page. IsLeaf entries.now.kind page next (take n (drop from entries.now.entries))) }
{
    let _all = entries.len();
    let bytes = leaf_bytes(alloc, entries, from, n, next)?;
    Ok(page_of(&bytes))
}

/// What a page of a leaf holds.
#[derive(Debug, Drop)]
pub struct LeafPage {
    /// The page of the next leaf, plus 1, or 0.
    pub next: u32,
    pub entries: Entries,
}

/// A number of 32 bits in a page, lowest byte first.
pub fn number_at(page: &Page, at: usize) -> u32
    requires { at + 4 ≤ 1008 }
    ensures { to_le_bytes w32 result ≡ take 4 (drop at page.now) }
{
    LittleEndian::read_u32(&page[at..at + 4])
}

/// Reads an entry, where the bytes are one.
pub fn read_entry(kind: Kind, page: &Page, at: usize) -> Option<Entry>
    requires { at + (width kind + 4) ≤ 1008 }
    ensures entry { IfSome result (λ entry. IsEntry kind entry) }
    ensures bytes { IfSome result (λ entry. take (width kind + 4) (drop at page.now) ≡ entry_bytes kind entry) }
    ensures bad { IfNone result ((entry : Entry) → IsEntry kind entry → take (width kind + 4) (drop at page.now) ≢ entry_bytes kind entry) }
{
    let cell = width(kind);
    let row = number_at(page, at + cell);
    let Ok(value) = cell_get(kind, &page[at..at + cell]) else {
        return None;
    };
    if is_null(&value) {
        return None;
    }
    Some(Entry { value, row })
}

fn is_null(value: &Value) -> bool
    ensures { IsTrue result ↔ (value.now ≡ values.Null) }
{
    matches!(value, Value::Null)
}

/// Reads a leaf, or answers nothing where the page doesn't begin as one. The bytes behind its entries may be any. It takes memory for
/// the entries.
pub fn read_leaf(alloc: Global, kind: Kind, page: &Page) -> Result<Option<LeafPage>, NoMemory>
    ensures leaf { IfOk result (λ read. IfSome read (λ leaf. BeginsAsLeaf kind page.now leaf.next leaf.entries.entries)) }
    ensures kind { IfOk result (λ read. IfSome read (λ leaf. leaf.entries.kind ≡ kind)) }
    ensures bad { IfOk result (λ read. IfNone read ((next : ℕ) (entries : List Entry) → ¬ (BeginsAsLeaf kind page.now next entries))) }
{
    let count = number_at(page, 0) as usize;
    let next = number_at(page, 4);
    let wide = width(kind) + 4;
    if count > 1000 / wide {
        return Ok(None);
    }
    let mut entries = Entries::with_room(alloc, kind, count)?;
    for i in 0..count {
        match read_entry(kind, page, 8 + i * wide) {
            Some(entry) => entries.push(&entry)?,
            None => return Ok(None),
        }
    }
    Ok(Some(LeafPage { next, entries }))
}
