//! The tables of a store, as blocks in memory have them.
ghost use Rattle.std.specs.Prelude.{◌≡◌, ◌≤◌, ◌++◌, length, nat_eq, IfOk, OnOk};
ghost use Rattle.std.specs.List.{list_all};
ghost use Rattle.iq_catalog.specs.Pages.{joined};
ghost use Rattle.iq_descriptors.specs.Parts.{other_page, pages_at, table_at, more_of, are_packed, may_be_stored, is_descriptor};
ghost use Rattle.iq_descriptors.specs.Stored.{comes_behind};
ghost use Rattle.iq_opening.specs.Tables.{coded, may_stand, is_table};
ghost use Rattle.iq_outside.specs.Devices.{block_of};

use crate::bytes::{behind, block_of, number_at, numbers_at};
use crate::texts::descriptor_of;
use iq_base::{Descriptor, Name, NoMemory, Page};
use iq_catalog::{fits_slots, is_storable, put};
use iq_outside::Block;
use std::alloc::Global;
use std::cmp::Ordering;

/// Puts the page in another block of a descriptor at the end, if there is one.
#[tactic(auto, unfolding(iq_block_store::specs::Frames::payload_of))]
fn push_other(out: &mut Vec<u8>, blocks: &[Block], at: u32) -> Result<(), NoMemory>
    ensures { OnOk result (out.new.items ≡ out.old.items ++ joined (other_page blocks.now at)) }
{
    if at == 0 {
        return Ok(());
    }
    out.extend_from_slice(behind(block_of(blocks, at), 16))?;
    Ok(())
}

/// The bytes of the pages of the descriptor whose head is in this block.
fn pages_at(alloc: Global, blocks: &[Block], head: u32) -> Result<Vec<u8>, NoMemory>
    ensures { IfOk result (λ bytes. bytes.items ≡ joined (pages_at blocks.now head)) }
{
    let block = block_of(blocks, head);
    let mut out = Vec::new(alloc);
    out.extend_from_slice(&[0; 12])?;
    out.extend_from_slice(behind(block, 28))?;
    push_other(&mut out, blocks, number_at(block, 16))?;
    push_other(&mut out, blocks, number_at(block, 20))?;
    push_other(&mut out, blocks, number_at(block, 24))?;
    Ok(out)
}

/// The table whose descriptor has its head in this block.
#[tactic(auto, unfolding(iq_descriptors::specs::Parts::table_at, iq_descriptors::specs::Parts::said_by))]
pub fn table_at(alloc: Global, blocks: &[Block], head: u32) -> Result<Descriptor, NoMemory>
    ensures ok { IfOk result (λ table. table ≡ table_at blocks.now head) }
    ensures columns { IfOk result (λ table. length table.columns ≤ 255) }
    ensures indexes { IfOk result (λ table. length table.indexes ≤ 255) }
{
    let bytes = pages_at(alloc, blocks, head)?;
    descriptor_of(alloc, behind(bytes.as_slice(), 12))
}

/// Pages as bytes.
fn joined(alloc: Global, pages: &[Page]) -> Result<Vec<u8>, NoMemory>
    ensures { IfOk result (λ bytes. bytes.items ≡ joined pages.now) }
{
    let mut bytes = Vec::new(alloc);
    for page in pages {
        bytes.extend_from_slice(page)?;
    }
    Ok(bytes)
}

fn may_be_stored(table: &Descriptor) -> bool
    ensures { result ≡ may_be_stored table.now }
{
    is_storable(table)
}

/// Whether the pages of a head are those of a descriptor that may be stored.
#[tactic(auto, unfolding(iq_descriptors::specs::Parts::table_at))]
fn is_descriptor(alloc: Global, blocks: &[Block], head: u32) -> Result<bool, NoMemory>
    ensures { IfOk result (λ right. right ≡ is_descriptor (pages_at blocks.now head)) }
{
    let table = table_at(alloc, blocks, head)?;
    if !may_be_stored(&table) {
        return Ok(false);
    }
    let pages = put(alloc, &table)?;
    let written = joined(alloc, pages.as_slice())?;
    let bytes = pages_at(alloc, blocks, head)?;
    Ok(bytes.as_slice() == written.as_slice())
}

/// Whether all numbers are zero.
pub fn is_zero(numbers: &[u32]) -> bool
    ensures { result ≡ list_all (nat_eq 0) numbers.now }
{
    numbers.iter().all(|n| 0 == *n)
}

fn are_packed(more: &[u32]) -> bool
    ensures { result ≡ are_packed more.now }
{
    for (k, at) in more.iter().enumerate() {
        if *at == 0 {
            return is_zero(more.split_at(k + 1).1);
        }
    }
    true
}

fn comes_behind(before: &Name, name: &Name) -> bool
    ensures { result ≡ comes_behind before.now name.now }
{
    match before.cmp(name) {
        Ordering::Less => true,
        Ordering::Equal | Ordering::Greater => false,
    }
}

/// Whether the descriptor with this head is that of a table whose name comes behind another.
#[tactic(auto, unfolding(iq_descriptors::specs::Parts::table_at))]
pub fn is_table(alloc: Global, blocks: &[Block], head: u32, before: &Name) -> Result<bool, NoMemory>
    ensures { IfOk result (λ right. right ≡ is_table coded before.now
        (more_of (block_of blocks.now head)) (pages_at blocks.now head)) }
{
    let right = is_descriptor(alloc, blocks, head)?;
    let table = table_at(alloc, blocks, head)?;
    let more = numbers_at(alloc, block_of(blocks, head), 16, 3)?;
    Ok(
        right
            && are_packed(more.as_slice())
            && comes_behind(before, &table.name)
            && fits_slots(&table),
    )
}
