//! Reading descriptors by their heads.
ghost use Rattle.std.specs.Prelude.{◌≡◌, ◌≤◌, ◌∷◌, [], true, false, Ok, Err, length, IfOk, IfErr};
ghost use Rattle.std.specs.List.{list_all};
ghost use Rattle.iq_outside.specs.Devices.{block_of};
ghost use Rattle.iq_block_store.specs.Looks.{HasLooked};
ghost use Rattle.iq_block_map.specs.Maps.{is_address};
ghost use Rattle.iq_block_map.specs.Refs.{WhereTold};
ghost use Rattle.iq_catalog.specs.Storable.{IsStorable};
ghost use Rattle.iq_descriptors.specs.Parts.{head_page, parts_at, is_head};
ghost use Rattle.iq_descriptors.specs.Stored.{pages_behind, pages_in, descriptor_at, Describes, comes_behind, tables_of};
ghost use Rattle.iq_descriptors.specs.Causes.{IsReadFault};
ghost use Rattle.iq_descriptors.specs.Heads.{IsHeadOf};

use crate::parts::{
    are_addresses, are_packed, head_page, more_of, parts_of, payload_of, read_part,
};
use crate::{Blocks, DescriptorFault};
use iq_base::{Descriptor, Name, Page};
use iq_block_store::count_of;
use iq_catalog::{CatalogFault, get};
use iq_outside::Device;
use std::alloc::Global;
use std::cmp::Ordering;

/// A descriptor as it stands in a store.
#[derive(Debug, Drop)]
pub struct Stored {
    /// What it says.
    pub table: Descriptor,
    /// Its 1 to 4 blocks, the head first.
    pub blocks: Blocks,
}

/// What was read of a head: its page, with 0 for the addresses, and the blocks of its descriptor.
#[derive(Drop)]
struct Head {
    page: Page,
    blocks: Blocks,
}

/// Reads the descriptor whose head is in a block. It reads each of its 1 to 4 blocks once. It takes memory for their pages, and three
/// times for their bytes. `Bad` names the head where the head's address, header or one of its three addresses is wrong, also where an
/// address stands behind a 0; else the first other block that has no header of a descriptor in its place; else the head once more,
/// where the pages are those of no descriptor that may be stored.
pub fn read<D: Device>(alloc: Global, disk: &mut D, head: u32) -> Result<Stored, DescriptorFault>
    ensures looked { HasLooked D.Device disk.old disk.new }
    ensures ok { IfOk result (λ found. WhereTold (D.blocks disk.old)
        (λ all. Describes all head found.table found.blocks)) }
    ensures storable { IfOk result (λ found. IsStorable found.table) }
    ensures cause { IfErr result (λ e. IsReadFault (λ b all. descriptor_at all head ≡ Err b)
        e (D.blocks disk.old) (D.faults disk.old) (D.faults disk.new)) }
{
    let count = count_of(disk)?;
    read_in(alloc, disk, count, head)
}

/// Reads the descriptors of a version, in order, by their heads. It reads each of their blocks once, and takes memory for the list
/// and for each descriptor in turn. `Bad` names the block that `read` names, or the head of the first whose name isn't above the one
/// before it.
pub fn tables<D: Device>(
    alloc: Global,
    disk: &mut D,
    heads: &[u32],
) -> Result<Vec<Descriptor>, DescriptorFault>
    ensures looked { HasLooked D.Device disk.old disk.new }
    ensures ok { IfOk result (λ tables. WhereTold (D.blocks disk.old)
        (λ all. tables_of all heads.now ≡ Ok tables.items)) }
    ensures cause { IfErr result (λ e. IsReadFault (λ b all. tables_of all heads.now ≡ Err b)
        e (D.blocks disk.old) (D.faults disk.old) (D.faults disk.new)) }
{
    let count = count_of(disk)?;
    let mut tables = Vec::with_capacity(alloc, heads.len())?;
    let mut before = no_name();
    for head in heads {
        let table = read_in(alloc, disk, count, *head)?.table;
        if !comes_behind(&before, &table.name) {
            return Err(DescriptorFault::Bad { block: *head });
        }
        before = table.name.again();
        tables.push(table)?;
    }
    Ok(tables)
}

/// Whether a name comes behind another, in order of bytes.
pub fn comes_behind(before: &Name, name: &Name) -> bool
    ensures { result ≡ comes_behind before.now name.now }
{
    match before.cmp(name) {
        Ordering::Less => true,
        Ordering::Equal | Ordering::Greater => false,
    }
}

/// The name that stands before each other.
fn no_name() -> Name
    ensures { result ≡ [] }
{
    match Name::of("") {
        Some(name) => name,
        None => unreachable!(),
    }
}

/// Reads a descriptor, in a store of so many blocks.
fn read_in<D: Device>(
    alloc: Global,
    disk: &mut D,
    count: u32,
    head: u32,
) -> Result<Stored, DescriptorFault>
    requires { WhereTold (D.blocks disk.old) (λ all. count ≡ length all) }
    ensures looked { HasLooked D.Device disk.old disk.new }
    ensures ok { IfOk result (λ found. WhereTold (D.blocks disk.old)
        (λ all. Describes all head found.table found.blocks)) }
    ensures storable { IfOk result (λ found. IsStorable found.table) }
    ensures cause { IfErr result (λ e. IsReadFault (λ b all. descriptor_at all head ≡ Err b)
        e (D.blocks disk.old) (D.faults disk.old) (D.faults disk.new)) }
{
    let found = read_head(disk, count, head)?;
    let others = found.blocks.as_slice().split_at(1).1;
    let pages = pages_of(alloc, disk, &found.page, others)?;
    match get(alloc, &pages) {
        Ok(table) => Ok(Stored {
            table,
            blocks: found.blocks,
        }),
        Err(CatalogFault::BadCatalog { .. }) => Err(DescriptorFault::Bad { block: head }),
        Err(CatalogFault::NoMemory) => Err(DescriptorFault::NoMemory),
    }
}

/// Reads a head.
fn read_head<D: Device>(disk: &mut D, count: u32, head: u32) -> Result<Head, DescriptorFault>
    requires { WhereTold (D.blocks disk.old) (λ all. count ≡ length all) }
    ensures looked { HasLooked D.Device disk.old disk.new }
    ensures ok { IfOk result (λ found. WhereTold (D.blocks disk.old)
        (IsHeadOf head found.page found.blocks)) }
    ensures some { IfOk result (λ found. 1 ≤ length found.blocks) }
    ensures cause { IfErr result (λ e. IsReadFault (λ b all. (b ≡ head) × (is_head all head ≡ false))
        e (D.blocks disk.old) (D.faults disk.old) (D.faults disk.new)) }
{
    if !are_addresses(count, &[head]) {
        return Err(DescriptorFault::Bad { block: head });
    }
    let mut block = [0; 1024];
    read_part(disk, head, &mut block)?;
    let more = more_of(&block);
    let blocks = parts_of(head, &more);
    if !are_packed(&more) || !are_addresses(count, blocks.as_slice().split_at(1).1) {
        return Err(DescriptorFault::Bad { block: head });
    }
    Ok(Head {
        page: head_page(&block),
        blocks,
    })
}

/// The page of a head, and behind it those in the other blocks.
fn pages_of<D: Device>(
    alloc: Global,
    disk: &mut D,
    page: &Page,
    others: &[u32],
) -> Result<Vec<Page>, DescriptorFault>
    requires { WhereTold (D.blocks disk.old)
        (λ all. list_all (is_address (length all)) others.now ≡ true) }
    ensures looked { HasLooked D.Device disk.old disk.new }
    ensures ok { IfOk result (λ pages. WhereTold (D.blocks disk.old)
        (λ all. pages_behind (page.now ∷ []) (pages_in all others.now) ≡ Ok pages.items)) }
    ensures cause { IfErr result (λ e. IsReadFault (λ b all. pages_in all others.now ≡ Err b)
        e (D.blocks disk.old) (D.faults disk.old) (D.faults disk.new)) }
{
    let mut pages = Vec::with_capacity(alloc, 4)?;
    pages.push(*page)?;
    for at in others {
        let mut block = [0; 1024];
        read_part(disk, *at, &mut block)?;
        pages.push(payload_of(&block))?;
    }
    Ok(pages)
}
