//! Writing a descriptor into blocks that were taken for it.
ghost use Rattle.std.specs.Prelude.{◌≡◌, ◌+◌, ◌≤◌, ◌<◌, ◌^◌, ℕ, ◌∷◌, ◌++◌, [], List, Some, Ok, length, nat_eq, slice_set, IfOk, IfErr};
ghost use Rattle.std.specs.List.{All, IsDistinct, flat_map};
ghost use Rattle.iq_block_store.specs.Frames.{descriptor_kind, bytes_of, framed};
ghost use Rattle.iq_block_map.specs.Refs.{WhereTold};
ghost use Rattle.iq_block_map.specs.Takers.{AreSpare};
ghost use Rattle.iq_block_map.specs.Writing.{HasPut};
ghost use Rattle.iq_catalog.specs.Storable.{IsStorable};
ghost use Rattle.iq_descriptors.specs.Stored.{pages_in, Describes};
ghost use Rattle.iq_descriptors.specs.Written.{block_count, addresses, head_payload, AreTaken};
ghost use Rattle.iq_descriptors.specs.Causes.{IsWriteFault};

use crate::parts::parts_of;
use crate::{Blocks, DescriptorFault};
use byteorder::{ByteOrder, LittleEndian};
use iq_base::{Descriptor, Page};
use iq_block_map::{MapFault, Taker};
use iq_block_store::DESCRIPTOR;
use iq_outside::Device;
use std::alloc::Global;

/// Where a descriptor was written.
#[derive(Debug, Drop)]
pub struct Written {
    /// The block of its head.
    pub head: u32,
    /// Its 1 to 4 blocks, the head first.
    pub blocks: Blocks,
}

/// How many blocks a descriptor takes, 1 to 4.
pub fn block_count(table: &Descriptor) -> u32
    requires { IsStorable table.now }
    ensures count { result ≡ block_count table.now }
    ensures some { 1 ≤ result }
    ensures few { result ≤ 4 }
{
    (1_064 + 55 * table.columns.len() as u32 + 62 * table.indexes.len() as u32) / 1_008
}

/// Writes a descriptor into blocks that it takes: the others first, and last the head with their addresses, each written once. It
/// takes as many as `block_count` tells, and memory for the pages and twice for their bytes. `NoSpace` comes where fewer are left;
/// then all that were left are taken. Where it fails, some blocks may be taken and written: the caller gives them back.
pub fn write<D: Device, T: Taker>(
    alloc: Global,
    disk: &mut D,
    space: &mut T,
    table: &Descriptor,
) -> Result<Written, DescriptorFault>
    requires storable { IsStorable table.now }
    requires spare { AreSpare (D.blocks disk.old) (T.left space.old) }
    ensures put { HasPut D.Device (T.left space.old) (T.left space.new) disk.old disk.new }
    ensures spare { AreSpare (D.blocks disk.new) (T.left space.new) }
    ensures most { length (T.left space.old) ≤ length (T.left space.new) + block_count table.now }
    ensures ok { IfOk result (λ made. WhereTold (D.blocks disk.new)
        (λ all. Describes all made.head table.now made.blocks)) }
    ensures taken { IfOk result (λ made. AreTaken made.head made.blocks
        (T.left space.old) (T.left space.new)) }
    ensures count { IfOk result (λ made. length made.blocks ≡ block_count table.now) }
    ensures distinct { IfOk result (λ made. IsDistinct nat_eq made.blocks) }
    ensures cause { IfErr result (λ e. IsWriteFault (block_count table.now)
        e (T.left space.old) (T.left space.new) (D.faults disk.old) (D.faults disk.new)) }
{
    let pages = iq_catalog::put(alloc, table)?;
    are_pages(&pages);
    let (first, rest) = pages.split_at(1);
    let others = put_others(disk, space, rest)?;
    let numbers = addresses(others.as_slice());
    let head = put_part(disk, space, &head_payload(&numbers, &first[0]))?;
    Ok(Written {
        head,
        blocks: parts_of(head, &numbers),
    })
}

/// Puts the pages behind the head's, each into a block that it takes.
fn put_others<D: Device, T: Taker>(
    disk: &mut D,
    space: &mut T,
    pages: &[Page],
) -> Result<Blocks, DescriptorFault>
    requires few { length pages.now ≤ 3 }
    requires spare { AreSpare (D.blocks disk.old) (T.left space.old) }
    ensures put { HasPut D.Device (T.left space.old) (T.left space.new) disk.old disk.new }
    ensures spare { AreSpare (D.blocks disk.new) (T.left space.new) }
    ensures most { length (T.left space.old) ≤ length (T.left space.new) + length pages.now }
    ensures count { IfOk result (λ others. length others ≡ length pages.now) }
    ensures fits { IfOk result (λ others. All (λ b. b < 2 ^ 32) others) }
    ensures left { IfOk result (λ others. T.left space.old ≡ others ++ T.left space.new) }
    ensures pages { IfOk result (λ others. WhereTold (D.blocks disk.new)
        (λ all. pages_in all others ≡ Ok pages.now)) }
    ensures cause { IfErr result (λ e. IsWriteFault (length pages.now)
        e (T.left space.old) (T.left space.new) (D.faults disk.old) (D.faults disk.new)) }
{
    let mut others = Blocks::new();
    for page in pages {
        others.push(put_part(disk, space, page)?);
    }
    Ok(others)
}

/// Takes a block and writes a page of a descriptor into it.
fn put_part<D: Device, T: Taker>(
    disk: &mut D,
    space: &mut T,
    page: &Page,
) -> Result<u32, DescriptorFault>
    requires spare { AreSpare (D.blocks disk.old) (T.left space.old) }
    ensures put { HasPut D.Device (T.left space.old) (T.left space.new) disk.old disk.new }
    ensures spare { AreSpare (D.blocks disk.new) (T.left space.new) }
    ensures most { length (T.left space.old) ≤ length (T.left space.new) + 1 }
    ensures fits { IfOk result (λ at. at < 2 ^ 32) }
    ensures left { IfOk result (λ at. T.left space.old ≡ at ∷ T.left space.new) }
    ensures block { IfOk result (λ at. (all : List (List ℕ)) → D.blocks disk.old ≡ Some all
        → D.blocks disk.new ≡ Some (slice_set all at (framed descriptor_kind at 0 page.now))) }
    ensures cause { IfErr result (λ e. IsWriteFault 1
        e (T.left space.old) (T.left space.new) (D.faults disk.old) (D.faults disk.new)) }
{
    match iq_block_map::put(disk, space, DESCRIPTOR, 0, page) {
        Ok(at) => Ok(at),
        Err(MapFault::StoreFault { before, after }) => {
            Err(DescriptorFault::StoreFault { before, after })
        }
        Err(MapFault::NoSpace) => Err(DescriptorFault::NoSpace),
        Err(MapFault::BadMap { .. } | MapFault::NoMemory) => unreachable!(),
    }
}

/// Each page has its bytes, by its type.
fn are_pages(pages: &[Page])
    ensures { All (λ page. length page ≡ 1008) pages.now }
{}

/// The three addresses of a head: these, and then 0.
fn addresses(others: &[u32]) -> [u32; 3]
    requires { length others.now ≤ 3 }
    ensures { result ≡ addresses others.now }
{
    let mut numbers = [0; 3];
    numbers.split_at_mut(others.len()).0.copy_from_slice(others);
    numbers
}

/// The payload of a head: three addresses, and its page behind the room for them.
fn head_payload(numbers: &[u32; 3], page: &Page) -> Page
    ensures { result ≡ head_payload numbers.now page.now }
{
    let mut front = [0; 12];
    LittleEndian::write_u32_into(numbers, &mut front);
    let mut payload = *page;
    payload[..12].copy_from_slice(&front);
    payload
}
