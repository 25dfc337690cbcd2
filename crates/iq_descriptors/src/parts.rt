//! The blocks of a descriptor: what a head says of the others, and reading one.
ghost use Rattle.std.specs.Prelude.{◌≡◌, ◌≤◌, ◌<◌, ◌∷◌, true, false, length, nat_eq, IfErr, OnOk};
ghost use Rattle.std.specs.List.{list_all};
ghost use Rattle.iq_outside.specs.Devices.{block_of, HasPlace};
ghost use Rattle.iq_block_store.specs.Frames.{descriptor_kind, has_header, payload_of};
ghost use Rattle.iq_block_store.specs.Looks.{HasLooked};
ghost use Rattle.iq_block_map.specs.Maps.{is_address};
ghost use Rattle.iq_block_map.specs.Refs.{WhereTold};
ghost use Rattle.iq_descriptors.specs.Parts.{more_of, head_page, are_packed, named};
ghost use Rattle.iq_descriptors.specs.Causes.{IsReadFault};

use crate::{Blocks, DescriptorFault};
use iq_base::Page;
use iq_block_store::{BlockFault, DESCRIPTOR, number_at};
use iq_outside::{Block, Device};

/// What a block holds behind its header.
#[tactic(auto, unfolding(iq_block_store::specs::Frames::payload_of))]
pub fn payload_of(block: &Block) -> Page
    ensures { result ≡ payload_of block.now }
{
    let mut page = [0; 1008];
    page.copy_from_slice(block.split_at(16).1);
    page
}

/// The page of a head, with 0 for the three addresses.
pub fn head_page(block: &Block) -> Page
    ensures { result ≡ head_page block.now }
{
    let mut page = [0; 1008];
    page[12..].copy_from_slice(block.split_at(28).1);
    page
}

/// The addresses of a descriptor's other blocks, 0 where there is none.
pub fn more_of(head: &Block) -> [u32; 3]
    ensures { result ≡ more_of head.now }
{
    [
        number_at(head, 16),
        number_at(head, 20),
        number_at(head, 24),
    ]
}

/// Whether no address stands behind one that is 0.
pub fn are_packed(more: &[u32]) -> bool
    ensures { result ≡ are_packed more.now }
{
    for (k, at) in more.iter().enumerate() {
        if *at == 0 {
            return are_zero(more.split_at(k + 1).1);
        }
    }
    true
}

fn are_zero(numbers: &[u32]) -> bool
    ensures { result ≡ list_all (nat_eq 0) numbers.now }
{
    numbers.iter().all(|n| 0 == *n)
}

/// Whether numbers are of blocks behind the roots, in a store of so many.
pub fn are_addresses(count: u32, numbers: &[u32]) -> bool
    ensures { result ≡ list_all (is_address count) numbers.now }
{
    numbers.iter().all(|a| 4 <= *a && *a < count)
}

/// A head, and behind it those of three addresses that aren't 0.
pub fn parts_of(head: u32, more: &[u32; 3]) -> Blocks
    ensures { result ≡ head ∷ named more.now }
{
    let mut blocks = Blocks::new();
    blocks.push(head);
    for at in more {
        if *at != 0 {
            blocks.push(*at);
        }
    }
    blocks
}

/// Reads a block of a descriptor. It takes no memory.
pub fn read_part<D: Device>(disk: &mut D, at: u32, into: &mut Block) -> Result<(), DescriptorFault>
    requires { HasPlace (D.blocks disk.old) at }
    ensures looked { HasLooked D.Device disk.old disk.new }
    ensures header { OnOk result (has_header descriptor_kind at into.new ≡ true) }
    ensures block { OnOk result (WhereTold (D.blocks disk.old)
        (λ all. into.new ≡ block_of all at)) }
    ensures cause { IfErr result (λ e. IsReadFault
        (λ b all. (b ≡ at) × (has_header descriptor_kind at (block_of all at) ≡ false))
        e (D.blocks disk.old) (D.faults disk.old) (D.faults disk.new)) }
{
    match iq_block_store::read(disk, at, DESCRIPTOR, into) {
        Ok(()) => Ok(()),
        Err(BlockFault::BadHeader { .. }) => Err(DescriptorFault::Bad { block: at }),
        Err(BlockFault::StoreFault { before, after }) => {
            Err(DescriptorFault::StoreFault { before, after })
        }
    }
}
