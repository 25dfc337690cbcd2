//! The blocks of a descriptor.
ghost use Rattle.std.specs.Prelude.{◌≡◌, ◌++◌, IfOk, IfErr, OnOk};
ghost use Rattle.iq_block_map.specs.Refs.{WhereTold};
ghost use Rattle.iq_descriptors.specs.Parts.{other_page, blocks_at, pages_at};
ghost use Rattle.iq_opening.specs.Steps.{block_steps, other_steps};
ghost use Rattle.iq_opening.specs.Calls.{Goes, Stops, HasBits};

use crate::OpenFault;
use crate::reaching::reach;
use iq_base::Page;
use iq_bitmap::Bitmap;
use iq_block_store::{DESCRIPTOR, number_at};
use iq_descriptors::{head_page, payload_of};
use iq_outside::Device;
use std::alloc::Global;

/// A descriptor as it stands in a store: its blocks, 0 where there is none, and their pages, with 0 for the addresses of the others.
#[derive(Drop)]
pub struct Found {
    pub block_numbers: [u32; 4],
    pub pages: Vec<Page>,
}

/// Reaches another block of a descriptor, if there is one, and puts its page at the end.
fn reach_other<D: Device>(
    disk: &mut D,
    reached: &mut Bitmap,
    head: u32,
    at: u32,
    pages: &mut Vec<Page>,
) -> Result<(), OpenFault>
    requires { HasBits (D.blocks disk.old) reached.old }
    ensures ok { OnOk result (Goes D.Device (λ all. other_steps head at)
        disk.old disk.new reached.old reached.new) }
    ensures pages { OnOk result (WhereTold (D.blocks disk.old)
        (λ all. pages.new.items ≡ pages.old.items ++ other_page all at)) }
    ensures err { IfErr result (Stops D.Device (λ all. other_steps head at)
        disk.old disk.new reached.old) }
{
    if at == 0 {
        return Ok(());
    }
    let mut block = [0; 1024];
    reach(disk, reached, head, at, DESCRIPTOR, &mut block)?;
    pages.push(payload_of(&block))?;
    Ok(())
}

/// Reaches the blocks of a descriptor, whose head stands in the root's body. It takes memory for four pages.
pub fn reach_descriptor<D: Device>(
    alloc: Global,
    disk: &mut D,
    reached: &mut Bitmap,
    body: u32,
    head: u32,
) -> Result<Found, OpenFault>
    requires { HasBits (D.blocks disk.old) reached.old }
    ensures ok { OnOk result (Goes D.Device (λ all. block_steps all body head)
        disk.old disk.new reached.old reached.new) }
    ensures numbers { IfOk result (λ found. WhereTold (D.blocks disk.old)
        (λ all. found.block_numbers ≡ blocks_at all head)) }
    ensures pages { IfOk result (λ found. WhereTold (D.blocks disk.old)
        (λ all. found.pages.items ≡ pages_at all head)) }
    ensures err { IfErr result (Stops D.Device (λ all. block_steps all body head)
        disk.old disk.new reached.old) }
{
    let mut block = [0; 1024];
    reach(disk, reached, body, head, DESCRIPTOR, &mut block)?;
    let mut pages = Vec::with_capacity(alloc, 4)?;
    pages.push(head_page(&block))?;
    let second = number_at(&block, 16);
    let third = number_at(&block, 20);
    let fourth = number_at(&block, 24);
    reach_other(disk, reached, head, second, &mut pages)?;
    reach_other(disk, reached, head, third, &mut pages)?;
    reach_other(disk, reached, head, fourth, &mut pages)?;
    let block_numbers = [head, second, third, fourth];
    Ok(Found {
        block_numbers,
        pages,
    })
}
