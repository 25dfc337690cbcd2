//! One step of the way through a store: an address, and the block to which it leads.
ghost use Rattle.std.specs.Prelude.{◌≡◌, ◌≤◌, ◌<◌, [], ◌∷◌, None, length, true, IfOk, IfErr, OnOk};
ghost use Rattle.std.specs.Prelude.{nat_eq};
ghost use Rattle.std.specs.List.{list_all};
ghost use Rattle.iq_outside.specs.Devices.{block_of};
ghost use Rattle.iq_block_map.specs.Refs.{WhereTold};
ghost use Rattle.iq_block_map.specs.Maps.{places};
ghost use Rattle.iq_opening.specs.Steps.{Step};
ghost use Rattle.iq_opening.specs.Walk.{reach_fault};
ghost use Rattle.iq_opening.specs.Calls.{Goes, Stops, HasBits, IsUnreachable};

use crate::faults::bad;
use crate::{OpenFault, StoreCause};
use iq_bitmap::Bitmap;
use iq_block_map::read_raw_map;
use iq_block_store::{BlockFault, read};
use iq_outside::{Block, Device};

/// Whether an address may be reached: it is one of the store's, and no earlier one led there.
fn may_reach(reached: &Bitmap, holder: u32, at: u32) -> Result<(), OpenFault>
    ensures ok { OnOk result (reach_fault (length reached.now) reached.now holder at ≡ None) }
    ensures within { OnOk result (at < length reached.now) }
    ensures err { IfErr result (λ e. IsUnreachable e
        (reach_fault (length reached.now) reached.now holder at)) }
{
    if at < 4 || reached.len() <= at {
        return Err(bad(holder, StoreCause::OutOfRange));
    }
    if reached.get(at) {
        return Err(bad(at, StoreCause::Shared));
    }
    Ok(())
}

/// Reaches a block of a kind that isn't a map's, and reads it. It takes no memory.
pub fn reach<D: Device>(
    disk: &mut D,
    reached: &mut Bitmap,
    holder: u32,
    at: u32,
    kind: u8,
    into: &mut Block,
) -> Result<(), OpenFault>
    requires { HasBits (D.blocks disk.old) reached.old }
    ensures ok { OnOk result (Goes D.Device (λ all. Step.visit holder at kind ∷ [])
        disk.old disk.new reached.old reached.new) }
    ensures block { OnOk result (WhereTold (D.blocks disk.old)
        (λ all. into.new ≡ block_of all at)) }
    ensures err { IfErr result (Stops D.Device (λ all. Step.visit holder at kind ∷ [])
        disk.old disk.new reached.old) }
{
    may_reach(reached, holder, at)?;
    match read(disk, at, kind, into) {
        Ok(()) => {
            reached.set(at, true);
            Ok(())
        }
        Err(BlockFault::BadHeader { .. }) => Err(bad(at, StoreCause::BadHeader)),
        Err(BlockFault::StoreFault { before, after }) => {
            Err(OpenFault::StoreFault { before, after })
        }
    }
}

/// Reaches a map of a level with so many places in use, and answers its places. It takes no memory.
pub fn reach_map<D: Device>(
    disk: &mut D,
    reached: &mut Bitmap,
    holder: u32,
    at: u32,
    level: u32,
    used: usize,
) -> Result<[u32; 252], OpenFault>
    requires bits { HasBits (D.blocks disk.old) reached.old }
    requires used { used ≤ 252 }
    ensures ok { OnOk result (Goes D.Device (λ all. Step.visit_map holder at level used ∷ [])
        disk.old disk.new reached.old reached.new) }
    ensures places { IfOk result (λ ps. WhereTold (D.blocks disk.old)
        (λ all. ps ≡ places (block_of all at))) }
    ensures err { IfErr result (Stops D.Device (λ all. Step.visit_map holder at level used ∷ [])
        disk.old disk.new reached.old) }
{
    may_reach(reached, holder, at)?;
    let raw = match read_raw_map(disk, at) {
        Ok(raw) => raw,
        Err(BlockFault::BadHeader { .. }) => return Err(bad(at, StoreCause::BadHeader)),
        Err(BlockFault::StoreFault { before, after }) => {
            return Err(OpenFault::StoreFault { before, after });
        }
    };
    if raw.level != level {
        return Err(bad(at, StoreCause::BadHeader));
    }
    let places = raw.numbers;
    if !is_zero(places.split_at(used).1) {
        return Err(bad(at, StoreCause::BadMap));
    }
    reached.set(at, true);
    Ok(places)
}

/// Whether all numbers are zero.
fn is_zero(numbers: &[u32]) -> bool
    ensures { result ≡ list_all (nat_eq 0) numbers.now }
{
    numbers.iter().all(|n| 0 == *n)
}
