//! The newest root of a store.
ghost use Rattle.std.specs.Prelude.{◌≡◌, ◌+◌, ◌*◌, ◌<◌, ◌≤◌, ℕ, List, Some, length, take, IfOk, IfErr, IsTrue, true, nat_lt};
ghost use Rattle.iq_outside.specs.Devices.{block_of};
ghost use Rattle.iq_block_store.specs.Frames.{has_header, number_at, numbers_at};
ghost use Rattle.iq_block_store.specs.Looks.{HasLooked};
ghost use Rattle.iq_root.specs.Roots.{long_at, root_of, may_say, slot_root, newer, newest};
ghost use Rattle.iq_root.specs.Causes.{HasNoRoot, HasFault};

use crate::pages::long_at;
use crate::{Addresses, Root, RootFault};
use iq_block_store::{BODY, BlockFault, GATE, count_of, number_at, read};
use iq_outside::{Block, Device};

/// The formats that count, from the least to the most.
const LEAST_FORMAT: u32 = 1;

const MOST_FORMAT: u32 = 2;

/// The newest root: of the valid slots the one of greater generation. It takes no memory.
pub fn newest_root<D: Device>(disk: &mut D) -> Result<Root, RootFault>
    ensures looked { HasLooked D.Device disk.old disk.new }
    ensures newest { IfOk result (λ root. (all : List (List ℕ)) → D.blocks disk.old ≡ Some all
        → newest all ≡ Some root) }
    ensures cause { IfErr result (λ e.
        HasNoRoot e (D.blocks disk.old) (D.faults disk.old) (D.faults disk.new)) }
{
    let count = count_of(disk)?;
    let first = slot_root(disk, count, 0)?;
    let second = slot_root(disk, count, 1)?;
    newer(first, second).ok_or(RootFault::NoRoot)
}

/// The root of a slot, if it is valid.
fn slot_root<D: Device>(disk: &mut D, count: u32, slot: u32) -> Result<Option<Root>, RootFault>
    requires counted { (all : List (List ℕ)) → D.blocks disk.old ≡ Some all → count ≡ length all }
    requires slot { slot < 2 }
    ensures looked { HasLooked D.Device disk.old disk.new }
    ensures root { IfOk result (λ root. (all : List (List ℕ)) → D.blocks disk.old ≡ Some all
        → root ≡ slot_root slot all) }
    ensures cause { IfErr result (λ e. HasFault e (D.faults disk.old) (D.faults disk.new)) }
{
    let mut body = [0; 1024];
    if !fetched(disk, count, 2 * slot, BODY, &mut body)? {
        return Ok(None);
    }
    let mut gate = [0; 1024];
    if !fetched(disk, count, 2 * slot + 1, GATE, &mut gate)? {
        return Ok(None);
    }
    if long_at(&body) != long_at(&gate) || !may_say(slot, &body) {
        return Ok(None);
    }
    Ok(Some(root_of(&body)))
}

/// Reads a block, where there is one, and answers whether it is of that kind and place.
fn fetched<D: Device>(
    disk: &mut D,
    count: u32,
    at: u32,
    kind: u8,
    into: &mut Block,
) -> Result<bool, RootFault>
    requires { (all : List (List ℕ)) → D.blocks disk.old ≡ Some all → count ≡ length all }
    ensures looked { HasLooked D.Device disk.old disk.new }
    ensures headed { IfOk result (λ b. (all : List (List ℕ)) → D.blocks disk.old ≡ Some all
        → b ≡ has_header kind at (block_of all at)) }
    ensures block { IfOk result (λ b. IsTrue b → (all : List (List ℕ)) → D.blocks disk.old ≡ Some all
        → into.new ≡ block_of all at) }
    ensures cause { IfErr result (λ e. HasFault e (D.faults disk.old) (D.faults disk.new)) }
{
    if at >= count {
        return Ok(false);
    }
    match read(disk, at, kind, into) {
        Ok(()) => Ok(true),
        Err(BlockFault::BadHeader { .. }) => Ok(false),
        Err(BlockFault::StoreFault { before, after }) => {
            Err(RootFault::StoreFault { before, after })
        }
    }
}

/// Whether a body may say what it says in this slot.
fn may_say(slot: u32, body: &Block) -> bool
    ensures { result ≡ may_say slot body.now }
{
    let generation = long_at(body);
    1 <= generation
        && generation < 1 << 63
        && generation % 2 == u64::from(slot)
        && LEAST_FORMAT <= number_at(body, 24)
        && number_at(body, 24) <= MOST_FORMAT
        && number_at(body, 32) <= 64
}

/// What a body says.
fn root_of(body: &Block) -> Root
    requires { number_at body.now 32 ≤ 64 }
    ensures { result ≡ root_of body.now }
{
    let mut tables = Addresses::new();
    for k in 0..number_at(body, 32) as usize {
        tables.push(number_at(body, 36 + 4 * k));
    }
    Root {
        generation: long_at(body),
        format: number_at(body, 24),
        count: number_at(body, 28),
        tables,
    }
}

/// Of two roots the one of greater generation.
fn newer(first: Option<Root>, second: Option<Root>) -> Option<Root>
    ensures { result ≡ newer first second }
{
    match (first, second) {
        (None, other) => other,
        (Some(a), None) => Some(a),
        (Some(a), Some(b)) => {
            if a.generation < b.generation {
                Some(b)
            } else {
                Some(a)
            }
        }
    }
}
