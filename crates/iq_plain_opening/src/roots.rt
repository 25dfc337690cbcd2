//! The newest root, as blocks in memory have it.
ghost use Rattle.std.specs.Prelude.{◌≡◌, ◌≤◌, ◌<◌, length, IfOk};
ghost use Rattle.iq_block_store.specs.Frames.{number_at};
ghost use Rattle.iq_root.specs.Roots.{root_of, may_say, is_valid, slot_root, newer, newest};

use crate::bytes::{block_of, has_header, long_at, number_at, numbers_at};
use iq_base::NoMemory;
use iq_outside::Block;
use iq_root::{Addresses, Root};
use std::alloc::Global;

/// Whether a body may say what it says in this slot.
fn may_say(slot: u32, body: &[u8]) -> bool
    ensures { result ≡ may_say slot body.now }
{
    let generation = long_at(body, 16);
    1 <= generation
        && generation < 1 << 63
        && generation % 2 == u64::from(slot)
        && 1 <= number_at(body, 24)
        && number_at(body, 24) <= 2
        && number_at(body, 32) <= 64
}

/// Whether a slot is valid.
fn is_valid(slot: u32, body: &[u8], gate: &[u8]) -> bool
    requires { slot < 2 }
    ensures { result ≡ is_valid slot body.now gate.now }
{
    has_header(1, 2 * slot, body)
        && has_header(2, 2 * slot + 1, gate)
        && long_at(body, 16) == long_at(gate, 16)
        && may_say(slot, body)
}

/// A few addresses, in the value itself.
fn addresses_of(numbers: &[u32]) -> Addresses
    requires { length numbers.now ≤ 64 }
    ensures { result ≡ numbers.now }
{
    let mut addresses = Addresses::new();
    for number in numbers {
        addresses.push(*number);
    }
    addresses
}

/// What a body says.
fn root_of(alloc: Global, body: &[u8]) -> Result<Root, NoMemory>
    requires { number_at body.now 32 ≤ 64 }
    ensures { IfOk result (λ root. root ≡ root_of body.now) }
{
    let tables = numbers_at(alloc, body, 36, number_at(body, 32) as usize)?;
    Ok(Root {
        generation: long_at(body, 16),
        format: number_at(body, 24),
        count: number_at(body, 28),
        tables: addresses_of(tables.as_slice()),
    })
}

/// The root of a slot, if it is valid.
fn slot_root(alloc: Global, slot: u32, blocks: &[Block]) -> Result<Option<Root>, NoMemory>
    requires { slot < 2 }
    ensures { IfOk result (λ root. root ≡ slot_root slot blocks.now) }
{
    let body = block_of(blocks, 2 * slot);
    if is_valid(slot, body, block_of(blocks, 2 * slot + 1)) {
        Ok(Some(root_of(alloc, body)?))
    } else {
        Ok(None)
    }
}

/// Of two roots the one of greater generation.
fn newer(first: Option<Root>, second: Option<Root>) -> Option<Root>
    ensures { result ≡ newer first second }
{
    match (first, second) {
        (None, other) => other,
        (Some(a), None) => Some(a),
        (Some(a), Some(b)) => {
            if a.generation < b.generation {
                Some(b)
            } else {
                Some(a)
            }
        }
    }
}

/// The newest root, if there is one.
pub fn newest(alloc: Global, blocks: &[Block]) -> Result<Option<Root>, NoMemory>
    ensures { IfOk result (λ root. root ≡ newest blocks.now) }
{
    let first = slot_root(alloc, 0, blocks)?;
    let second = slot_root(alloc, 1, blocks)?;
    Ok(newer(first, second))
}
