//! Bytes and numbers of blocks, where what is missing is 0.
ghost use Rattle.std.specs.Prelude.{◌≡◌, ◌≤◌, ◌<◌, ◌+◌, ◌*◌, ◌^◌, drop, take, length, slice_index, IfOk};
ghost use Rattle.iq_outside.specs.Devices.{block_of};
ghost use Rattle.iq_block_store.specs.Frames.{number_at, numbers_at, has_header};
ghost use Rattle.iq_root.specs.Roots.{long_at};

use iq_base::NoMemory;
use iq_outside::Block;
use std::alloc::Global;

/// The first 4 bytes of each block, `IQB1`, as a number.
const MARK: u32 = 0x31425149;

/// The kind of a map.
const MAP: u8 = 4;

/// The block in a place, or no bytes past the end.
pub fn block_of(blocks: &[Block], at: u32) -> &[u8]
    ensures { result.now ≡ block_of blocks.now at }
{
    let place = at as usize;
    if place < blocks.len() {
        blocks[place].as_slice()
    } else {
        &[]
    }
}

/// The bytes from a place on.
pub fn behind(bytes: &[u8], i: usize) -> &[u8]
    ensures { result.now ≡ drop i bytes.now }
{
    if i <= bytes.len() {
        bytes.split_at(i).1
    } else {
        &[]
    }
}

/// The numbers from a place on.
pub fn rest(numbers: &[u32], i: usize) -> &[u32]
    ensures { result.now ≡ drop i numbers.now }
{
    if i <= numbers.len() {
        numbers.split_at(i).1
    } else {
        &[]
    }
}

/// So many bytes at the front.
pub fn front(bytes: &[u8], n: usize) -> &[u8]
    ensures { result.now ≡ take n bytes.now }
{
    if n <= bytes.len() {
        bytes.split_at(n).0
    } else {
        bytes
    }
}

/// The byte in a place.
pub fn byte_at(bytes: &[u8], i: usize) -> u8
    ensures { result ≡ slice_index bytes.now i }
{
    if i < bytes.len() { bytes[i] } else { 0 }
}

/// The number in the 4 bytes from a place on, the lowest first.
fn four(bytes: &[u8], i: usize) -> u64
    requires { i ≤ 4 }
    ensures value { result ≡ slice_index bytes.now i + 256 * (slice_index bytes.now (i + 1)
        + 256 * (slice_index bytes.now (i + 2) + 256 * slice_index bytes.now (i + 3))) }
    ensures small { result < 2 ^ 32 }
{
    let high = u64::from(byte_at(bytes, i + 2)) + 256 * u64::from(byte_at(bytes, i + 3));
    u64::from(byte_at(bytes, i)) + 256 * (u64::from(byte_at(bytes, i + 1)) + 256 * high)
}

/// The number in the 4 bytes from a place on.
#[tactic(auto, unfolding(iq_block_store::specs::Frames::number_at))]
pub fn number_at(bytes: &[u8], i: usize) -> u32
    ensures { result ≡ number_at bytes.now i }
{
    four(behind(bytes, i), 0) as u32
}

/// The number in the 8 bytes from a place on.
#[tactic(auto, unfolding(iq_root::specs::Roots::long_at))]
pub fn long_at(bytes: &[u8], i: usize) -> u64
    ensures { result ≡ long_at bytes.now i }
{
    let rest = behind(bytes, i);
    four(rest, 0) + 4_294_967_296 * four(rest, 4)
}

/// So many numbers of 4 bytes each, from a place on.
pub fn numbers_at(alloc: Global, bytes: &[u8], i: usize, count: usize) -> Result<Vec<u32>, NoMemory>
    requires place { i ≤ 1020 }
    requires few { count ≤ 252 }
    ensures ok { IfOk result (λ numbers. numbers.items ≡ numbers_at bytes.now i count) }
    ensures count { IfOk result (λ numbers. length numbers.items ≡ count) }
{
    let mut numbers = Vec::new(alloc);
    for k in 0..count {
        numbers.push(number_at(bytes, i + 4 * k))?;
    }
    Ok(numbers)
}

/// Whether a block's header is right for a kind and a place.
#[tactic(auto, unfolding(iq_block_store::specs::Frames::mark))]
pub fn has_header(kind: u8, at: u32, block: &[u8]) -> bool
    ensures { result ≡ has_header kind at block.now }
{
    number_at(block, 0) == MARK
        && number_at(block, 4) == u32::from(kind)
        && number_at(block, 8) == at
        && (kind == MAP || number_at(block, 12) == 0)
}
