//! The bytes of a block.
ghost use Rattle.std.specs.Prelude.{◌≡◌, ◌⊎◌, ◌+◌, ◌≤◌, ◌++◌, true, length};
ghost use Rattle.iq_block_store.specs.Frames.{number_at, bytes_of, map_kind, has_header, header, framed, payload_of};

use byteorder::{ByteOrder, LittleEndian};
use iq_base::Page;
use iq_outside::Block;

/// The first 4 bytes of each block, `IQB1`, as a number.
const MARK: u32 = 0x31425149;

/// The kind of a root's body.
pub const BODY: u8 = 1;

/// The kind of a root's gate.
pub const GATE: u8 = 2;

/// The kind of a block of a table's descriptor.
pub const DESCRIPTOR: u8 = 3;

/// The kind of a map, whose header has a level.
pub const MAP: u8 = 4;

/// The kind of a page.
pub const PAGE: u8 = 5;

/// The number in the 4 bytes from a place on, the lowest first.
#[tactic(auto, unfolding(crate::specs::Frames::number_at))]
pub fn number_at(block: &Block, i: usize) -> u32
    requires { i ≤ 1020 }
    ensures { result ≡ number_at block.now i }
{
    LittleEndian::read_u32(block.split_at(i).1)
}

/// Whether a block's header is right: the mark, the kind, three zeros, the block's own number, and zero in place of a level
/// unless it is a map.
#[tactic(auto, unfolding(crate::specs::Frames::mark))]
pub fn has_header(kind: u8, at: u32, block: &Block) -> bool
    ensures { result ≡ has_header kind at block.now }
{
    number_at(block, 0) == MARK
        && number_at(block, 4) == u32::from(kind)
        && number_at(block, 8) == at
        && (kind == MAP || number_at(block, 12) == 0)
}

/// The 4 bytes of a number.
#[tactic(auto, unfolding(crate::specs::Frames::bytes_of))]
fn bytes_of(n: u32) -> [u8; 4]
    ensures { result ≡ bytes_of n }
{
    let mut bytes = [0; 4];
    LittleEndian::write_u32(&mut bytes, n);
    bytes
}

/// The 16 bytes of a header.
#[tactic(auto, unfolding(crate::specs::Frames::mark))]
fn header(kind: u8, at: u32, level: u32) -> [u8; 16]
    ensures { result ≡ header kind at level }
{
    let mut what = [0; 8];
    put_both(&bytes_of(MARK), &bytes_of(u32::from(kind)), &mut what);
    let mut place = [0; 8];
    put_both(&bytes_of(at), &bytes_of(level), &mut place);
    let mut header = [0; 16];
    put_both(&what, &place, &mut header);
    header
}

/// A block with this header and payload: what it is made of can be read off it again.
pub fn frame(kind: u8, at: u32, level: u32, payload: &Page) -> Block
    ensures bytes { result ≡ framed kind at level payload.now }
    ensures headed { (kind ≡ map_kind) ⊎ (level ≡ 0) → has_header kind at result ≡ true }
    ensures level { number_at result 12 ≡ level }
    ensures payload { payload_of result ≡ payload.now }
{
    let mut block = [0; 1024];
    put_both(&header(kind, at, level), payload, &mut block);
    block
}

/// Writes two pieces, one after the other, over some bytes.
fn put_both(front: &[u8], back: &[u8], bytes: &mut [u8])
    requires { length front.now + length back.now ≡ length bytes.old }
    ensures { bytes.new ≡ front.now ++ back.now }
{
    let (first, second) = bytes.split_at_mut(front.len());
    first.copy_from_slice(front);
    second.copy_from_slice(back);
}
