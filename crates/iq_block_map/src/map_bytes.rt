//! The bytes of maps.
ghost use Rattle.iq_block_map.specs.declared.map_bytes.TheConstants.{ROOM};
ghost use Rattle.std.specs.Prelude.{◌≡◌, ◌≤◌, nat_eq};
ghost use Rattle.std.specs.List.{flat_map, list_all};
ghost use Rattle.iq_block_store.specs.Frames.{bytes_of};
ghost use Rattle.iq_block_map.specs.Maps.{places, raw_map, is_right_map, are_places, is_address};

use byteorder::{ByteOrder, LittleEndian};
use iq_block_store::{Page, number_at};
use iq_outside::Block;

/// How many numbers a map has.
pub const ROOM: usize = 252;

/// The numbers of a map.
pub type Places = [u32; 252];

/// What the block of a map says: its level, and its numbers, of which nothing is tested.
#[derive(Clone, Copy, Debug)]
pub struct RawMap {
    pub level: u32,
    pub numbers: [u32; 252],
}

/// The numbers behind a map's header.
fn places_of(block: &Block) -> Places
    ensures { result ≡ places block.now }
{
    let mut places = [0; 252];
    LittleEndian::read_u32_into(block.split_at(16).1, &mut places);
    places
}

/// The payload of a map with these numbers.
pub fn payload_of(places: &Places) -> Page
    ensures { result ≡ flat_map bytes_of places.now }
{
    let mut page = [0; 1008];
    LittleEndian::write_u32_into(places, &mut page);
    page
}

/// Whether what was read is a map of a level, with so many numbers in use, in a store of so many blocks.
pub fn is_right_map(count: u32, level: u32, used: usize, raw: &RawMap) -> bool
    requires { used ≤ ROOM }
    ensures { result ≡ is_right_map count level used raw.now }
{
    raw.level == level && are_places(count, used, &raw.numbers)
}

/// The level and the numbers behind a map's header.
pub fn raw_map_of(block: &Block) -> RawMap
    ensures { result ≡ raw_map block.now }
{
    RawMap {
        level: number_at(block, 12),
        numbers: places_of(block),
    }
}

/// Whether so many numbers name blocks, and the others are zero.
fn are_places(count: u32, used: usize, places: &Places) -> bool
    requires { used ≤ ROOM }
    ensures { result ≡ are_places count used places.now }
{
    let (named, spare) = places.split_at(used);
    are_addresses(count, named) && are_zero(spare)
}

fn are_addresses(count: u32, numbers: &[u32]) -> bool
    ensures { result ≡ list_all (is_address count) numbers.now }
{
    numbers.iter().all(|a| 4 <= *a && *a < count)
}

fn are_zero(numbers: &[u32]) -> bool
    ensures { result ≡ list_all (nat_eq 0) numbers.now }
{
    numbers.iter().all(|n| 0 == *n)
}
