//! Stores in memory with descriptors, tables, and blocks to take.
ghost use Rattle.std.specs.Prelude.{◌≡◌, ◌-◌, ◌≤◌, List, ℕ, Option, Some, length, IsTrue, IfOk};
ghost use Rattle.std.specs.List.{range_with_len};
ghost use Rattle.iq_block_map.specs.Takers.{AreSpare};

use iq_base::{ColumnPart, Descriptor, IndexKind, IndexPart, IndexSpec, Kind, Listed, Name, Ref};
use iq_block_map::Taker;
use iq_catalog::is_storable;
use iq_descriptors::{DescriptorFault, Written, block_count, write};
use iq_outside::{Block, Device, SureDevice};
use std::alloc::{AllocError, Global};
use std::fmt::Debug;
use std::process::Abort;

/// What stands for a device that can't count, or a call that may not be made.
pub const NO_CALL: DescriptorFault = DescriptorFault::Bad { block: 99 };

/// How many blocks the stores have.
pub const COUNT: u32 = 20;

/// The first block to take.
pub const FIRST: u32 = 10;

/// The blocks from one on, before an end.
#[derive(Debug, Drop)]
pub struct Spares {
    next: u32,
    end: u32,
}

impl Taker for Spares {
    ghost left = { λ s. range_with_len s.next (s.end - s.next) };

    fn take(&mut self) -> Option<u32> {
        if self.next >= self.end {
            return None;
        }
        self.next += 1;
        Some(self.next - 1)
    }
}

/// So many blocks to take.
pub fn to_take(count: u32) -> Spares {
    Spares {
        next: FIRST,
        end: FIRST.saturating_add(count),
    }
}

/// Asserts that two values are the same, in a row of a table.
pub fn same<T: PartialEq + Debug>(rt: &impl Abort, found: &T, wanted: &T, row: usize) {
    assert_eq!(rt; *found, *wanted, "row {row}");
}

/// Whether the spare blocks are some of so many.
fn are_spare(count: u32, space: &Spares) -> bool
    ensures { IsTrue result → (told : Option (List (List ℕ))) → ((all : List (List ℕ)) → told ≡ Some all → count ≡ length all)
        → AreSpare told (range_with_len space.now.next (space.now.end - space.now.next)) }
{
    4 <= space.next && space.end <= count
}

fn count_of<D: Device>(disk: &mut D) -> Result<u32, DescriptorFault>
    ensures { IfOk result (λ n. (all : List (List ℕ)) → D.blocks disk.new ≡ Some all → n ≡ length all) }
{
    match disk.count() {
        Ok(count) => Ok(count),
        Err(_) => Err(NO_CALL),
    }
}

/// Counts, and writes a descriptor where that may be done.
pub fn put<D: Device>(
    alloc: Global,
    disk: &mut D,
    space: &mut Spares,
    table: &Descriptor,
) -> Result<Written, DescriptorFault> {
    let count = count_of(disk)?;
    if is_storable(table) && are_spare(count, space) {
        write(alloc, disk, space, table)
    } else {
        Err(NO_CALL)
    }
}

/// How many blocks a descriptor takes, where it may be stored.
pub fn blocks_of(table: &Descriptor) -> u32 {
    if is_storable(table) {
        block_count(table)
    } else {
        0
    }
}

/// A device of blocks of zeros.
pub fn zeros(alloc: Global) -> Result<SureDevice, DescriptorFault> {
    let mut disk = SureDevice::new(Vec::new(alloc));
    match disk.resize(COUNT) {
        Ok(()) => Ok(disk),
        Err(_) => Err(NO_CALL),
    }
}

/// Blocks with a descriptor, from the first block to take on, and the block of its head.
pub fn store(alloc: Global, table: &Descriptor) -> Result<(SureDevice, Written), DescriptorFault> {
    let mut disk = zeros(alloc)?;
    let made = put(alloc, &mut disk, &mut to_take(8), table)?;
    Ok((disk, made))
}

/// The block in a place, or zeros.
pub fn block_at(disk: &SureDevice, at: u32) -> Block {
    match disk.blocks().get(at as usize) {
        Some(block) => *block,
        None => [0; 1024],
    }
}

/// A name of two letters by a number.
fn numbered(k: usize) -> Name {
    let letters = [b'a' + (k / 26 % 26) as u8, b'a' + (k % 26) as u8];
    match str::from_utf8(&letters) {
        Ok(text) => name(text),
        Err(_) => name("?"),
    }
}

/// A name; `?` where it is too long.
pub fn name(text: &str) -> Name {
    match Name::of(text) {
        Some(name) => name,
        None => question(),
    }
}

fn question() -> Name {
    match Name::of("?") {
        Some(name) => name,
        None => unreachable!(),
    }
}

fn object(root: u32) -> Ref {
    Ref { root, pages: 1 }
}

fn column(name: Name) -> ColumnPart {
    ColumnPart {
        name,
        kind: Kind::Int,
        null: true,
        form: 1,
        distinct: 2,
        cells: object(10),
        values: object(11),
    }
}

fn index(name: Name) -> IndexPart {
    IndexPart {
        spec: IndexSpec {
            name,
            kind: IndexKind::Hng,
            column: 0,
            second: None,
        },
        distinct: 0,
        first: object(12),
        second: Ref { root: 0, pages: 0 },
        third: object(13),
    }
}

/// A table of some columns of INT, with HNG indexes on the first.
pub fn table(
    alloc: Global,
    text: &str,
    columns: usize,
    indexes: usize,
) -> Result<Descriptor, AllocError> {
    let mut parts = Vec::new(alloc);
    for k in 0..columns {
        parts.push(column(numbered(k)))?;
    }
    let mut made = Vec::new(alloc);
    for k in 0..indexes {
        made.push(index(numbered(k)))?;
    }
    Ok(Descriptor {
        name: name(text),
        slots: 3,
        existence: object(9),
        columns: Listed::from_vec(parts),
        indexes: Listed::from_vec(made),
    })
}
