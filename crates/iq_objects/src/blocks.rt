//! Blocks of an opened object: taken, written, read and left behind.
ghost use Rattle.iq_block_map.specs.declared.map_bytes.TheConstants.{ROOM};
ghost use Rattle.iq_base.specs.declared.sizes.TheConstants.{MOST_PAGES};
ghost use Rattle.std.specs.Prelude.{◌≡◌, ◌≤◌, ◌<◌, ◌+◌, ◌*◌, ◌-◌, ◌^◌, ◌++◌, ℕ, false, ◌∷◌, List, [], Some, Ok, Err, length, take, drop, slice_index, slice_set, IfOk, IfErr, OnOk, OnErr};
ghost use Rattle.std.specs.List.{All};
ghost use Rattle.iq_block_store.specs.Frames.{framed};
ghost use Rattle.iq_block_store.specs.Looks.{HasLooked};
ghost use Rattle.iq_roomed.specs.Rooms.{Becomes};
ghost use Rattle.iq_block_map.specs.Maps.{is_address};
ghost use Rattle.iq_block_map.specs.Objects.{leaf_count, used_in, map_at, listed};
ghost use Rattle.iq_block_map.specs.Refs.{WhereTold, HasPlaces, IsPlace};
ghost use Rattle.iq_block_map.specs.Takers.{AreSpare, taken_of};
ghost use Rattle.iq_block_map.specs.Writing.{HasPut};
ghost use Rattle.iq_block_map.specs.Editing.{piece};
ghost use Rattle.iq_block_map.specs.Leaves.{padded};
ghost use Rattle.iq_block_map.specs.Causes.{IsPutFault, NoneLeft, IsWalkFault};
ghost use Rattle.iq_block_map.specs.declared.faults.MapFault.TheVariants.{NoMemory};
ghost use Rattle.iq_objects.specs.Open.{written, leaves_in};

use iq_base::Ref;
use iq_block_map::{MapFault, Places, ROOM, Taker, leaf_count, read_map, used_in};
use iq_block_store::{BlockFault, Page, write};
use iq_outside::Device;
use iq_roomed::Roomed;

/// Takes a block and writes it. A block that was taken and not written is lost.
pub(crate) fn put<D: Device, T: Taker>(
    disk: &mut D,
    space: &mut T,
    lost: &mut Roomed<u32>,
    kind: u8,
    level: u32,
    payload: &Page,
) -> Result<u32, MapFault>
    requires spare { AreSpare (D.blocks disk.old) (T.left space.old) }
    requires room { 0 < lost.old.room }
    ensures put { HasPut D.Device (T.left space.old) (T.left space.new) disk.old disk.new }
    ensures spare { AreSpare (D.blocks disk.new) (T.left space.new) }
    ensures is_in { IfOk result (IsPlace (D.blocks disk.new)) }
    ensures fits { IfOk result (λ at. at < 2 ^ 32) }
    ensures left { IfOk result (λ at. T.left space.old ≡ at ∷ T.left space.new) }
    ensures block { IfOk result (λ at. (all : List (List ℕ)) → D.blocks disk.old ≡ Some all
        → D.blocks disk.new ≡ Some (slice_set all at (framed kind at level payload.now))) }
    ensures same { OnOk result (lost.new ≡ lost.old) }
    ensures lost { OnErr result
        (lost.new.items ≡ lost.old.items ++ taken_of (T.left space.old) (T.left space.new)) }
    ensures cause { IfErr result (λ e. IsPutFault (NoneLeft (T.left space.old) (T.left space.new))
        e (D.faults disk.old) (D.faults disk.new)) }
{
    let Some(at) = space.take() else {
        return Err(MapFault::NoSpace);
    };
    match write(disk, at, kind, level, payload) {
        Ok(()) => Ok(at),
        Err(BlockFault::StoreFault { before, after }) => {
            lost.push(at);
            Err(MapFault::StoreFault { before, after })
        }
        Err(BlockFault::BadHeader { .. }) => unreachable!(),
    }
}

/// Makes room for so many blocks more.
pub(crate) fn make_room(list: &mut Roomed<u32>, n: usize) -> Result<(), MapFault>
    ensures ok { OnOk result (n ≤ list.new.room) }
    ensures same { Becomes list.old list.old.items list.new }
    ensures cause { IfErr result (λ e. e ≡ NoMemory) }
{
    match list.reserve(n) {
        Ok(()) => Ok(()),
        Err(_) => Err(MapFault::NoMemory),
    }
}

/// Puts blocks to those that are lost. A 0 stands for no block.
pub(crate) fn leave(lost: &mut Roomed<u32>, blocks: &[u32])
    requires { length blocks.now ≤ lost.old.room }
    ensures lost { Becomes lost.old (lost.old.items ++ written blocks.now) lost.new }
    ensures room { lost.old.room ≤ lost.new.room + length blocks.now }
{
    for block in blocks {
        if *block > 0 {
            lost.push(*block);
        }
    }
}

/// The block in a place of a list, or 0 behind its end.
pub(crate) fn block_in(list: &[u32], place: usize) -> u32
    ensures { result ≡ slice_index list.now place }
{
    match list.get(place) {
        Some(block) => *block,
        None => 0,
    }
}

/// The pages that a leaf names, of those of an object.
pub(crate) fn piece_of(pages: &[u32], k: usize) -> &[u32]
    requires { ROOM * k ≤ length pages.now }
    ensures { result.now ≡ piece k pages.now }
{
    let rest = pages.split_at(252 * k).1;
    rest.split_at(rest.len().min(252)).0
}

/// The numbers of a map that names these.
pub(crate) fn padded(named: &[u32]) -> Places
    requires { length named.now ≤ ROOM }
    ensures { result ≡ padded named.now }
{
    let mut places = [0; ROOM];
    places[0..named.len()].copy_from_slice(named);
    places
}

/// The pages that leaves name, each of which is read once.
pub(crate) fn read_leaves<D: Device>(
    disk: &mut D,
    count: u32,
    pages: u32,
    leaves: &Places,
    into: &mut Roomed<u32>,
) -> Result<(), MapFault>
    requires few { pages ≤ MOST_PAGES }
    requires count { WhereTold (D.blocks disk.old) (λ all. count ≡ length all) }
    requires leaves { HasPlaces (D.blocks disk.old) (leaf_count pages) leaves.now }
    requires room { pages ≤ into.old.room }
    requires none { into.old.items ≡ [] }
    ensures looked { HasLooked D.Device disk.old disk.new }
    ensures ok { OnOk result (WhereTold (D.blocks disk.old)
        (λ all. listed false all pages (take (leaf_count pages) leaves.now) ≡ Ok into.new.items)) }
    ensures size { OnOk result (length into.new.items ≡ pages) }
    ensures above { OnOk result (All (λ a. 4 ≤ a) into.new.items) }
    ensures cause { IfErr result (λ e. IsWalkFault
        (λ b all. listed false all pages (take (leaf_count pages) leaves.now) ≡ Err b)
        e (D.blocks disk.old) (D.faults disk.old) (D.faults disk.new)) }
{
    for k in 0..leaf_count(pages) {
        let used = used_in(pages, k);
        let leaf = read_map(disk, count, 1, used, leaves[k as usize])?;
        put_all(into, leaf.split_at(used).0);
    }
    Ok(())
}

/// The leaves of an object: its root, where that is the only one, or those that the map above them names.
pub(crate) fn put_leaves(list: &mut Roomed<u32>, object: Ref, named: &Places)
    requires few { object.pages ≤ MOST_PAGES }
    requires room { leaf_count object.pages ≤ list.old.room }
    requires none { list.old.items ≡ [] }
    ensures { list.new.items ≡ leaves_in object named.now }
{
    if object.pages > 252 {
        put_all(list, named.split_at(leaf_count(object.pages) as usize).0);
    } else if object.pages > 0 {
        list.push(object.root);
    }
}

/// The map above the leaves of an object, or 0 where there is none.
pub(crate) fn top_of(object: Ref) -> u32
    ensures high { ROOM < object.pages → result ≡ object.root }
    ensures low { object.pages ≤ ROOM → result ≡ 0 }
{
    if object.pages > 252 { object.root } else { 0 }
}

/// Puts blocks at the end of a list.
pub(crate) fn put_all(list: &mut Roomed<u32>, blocks: &[u32])
    requires { length blocks.now ≤ list.old.room }
    ensures { Becomes list.old (list.old.items ++ blocks.now) list.new }
{
    for block in blocks {
        list.push(*block);
    }
}
