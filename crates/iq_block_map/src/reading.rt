//! Reading objects.
ghost use Rattle.iq_block_map.specs.declared.map_bytes.TheConstants.{ROOM};
ghost use Rattle.iq_base.specs.declared.sizes.TheConstants.{MOST_PAGES};
ghost use Rattle.std.specs.Prelude.{◌≡◌, ◌≤◌, ◌<◌, ◌^◌, ◌*◌, ◌+◌, ◌-◌, ◌++◌, ℕ, true, false, List, Some, Ok, Err, length, slice_index, take, IfOk, IfErr, OnOk};
ghost use Rattle.iq_block_store.specs.Looks.{HasLooked};
ghost use Rattle.iq_block_map.specs.Maps.{IsRawMap, is_address};
ghost use Rattle.iq_block_map.specs.Objects.{leaf_count, used_in, map_at, leaves_of, maps_of, addresses_of, blocks_of, walked, front, IsPageAt, HoldsPage};
ghost use Rattle.iq_block_map.specs.Causes.{IsRawFault, IsReadFault, IsWalkFault, IsWrongMap, IsNoPage, IsBadOnWay};
ghost use Rattle.iq_block_map.specs.declared.faults.MapFault.TheVariants.{NoMemory};
ghost use Rattle.iq_block_map.specs.Editing.{maps_needed};
ghost use Rattle.iq_block_map.specs.Refs.{IsIn, WhereTold, MayBe, HasPlaces};

use crate::MapFault;
use crate::map_bytes::{Places, ROOM, RawMap, is_right_map, raw_map_of};
use iq_base::Ref;
use iq_block_store::{BlockFault, MAP, PAGE, Page, count_of, read};
use iq_outside::Device;
use std::alloc::Global;

/// How many leaves so many pages take.
pub fn leaf_count(pages: u32) -> u32
    requires { pages ≤ MOST_PAGES }
    ensures { result ≡ leaf_count pages }
{
    (pages + 251) / 252
}

/// The most maps that an object of so many pages has, and so the most blocks that a `remap` takes for one.
pub fn most_maps(pages: u32) -> u32
    requires { pages ≤ MOST_PAGES }
    ensures most { result ≡ leaf_count pages + 1 }
    ensures enough { (xs ys : List ℕ) → length ys ≡ pages → maps_needed xs ys ≤ result }
{
    leaf_count(pages) + 1
}

/// How many pages a leaf names, of so many.
pub fn used_in(pages: u32, k: u32) -> usize
    requires { k ≤ ROOM }
    ensures { result ≡ used_in pages k }
{
    let used = pages.saturating_sub(252 * k).min(252);
    used as usize
}

/// Reads a map of a level with so many numbers in use.
pub fn read_map<D: Device>(
    disk: &mut D,
    count: u32,
    level: u32,
    used: usize,
    at: u32,
) -> Result<Places, MapFault>
    requires used { used ≤ ROOM }
    requires told { WhereTold (D.blocks disk.old)
        (λ all. (count ≡ length all) × (at < length all)) }
    ensures looked { HasLooked D.Device disk.old disk.new }
    ensures ok { IfOk result (λ ps. WhereTold (D.blocks disk.old)
        (λ all. map_at all level used at ≡ Ok (take used ps))) }
    ensures places { IfOk result (λ ps. MayBe count used ps) }
    ensures cause { IfErr result (λ e. IsReadFault (IsWrongMap level used at)
        e (D.blocks disk.old) (D.faults disk.old) (D.faults disk.new)) }
{
    match read_raw_map(disk, at) {
        Ok(raw) if is_right_map(count, level, used, &raw) => Ok(raw.numbers),
        Ok(_) | Err(BlockFault::BadHeader { .. }) => Err(MapFault::BadMap { block: at }),
        Err(BlockFault::StoreFault { before, after }) => Err(MapFault::StoreFault {
            before,
            after,
        }),
    }
}

/// Reads the level and the numbers of a map, and tests none of them: for one who tells apart what may be wrong with a map. It reads
/// one block, and takes no memory. `BadHeader` comes where the block isn't a map of its place.
pub fn read_raw_map<D: Device>(disk: &mut D, at: u32) -> Result<RawMap, BlockFault>
    requires { WhereTold (D.blocks disk.old) (λ all. at < length all) }
    ensures looked { HasLooked D.Device disk.old disk.new }
    ensures ok { IfOk result (λ raw. WhereTold (D.blocks disk.old)
        (λ all. IsRawMap raw at all)) }
    ensures cause { IfErr result (λ e. IsRawFault e at
        (D.blocks disk.old) (D.faults disk.old) (D.faults disk.new)) }
{
    let mut block = [0; 1024];
    read(disk, at, MAP, &mut block)?;
    Ok(raw_map_of(&block))
}

/// The leaves of an object. The numbers behind them are zero.
pub fn leaves_of<D: Device>(disk: &mut D, count: u32, object: Ref) -> Result<Places, MapFault>
    requires object { IsIn (D.blocks disk.old) object }
    requires count { WhereTold (D.blocks disk.old) (λ all. count ≡ length all) }
    ensures looked { HasLooked D.Device disk.old disk.new }
    ensures ok { IfOk result (λ ps. WhereTold (D.blocks disk.old)
        (λ all. leaves_of all object ≡ Ok (take (leaf_count object.pages) ps))) }
    ensures places { IfOk result (HasPlaces (D.blocks disk.old) (leaf_count object.pages)) }
    ensures cause { IfErr result (λ e. IsReadFault (λ b all. leaves_of all object ≡ Err b)
        e (D.blocks disk.old) (D.faults disk.old) (D.faults disk.new)) }
{
    if object.pages <= 252 {
        return Ok(only_leaf(object));
    }
    read_map(
        disk,
        count,
        2,
        leaf_count(object.pages) as usize,
        object.root,
    )
}

/// The leaf of an object of at most 252 pages.
fn only_leaf(object: Ref) -> Places
    requires { object.pages ≤ ROOM }
    ensures root { 1 ≤ object.pages → slice_index result 0 ≡ object.root }
    ensures places { (count : ℕ) → (1 ≤ object.pages → is_address count object.root ≡ true)
        → MayBe count (leaf_count object.pages) result }
    ensures leaves { (all : List (List ℕ))
        → leaves_of all object ≡ Ok (take (leaf_count object.pages) result) }
{
    let mut leaves = [0; ROOM];
    if object.pages > 0 {
        leaves[0] = object.root;
    }
    leaves
}

/// Reads a page and answers its block. It takes no memory.
pub fn page<D: Device>(disk: &mut D, object: Ref, n: u32, into: &mut Page) -> Result<u32, MapFault>
    requires object { IsIn (D.blocks disk.old) object }
    requires page { n < object.pages }
    ensures looked { HasLooked D.Device disk.old disk.new }
    ensures ok { IfOk result (λ at. WhereTold (D.blocks disk.old)
        (λ all. IsPageAt object n at into.new all)) }
    ensures cause { IfErr result (λ e. IsReadFault (IsBadOnWay object n)
        e (D.blocks disk.old) (D.faults disk.old) (D.faults disk.new)) }
{
    let count = count_of(disk)?;
    let leaves = leaves_of(disk, count, object)?;
    let k = n / 252;
    let leaf = read_map(disk, count, 1, used_in(object.pages, k), leaves[k as usize])?;
    let at = leaf[(n % 252) as usize];
    read_page(disk, at, into)?;
    Ok(at)
}

/// Reads the page in a block. It reads that block alone, and takes no memory. `BadMap` names the block where it isn't a page of its
/// place.
pub fn read_page<D: Device>(disk: &mut D, at: u32, into: &mut Page) -> Result<(), MapFault>
    requires { WhereTold (D.blocks disk.old) (λ all. at < length all) }
    ensures looked { HasLooked D.Device disk.old disk.new }
    ensures ok { OnOk result (WhereTold (D.blocks disk.old) (HoldsPage into.new at)) }
    ensures cause { IfErr result (λ e. IsReadFault (IsNoPage at)
        e (D.blocks disk.old) (D.faults disk.old) (D.faults disk.new)) }
{
    let mut block = [0; 1024];
    match read(disk, at, PAGE, &mut block) {
        Ok(()) => {
            into.copy_from_slice(block.split_at(16).1);
            Ok(())
        }
        Err(BlockFault::BadHeader { .. }) => Err(MapFault::BadMap { block: at }),
        Err(BlockFault::StoreFault { before, after }) => Err(MapFault::StoreFault {
            before,
            after,
        }),
    }
}

/// The blocks of an object's pages, in order. It reads each map of the object once and no page: one block for up to 252 pages,
/// else one for each 252 pages begun and one more.
pub fn addresses<D: Device>(alloc: Global, disk: &mut D, object: Ref) -> Result<Vec<u32>, MapFault>
    requires object { IsIn (D.blocks disk.old) object }
    ensures looked { HasLooked D.Device disk.old disk.new }
    ensures ok { IfOk result (λ xs. WhereTold (D.blocks disk.old)
        (λ all. addresses_of all object ≡ Ok xs.items)) }
    ensures cause { IfErr result (λ e. IsWalkFault (λ b all. addresses_of all object ≡ Err b)
        e (D.blocks disk.old) (D.faults disk.old) (D.faults disk.new)) }
{
    walk(alloc, disk, object, false)
}

/// The blocks that an object reaches, each map before what it names. It reads each map of the object once and no page.
pub fn blocks<D: Device>(alloc: Global, disk: &mut D, object: Ref) -> Result<Vec<u32>, MapFault>
    requires object { IsIn (D.blocks disk.old) object }
    ensures looked { HasLooked D.Device disk.old disk.new }
    ensures ok { IfOk result (λ xs. WhereTold (D.blocks disk.old)
        (λ all. blocks_of all object ≡ Ok xs.items)) }
    ensures cause { IfErr result (λ e. IsWalkFault (λ b all. blocks_of all object ≡ Err b)
        e (D.blocks disk.old) (D.faults disk.old) (D.faults disk.new)) }
{
    walk(alloc, disk, object, true)
}

/// The maps of an object, the topmost one before its leaves. It reads one block where there are more than 252 pages, else none.
pub fn maps<D: Device>(alloc: Global, disk: &mut D, object: Ref) -> Result<Vec<u32>, MapFault>
    requires object { IsIn (D.blocks disk.old) object }
    ensures looked { HasLooked D.Device disk.old disk.new }
    ensures ok { IfOk result (λ bs. WhereTold (D.blocks disk.old)
        (λ all. maps_of all object ≡ Ok bs.items)) }
    ensures cause { IfErr result (λ e. IsWalkFault (λ b all. maps_of all object ≡ Err b)
        e (D.blocks disk.old) (D.faults disk.old) (D.faults disk.new)) }
{
    let count = count_of(disk)?;
    let leaves = leaves_of(disk, count, object)?;
    let mut maps = Vec::with_capacity(alloc, most_maps(object.pages) as usize)?;
    let named = leaves.split_at(leaf_count(object.pages) as usize).0;
    put_leaf(&mut maps, object.pages > 252, object.root, named)?;
    Ok(maps)
}

/// The blocks of an object's pages, and where they are wanted its maps, each before what it names.
fn walk<D: Device>(
    alloc: Global,
    disk: &mut D,
    object: Ref,
    maps: bool,
) -> Result<Vec<u32>, MapFault>
    requires object { IsIn (D.blocks disk.old) object }
    ensures looked { HasLooked D.Device disk.old disk.new }
    ensures ok { IfOk result (λ xs. WhereTold (D.blocks disk.old)
        (λ all. walked maps all object ≡ Ok xs.items)) }
    ensures cause { IfErr result (λ e. IsWalkFault (λ b all. walked maps all object ≡ Err b)
        e (D.blocks disk.old) (D.faults disk.old) (D.faults disk.new)) }
{
    let count = count_of(disk)?;
    let leaves = leaves_of(disk, count, object)?;
    let most = object.pages + most_maps(object.pages);
    let mut blocks = Vec::with_capacity(alloc, most as usize)?;
    if maps && object.pages > 252 {
        blocks.push(object.root)?;
    }
    for k in 0..leaf_count(object.pages) {
        let used = used_in(object.pages, k);
        let leaf = read_map(disk, count, 1, used, leaves[k as usize])?;
        put_leaf(&mut blocks, maps, leaves[k as usize], leaf.split_at(used).0)?;
    }
    Ok(blocks)
}

/// Puts the blocks that a leaf names at the end, behind the leaf itself where maps are wanted.
fn put_leaf(blocks: &mut Vec<u32>, maps: bool, leaf: u32, named: &[u32]) -> Result<(), MapFault>
    ensures ok { OnOk result
        (blocks.new.items ≡ blocks.old.items ++ (front maps leaf ++ named.now)) }
    ensures cause { IfErr result (λ e. e ≡ NoMemory) }
{
    if maps {
        blocks.push(leaf)?;
    }
    blocks.extend_from_slice(named)?;
    Ok(())
}
