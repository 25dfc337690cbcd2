//! Writing an object anew, by maps that it shares with the old one where their pages are the same.
ghost use Rattle.iq_block_map.specs.declared.map_bytes.TheConstants.{ROOM};
ghost use Rattle.iq_base.specs.declared.sizes.TheConstants.{MOST_PAGES};
ghost use Rattle.std.specs.Prelude.{◌≡◌, ◌≢◌, ◌≤◌, ◌<◌, ◌*◌, ◌+◌, ◌-◌, ◌++◌, ℕ, List, [], Some, Ok, Err, length, slice_index, take, IfOk, IfErr, OnOk, IsTrue, IsFalse};
ghost use Rattle.iq_block_map.specs.Refs.{IsIn, WhereTold, IsPlace, HasPlaces};
ghost use Rattle.iq_block_map.specs.Objects.{leaf_count, used_in};
ghost use Rattle.iq_block_map.specs.Takers.{AreSpare};
ghost use Rattle.iq_block_map.specs.Writing.{HasPut};
ghost use Rattle.iq_block_map.specs.Editing.{replaced_from, AreChanges, AreBlocks, new_blocks, HasEdited, TellsBadMap, LacksMaps};
ghost use Rattle.iq_block_map.specs.Leaves.{below, padded, leaf_at, RewritesLeaf, RewritesLeaves, ReadsTouched, ReadsOne, IsBadPlace, IsBadOne, IsWrongLeaf, LacksOne, LacksLeaves, MakesTop, LacksTop};
ghost use Rattle.iq_block_map.specs.Causes.{IsEditFault, IsReadFault, IsPutFault};
ghost use Rattle.iq_block_store.specs.Looks.{HasLooked};
ghost use Rattle.std.specs.List.{prefix_len};

use crate::map_bytes::{Places, ROOM, payload_of};
use crate::reading::{leaf_count, leaves_of, read_map, used_in};
use crate::writing::put;
use crate::{MapFault, Taker};
use iq_base::Ref;
use iq_block_store::{MAP, count_of};
use iq_outside::Device;

/// A leaf of an object: its block, its first page, and how many pages it names.
#[derive(Clone, Copy, Debug)]
struct Leaf {
    at: u32,
    first: u32,
    used: usize,
}

/// Makes an object of another: some of its pages are in other blocks, by their numbers in ascending order, and some are added at
/// the end. Each map of the new object whose pages the old one has in the same place is shared. It takes a block for each other
/// map, reads and writes no map without need, and takes no memory.
pub fn remap<D: Device, T: Taker>(
    disk: &mut D,
    space: &mut T,
    old: Ref,
    changed: &[(u32, u32)],
    added: &[u32],
) -> Result<Ref, MapFault>
    requires object { IsIn (D.blocks disk.old) old }
    requires changes { AreChanges 0 old.pages changed.now }
    requires most { old.pages + length added.now ≤ MOST_PAGES }
    requires changed { AreBlocks (D.blocks disk.old) (new_blocks changed.now) }
    requires added { AreBlocks (D.blocks disk.old) added.now }
    requires spare { AreSpare (D.blocks disk.old) (T.left space.old) }
    ensures put { HasPut D.Device (T.left space.old) (T.left space.new) disk.old disk.new }
    ensures spare { AreSpare (D.blocks disk.new) (T.left space.new) }
    ensures most { length (T.left space.old)
        ≤ length (T.left space.new) + (leaf_count (old.pages + length added.now) + 1) }
    ensures ok { IfOk result (HasEdited (D.blocks disk.old) (D.blocks disk.new)
        old changed.now added.now (T.left space.old) (T.left space.new)) }
    ensures is_in { IfOk result (IsIn (D.blocks disk.new)) }
    ensures pages { IfOk result (λ new. new.pages ≡ old.pages + length added.now) }
    ensures cause { IfErr result (λ e. IsEditFault
        (TellsBadMap (D.blocks disk.old) (D.blocks disk.new) old changed.now added.now)
        (LacksMaps (D.blocks disk.old)
        old changed.now added.now (T.left space.old) (T.left space.new))
        e (D.faults disk.old) (D.faults disk.new)) }
{
    if is_untouched(changed, added) {
        return Ok(old);
    }
    rebuild(disk, space, old, changed, added)
}

/// The same where something changes.
fn rebuild<D: Device, T: Taker>(
    disk: &mut D,
    space: &mut T,
    old: Ref,
    changed: &[(u32, u32)],
    added: &[u32],
) -> Result<Ref, MapFault>
    requires object { IsIn (D.blocks disk.old) old }
    requires changes { AreChanges 0 old.pages changed.now }
    requires some { 1 ≤ length changed.now + length added.now }
    requires most { old.pages + length added.now ≤ MOST_PAGES }
    requires changed { AreBlocks (D.blocks disk.old) (new_blocks changed.now) }
    requires added { AreBlocks (D.blocks disk.old) added.now }
    requires spare { AreSpare (D.blocks disk.old) (T.left space.old) }
    ensures put { HasPut D.Device (T.left space.old) (T.left space.new) disk.old disk.new }
    ensures spare { AreSpare (D.blocks disk.new) (T.left space.new) }
    ensures most { length (T.left space.old)
        ≤ length (T.left space.new) + (leaf_count (old.pages + length added.now) + 1) }
    ensures ok { IfOk result (HasEdited (D.blocks disk.old) (D.blocks disk.new)
        old changed.now added.now (T.left space.old) (T.left space.new)) }
    ensures is_in { IfOk result (IsIn (D.blocks disk.new)) }
    ensures pages { IfOk result (λ new. new.pages ≡ old.pages + length added.now) }
    ensures cause { IfErr result (λ e. IsEditFault
        (TellsBadMap (D.blocks disk.old) (D.blocks disk.new) old changed.now added.now)
        (LacksMaps (D.blocks disk.old)
        old changed.now added.now (T.left space.old) (T.left space.new))
        e (D.faults disk.old) (D.faults disk.new)) }
{
    let count = count_of(disk)?;
    let before = leaves_of(disk, count, old)?;
    let leaves = rewrite_leaves(disk, space, count, old, &before, changed, added)?;
    let pages = old.pages + added.len() as u32;
    let root = top(disk, space, old, &before, &leaves, pages)?;
    Ok(Ref { root, pages })
}

/// The topmost map of so many pages with these leaves: the only leaf, the map that the object had, or one that is written.
fn top<D: Device, T: Taker>(
    disk: &mut D,
    space: &mut T,
    old: Ref,
    before: &Places,
    leaves: &Places,
    pages: u32,
) -> Result<u32, MapFault>
    requires object { IsIn (D.blocks disk.old) old }
    requires first { 1 ≤ pages → IsPlace (D.blocks disk.old) (slice_index leaves.now 0) }
    requires spare { AreSpare (D.blocks disk.old) (T.left space.old) }
    ensures put { HasPut D.Device (T.left space.old) (T.left space.new) disk.old disk.new }
    ensures spare { AreSpare (D.blocks disk.new) (T.left space.new) }
    ensures most { length (T.left space.old) ≤ length (T.left space.new) + 1 }
    ensures is_in { IfOk result (λ root. 1 ≤ pages → IsPlace (D.blocks disk.new) root) }
    ensures ok { IfOk result (MakesTop (D.blocks disk.old) (D.blocks disk.new)
        old before.now leaves.now pages (T.left space.old) (T.left space.new)) }
    ensures cause { IfErr result (λ e. IsPutFault
        (LacksTop old pages before.now leaves.now (T.left space.old) (T.left space.new))
        e (D.faults disk.old) (D.faults disk.new)) }
{
    if pages <= 252 {
        return Ok(leaves[0]);
    }
    if keeps_leaves(old, before, leaves) {
        return Ok(old.root);
    }
    put(disk, space, MAP, 2, &payload_of(leaves))
}

/// Whether an object that has a map above its leaves keeps them.
fn keeps_leaves(old: Ref, before: &Places, leaves: &Places) -> bool
    ensures yes { IsTrue result → (ROOM < old.pages) × (leaves.now ≡ before.now) }
    ensures no { IsFalse result → ROOM < old.pages → leaves.now ≢ before.now }
{
    old.pages > 252 && leaves == before
}

/// The leaves of an object with some pages in other blocks and some added, by the leaves that it had.
fn rewrite_leaves<D: Device, T: Taker>(
    disk: &mut D,
    space: &mut T,
    count: u32,
    old: Ref,
    before: &Places,
    changed: &[(u32, u32)],
    added: &[u32],
) -> Result<Places, MapFault>
    requires count { WhereTold (D.blocks disk.old) (λ all. count ≡ length all) }
    requires before { HasPlaces (D.blocks disk.old) (leaf_count old.pages) before.now }
    requires changes { AreChanges 0 old.pages changed.now }
    requires most { old.pages + length added.now ≤ MOST_PAGES }
    requires changed { AreBlocks (D.blocks disk.old) (new_blocks changed.now) }
    requires added { AreBlocks (D.blocks disk.old) added.now }
    requires spare { AreSpare (D.blocks disk.old) (T.left space.old) }
    ensures put { HasPut D.Device (T.left space.old) (T.left space.new) disk.old disk.new }
    ensures spare { AreSpare (D.blocks disk.new) (T.left space.new) }
    ensures most { length (T.left space.old)
        ≤ length (T.left space.new) + leaf_count (old.pages + length added.now) }
    ensures ok { IfOk result (RewritesLeaves (D.blocks disk.old) (D.blocks disk.new)
        old changed.now added.now (T.left space.old) (T.left space.new) before.now) }
    ensures first { IfOk result (λ leaves. 1 ≤ old.pages + length added.now
        → IsPlace (D.blocks disk.new) (slice_index leaves 0)) }
    ensures read { OnOk result (ReadsTouched (D.blocks disk.old)
        old before.now changed.now added.now (T.left space.old)) }
    ensures cause { IfErr result (λ e. IsEditFault
        (λ b. WhereTold (D.blocks disk.new) (IsBadPlace old before.now changed.now added.now b))
        (LacksLeaves (D.blocks disk.old)
        old before.now changed.now added.now (T.left space.old) (T.left space.new))
        e (D.faults disk.old) (D.faults disk.new)) }
{
    let mut leaves = *before;
    let mut to_change = changed;
    let mut to_add = added;
    for k in 0..leaf_count(old.pages + added.len() as u32) {
        let leaf = Leaf {
            at: leaves[k as usize],
            first: 252 * k,
            used: used_in(old.pages, k),
        };
        let (here, later) = to_change.split_at(count_below(to_change, 252 * (k + 1)));
        let (more, rest) = to_add.split_at(to_add.len().min(ROOM - leaf.used));
        leaves[k as usize] = rewrite_leaf(disk, space, count, leaf, here, more)?;
        to_change = later;
        to_add = rest;
    }
    Ok(leaves)
}

/// How many changes are of pages below one.
fn count_below(changed: &[(u32, u32)], end: u32) -> usize
    ensures { result ≡ prefix_len (below end) changed.now }
{
    changed.iter().take_while(|c| c.0 < end).count()
}

/// A leaf with some of its pages in other blocks and some added: itself where that changes nothing, else one that is written.
fn rewrite_leaf<D: Device, T: Taker>(
    disk: &mut D,
    space: &mut T,
    count: u32,
    leaf: Leaf,
    here: &[(u32, u32)],
    more: &[u32],
) -> Result<u32, MapFault>
    requires count { WhereTold (D.blocks disk.old) (λ all. count ≡ length all) }
    requires leaf { 1 ≤ leaf.used → IsPlace (D.blocks disk.old) leaf.at }
    requires room { leaf.used + length more.now ≤ ROOM }
    requires here { AreChanges leaf.first (leaf.first + leaf.used) here.now }
    requires more { AreBlocks (D.blocks disk.old) more.now }
    requires spare { AreSpare (D.blocks disk.old) (T.left space.old) }
    ensures put { HasPut D.Device (T.left space.old) (T.left space.new) disk.old disk.new }
    ensures spare { AreSpare (D.blocks disk.new) (T.left space.new) }
    ensures most { length (T.left space.old) ≤ length (T.left space.new) + 1 }
    ensures ok { IfOk result (RewritesLeaf (D.blocks disk.old) (D.blocks disk.new)
        leaf.used leaf.at leaf.first here.now more.now (T.left space.old) (T.left space.new)) }
    ensures is_in { IfOk result (λ made. 1 ≤ leaf.used + length more.now
        → IsPlace (D.blocks disk.new) made) }
    ensures read { OnOk result
        (ReadsOne (D.blocks disk.old) leaf.used leaf.at here.now more.now) }
    ensures cause { IfErr result (λ e. IsEditFault
        (λ b. WhereTold (D.blocks disk.new) (IsBadOne leaf.used leaf.at here.now more.now b))
        (LacksOne (D.blocks disk.old) leaf.used leaf.at leaf.first here.now more.now
        (T.left space.old) (T.left space.new))
        e (D.faults disk.old) (D.faults disk.new)) }
{
    if is_untouched(here, more) {
        return Ok(leaf.at);
    }
    let before = read_leaf(disk, count, leaf)?;
    let places = edit(&before, leaf, here, more);
    if keeps_pages(leaf.used, &before, &places) {
        return Ok(leaf.at);
    }
    put(disk, space, MAP, 1, &payload_of(&places))
}

/// Whether there are no changes and no pages more.
fn is_untouched(here: &[(u32, u32)], more: &[u32]) -> bool
    ensures yes { IsTrue result → length here.now + length more.now ≡ 0 }
    ensures no { IsFalse result → 1 ≤ length here.now + length more.now }
{
    here.is_empty() && more.is_empty()
}

/// Whether a leaf of so many pages keeps them.
fn keeps_pages(used: usize, before: &Places, places: &Places) -> bool
    ensures yes { IsTrue result → (1 ≤ used) × (places.now ≡ before.now) }
    ensures no { IsFalse result → 1 ≤ used → places.now ≢ before.now }
{
    used > 0 && places == before
}

/// The numbers of a leaf. One of no pages has zeros.
#[tactic(auto, using(crate::proofs::LeafLemmas::padded_of))]
fn read_leaf<D: Device>(disk: &mut D, count: u32, leaf: Leaf) -> Result<Places, MapFault>
    requires count { WhereTold (D.blocks disk.old) (λ all. count ≡ length all) }
    requires leaf { WhereTold (D.blocks disk.old) (λ all. 1 ≤ leaf.used → leaf.at < length all) }
    requires used { leaf.used ≤ ROOM }
    ensures looked { HasLooked D.Device disk.old disk.new }
    ensures ok { IfOk result (λ ps. WhereTold (D.blocks disk.old)
        (λ all. leaf_at all leaf.used leaf.at ≡ Ok (take leaf.used ps))) }
    ensures padded { IfOk result (λ ps. ps ≡ padded (take leaf.used ps)) }
    ensures cause { IfErr result (λ e. IsReadFault (IsWrongLeaf leaf.used leaf.at)
        e (D.blocks disk.old) (D.faults disk.old) (D.faults disk.new)) }
{
    if leaf.used == 0 {
        return Ok([0; ROOM]);
    }
    read_map(disk, count, 1, leaf.used, leaf.at)
}

/// The numbers of a leaf with some replaced and others behind those in use.
fn edit(before: &Places, leaf: Leaf, here: &[(u32, u32)], more: &[u32]) -> Places
    requires room { leaf.used + length more.now ≤ ROOM }
    requires here { AreChanges leaf.first (leaf.first + leaf.used) here.now }
    ensures { (xs : List ℕ) → length xs ≡ leaf.used → before.now ≡ padded xs
        → result ≡ padded (replaced_from leaf.first xs here.now ++ more.now) }
{
    let mut places = *before;
    for change in here {
        places[(change.0 - leaf.first) as usize] = change.1;
    }
    places[leaf.used..leaf.used + more.len()].copy_from_slice(more);
    places
}
