//! An object that was opened.
ghost use Rattle.iq_block_map.specs.declared.map_bytes.TheConstants.{ROOM};
ghost use Rattle.iq_base.specs.declared.sizes.TheConstants.{MOST_PAGES};
ghost use Rattle.std.specs.Prelude.{◌≡◌, ◌≤◌, ◌<◌, ◌+◌, ◌^◌, ◌++◌, ℕ, false, Option, List, [], ◌∷◌, Ok, Err, length, slice_index, slice_set, IfOk, IfErr, OnOk, OnErr};
ghost use Rattle.iq_block_store.specs.Looks.{HasLooked};
ghost use Rattle.iq_block_map.specs.Objects.{addresses_of, HoldsPage};
ghost use Rattle.iq_block_map.specs.Refs.{IsIn, WhereTold};
ghost use Rattle.iq_block_map.specs.Takers.{AreSpare};
ghost use Rattle.iq_block_map.specs.Writing.{HasPut, holds};
ghost use Rattle.iq_block_map.specs.Laws.{times};
ghost use Rattle.iq_block_map.specs.declared.faults.MapFault.TheVariants.{NoMemory};
ghost use Rattle.iq_block_map.specs.Causes.{IsReadFault, IsWalkFault, IsNoPage, NoneLeft};
ghost use Rattle.iq_block_map.specs.Editing.{AreBlocks};
ghost use Rattle.iq_objects.specs.Open.{IsHeld, Stands, Moves, with_page, with_more, cleared, ref_of, unwritten};
ghost use Rattle.iq_objects.specs.Opened.{IsOpened, IsClosed};
ghost use Rattle.iq_objects.specs.Changes.{ChangesContents, TakesFor, LosesTaken, IsWriteFault, LacksWrites, LacksLeaves, WritesMaps};

use crate::blocks::{
    block_in, leave, make_room, padded, piece_of, put, put_leaves, read_leaves, top_of,
};
use iq_base::Ref;
use iq_block_map::{MapFault, Taker, leaf_count, leaves_of, payload_of, read_page};
use iq_block_store::{MAP, PAGE, Page, count_of};
use iq_outside::Device;
use iq_roomed::Roomed;
use std::alloc::Global;
use std::marker::Model;

/// The blocks of an object, as a statement changes it. A map that no longer says its pages is left behind at once, and written anew
/// when the object is closed, however many of its pages change.
#[derive(Debug, Drop)]
pub struct OpenObject {
    pages: Roomed<u32>,
    leaves: Roomed<u32>,
    top: u32,
    lost: Roomed<u32>,
}

impl Model for OpenObject {
    ghost use Rattle.iq_objects.specs.Open.{Held, IsHeld};

    ghost Value = { Held };

    ghost view = { λ o. record { pages = o.pages.items; leaves = o.leaves.items; top = o.top; lost = o.lost.items } };

    ghost invariant = { λ o. IsHeld (record { pages = o.pages.items; leaves = o.leaves.items; top = o.top; lost = o.lost.items }) };
}

impl OpenObject {
    /// An object without pages. It takes no memory.
    pub fn empty(alloc: Global) -> OpenObject
        ensures is { result ≡ record { pages = []; leaves = []; top = 0; lost = [] } }
        ensures stands { (told : Option (List (List ℕ))) (left : List ℕ) → AreSpare told left
            → (all : List (List ℕ)) → length all < 2 ^ 32 → Stands left result all }
    {
        OpenObject {
            pages: Roomed::new(alloc),
            leaves: Roomed::new(alloc),
            top: 0,
            lost: Roomed::new(alloc),
        }
    }

    /// Opens the object of a reference. It reads each map once and no page: one block for up to 252 pages, else one for each 252 pages
    /// begun and one more. `BadMap` names the first map that isn't right.
    pub fn open<D: Device>(alloc: Global, disk: &mut D, object: Ref) -> Result<OpenObject, MapFault>
        requires object { IsIn (D.blocks disk.old) object }
        ensures looked { HasLooked D.Device disk.old disk.new }
        ensures ok { IfOk result (λ o. WhereTold (D.blocks disk.old) (IsOpened object o)) }
        ensures size { IfOk result (λ o. length o.pages ≡ object.pages) }
        ensures root { IfOk result (λ o. 1 ≤ object.pages → ref_of o ≡ object) }
        ensures settled { IfOk result (λ o. unwritten o ≡ 0) }
        ensures lost { IfOk result (λ o. o.lost ≡ []) }
        ensures inside { IfOk result (λ o. AreBlocks (D.blocks disk.old) o.pages) }
        ensures cause { IfErr result (λ e. IsWalkFault (λ b all. addresses_of all object ≡ Err b)
            e (D.blocks disk.old) (D.faults disk.old) (D.faults disk.new)) }
    {
        let count = count_of(disk)?;
        let named = leaves_of(disk, count, object)?;
        let mut pages = Roomed::new(alloc);
        let mut leaves = Roomed::new(alloc);
        make_room(&mut pages, object.pages as usize)?;
        make_room(&mut leaves, leaf_count(object.pages) as usize)?;
        read_leaves(disk, count, object.pages, &named, &mut pages)?;
        put_leaves(&mut leaves, object, &named);
        Ok(OpenObject {
            pages,
            leaves,
            top: top_of(object),
            lost: Roomed::new(alloc),
        })
    }

    /// How many pages it has.
    pub fn len(&self) -> usize
        ensures pages { result ≡ length self.now.pages }
        ensures most { result ≤ MOST_PAGES }
    {
        self.pages.len()
    }

    /// The blocks that it lost: those that its pages and maps left, and those that were taken and not written.
    pub fn lost(&self) -> &[u32]
        ensures { result.now ≡ self.now.lost }
    {
        self.lost.as_slice()
    }

    /// Reads a page. It reads that block alone, and takes no memory. `BadMap` names the block where it isn't a page of its place.
    pub fn page<D: Device>(&self, disk: &mut D, n: u32, into: &mut Page) -> Result<(), MapFault>
        requires page { n < length self.now.pages }
        requires inside { AreBlocks (D.blocks disk.old) self.now.pages }
        ensures looked { HasLooked D.Device disk.old disk.new }
        ensures ok { OnOk result (WhereTold (D.blocks disk.old)
            (HoldsPage into.new (slice_index self.now.pages n))) }
        ensures cause { IfErr result (λ e. IsReadFault (IsNoPage (slice_index self.now.pages n))
            e (D.blocks disk.old) (D.faults disk.old) (D.faults disk.new)) }
    {
        read_page(disk, self.pages.as_slice()[n as usize], into)
    }

    /// Writes a page anew, into a block that is taken for it. One block is written, and the one that the page left is lost, with the
    /// maps that named it. Room for the lost blocks is made before one is taken.
    pub fn set_page<D: Device, T: Taker>(
        &mut self,
        disk: &mut D,
        space: &mut T,
        n: u32,
        from: &Page,
    ) -> Result<(), MapFault>
        requires page { n < length self.old.pages }
        requires spare { AreSpare (D.blocks disk.old) (T.left space.old) }
        requires stands { WhereTold (D.blocks disk.old) (Stands (T.left space.old) self.old) }
        ensures put { HasPut D.Device (T.left space.old) (T.left space.new) disk.old disk.new }
        ensures spare { AreSpare (D.blocks disk.new) (T.left space.new) }
        ensures ok { OnOk result (TakesFor (with_page n) (T.left space.old) self.old self.new) }
        ensures err { OnErr result
            (LosesTaken (T.left space.old) (T.left space.new) self.old self.new) }
        ensures stands { WhereTold (D.blocks disk.new) (Stands (T.left space.new) self.new) }
        ensures moves { Moves (T.left space.old) (T.left space.new) self.old self.new }
        ensures content { OnOk result (ChangesContents (D.blocks disk.old) (D.blocks disk.new)
            (λ ps. slice_set ps n from.now) self.old self.new) }
        ensures cause { IfErr result (λ e. IsWriteFault
            (NoneLeft (T.left space.old) (T.left space.new))
            e (D.faults disk.old) (D.faults disk.new)) }
    {
        make_room(&mut self.lost, 3)?;
        let at = put(disk, space, &mut self.lost, PAGE, 0, from)?;
        let k = (n / 252) as usize;
        let gone = [
            self.pages.as_slice()[n as usize],
            self.leaves.as_slice()[k],
            self.top,
        ];
        leave(&mut self.lost, &gone);
        self.pages.set(n as usize, at);
        self.leaves.set(k, 0);
        self.top = 0;
        Ok(())
    }

    /// Writes a page behind all others, into a block that is taken for it. One block is written, and the maps that said the pages
    /// before are lost. Room is made before a block is taken.
    pub fn push_page<D: Device, T: Taker>(
        &mut self,
        disk: &mut D,
        space: &mut T,
        from: &Page,
    ) -> Result<(), MapFault>
        requires most { length self.old.pages < MOST_PAGES }
        requires spare { AreSpare (D.blocks disk.old) (T.left space.old) }
        requires stands { WhereTold (D.blocks disk.old) (Stands (T.left space.old) self.old) }
        ensures put { HasPut D.Device (T.left space.old) (T.left space.new) disk.old disk.new }
        ensures spare { AreSpare (D.blocks disk.new) (T.left space.new) }
        ensures ok { OnOk result (TakesFor with_more (T.left space.old) self.old self.new) }
        ensures err { OnErr result
            (LosesTaken (T.left space.old) (T.left space.new) self.old self.new) }
        ensures stands { WhereTold (D.blocks disk.new) (Stands (T.left space.new) self.new) }
        ensures moves { Moves (T.left space.old) (T.left space.new) self.old self.new }
        ensures content { OnOk result (ChangesContents (D.blocks disk.old) (D.blocks disk.new)
            (λ ps. ps ++ from.now ∷ []) self.old self.new) }
        ensures cause { IfErr result (λ e. IsWriteFault
            (NoneLeft (T.left space.old) (T.left space.new))
            e (D.faults disk.old) (D.faults disk.new)) }
    {
        make_room(&mut self.pages, 1)?;
        make_room(&mut self.leaves, 1)?;
        make_room(&mut self.lost, 2)?;
        let at = put(disk, space, &mut self.lost, PAGE, 0, from)?;
        let k = self.pages.len() / 252;
        let gone = [block_in(self.leaves.as_slice(), k), self.top];
        leave(&mut self.lost, &gone);
        self.pages.push(at);
        self.leaves.truncate(k);
        self.leaves.push(0);
        self.top = 0;
        Ok(())
    }

    /// Takes all pages away. Their blocks and those of the maps are lost; no block is read or written.
    pub fn clear(&mut self) -> Result<(), MapFault>
        ensures ok { OnOk result (self.new ≡ cleared self.old) }
        ensures err { OnErr result (self.new ≡ self.old) }
        ensures stands { (left : List ℕ) (all : List (List ℕ)) → holds left 0 ≡ false
            → Stands left self.old all → Stands left self.new all }
        ensures moves { (left : List ℕ) → Moves left left self.old self.new }
        ensures cause { IfErr result (λ e. e ≡ NoMemory) }
    {
        make_room(&mut self.lost, self.pages.len() + self.leaves.len() + 1)?;
        leave(&mut self.lost, self.pages.as_slice());
        leave(&mut self.lost, self.leaves.as_slice());
        leave(&mut self.lost, &[self.top]);
        self.pages.truncate(0);
        self.leaves.truncate(0);
        self.top = 0;
        Ok(())
    }

    /// Writes each map that is to be written, into a block that is taken for it, and gives the reference. It reads nothing; where no
    /// map is to be written, the reference is the one that the object was opened with.
    pub fn close<D: Device, T: Taker>(
        &mut self,
        disk: &mut D,
        space: &mut T,
    ) -> Result<Ref, MapFault>
        requires spare { AreSpare (D.blocks disk.old) (T.left space.old) }
        requires stands { WhereTold (D.blocks disk.old) (Stands (T.left space.old) self.old) }
        ensures put { HasPut D.Device (T.left space.old) (T.left space.new) disk.old disk.new }
        ensures spare { AreSpare (D.blocks disk.new) (T.left space.new) }
        ensures stands { WhereTold (D.blocks disk.new) (Stands (T.left space.new) self.new) }
        ensures moves { Moves (T.left space.old) (T.left space.new) self.old self.new }
        ensures maps { WritesMaps self.old self.new }
        ensures settled { OnOk result (unwritten self.new ≡ 0) }
        ensures lost { OnOk result (self.new.lost ≡ self.old.lost) }
        ensures count { OnOk result
            (length (T.left space.old) ≡ unwritten self.old + length (T.left space.new)) }
        ensures ok { IfOk result (λ object. object ≡ ref_of self.new) }
        ensures closed { IfOk result
            (λ object. WhereTold (D.blocks disk.new) (IsClosed object self.new)) }
        ensures is_in { IfOk result (IsIn (D.blocks disk.new)) }
        ensures cause { IfErr result (λ e. IsWriteFault
            (LacksWrites self.old (T.left space.old) (T.left space.new))
            e (D.faults disk.old) (D.faults disk.new)) }
    {
        self.write_leaves(disk, space)?;
        self.write_top(disk, space)?;
        Ok(self.reference())
    }

    /// The reference, where all maps are written.
    fn reference(&self) -> Ref
        ensures ok { result ≡ ref_of self.now }
        ensures held { IsHeld self.now }
    {
        let pages = self.pages.len() as u32;
        let root = if pages > 252 {
            self.top
        } else {
            block_in(self.leaves.as_slice(), 0)
        };
        Ref { root, pages }
    }

    /// How many leaves it has.
    fn leaf_count(&self) -> usize
        ensures { result ≡ length self.now.leaves }
    {
        self.leaves.len()
    }

    /// Writes each leaf that is to be written.
    fn write_leaves<D: Device, T: Taker>(
        &mut self,
        disk: &mut D,
        space: &mut T,
    ) -> Result<(), MapFault>
        requires spare { AreSpare (D.blocks disk.old) (T.left space.old) }
        requires stands { WhereTold (D.blocks disk.old) (Stands (T.left space.old) self.old) }
        ensures put { HasPut D.Device (T.left space.old) (T.left space.new) disk.old disk.new }
        ensures spare { AreSpare (D.blocks disk.new) (T.left space.new) }
        ensures stands { WhereTold (D.blocks disk.new) (Stands (T.left space.new) self.new) }
        ensures moves { Moves (T.left space.old) (T.left space.new) self.old self.new }
        ensures maps { WritesMaps self.old self.new }
        ensures top { self.new.top ≡ self.old.top }
        ensures settled { OnOk result (times 0 self.new.leaves ≡ 0) }
        ensures lost { OnOk result (self.new.lost ≡ self.old.lost) }
        ensures count { OnOk result
            (length (T.left space.old) ≡ times 0 self.old.leaves + length (T.left space.new)) }
        ensures cause { IfErr result (λ e. IsWriteFault
            (LacksLeaves self.old (T.left space.old) (T.left space.new))
            e (D.faults disk.old) (D.faults disk.new)) }
    {
        for k in 0..self.leaf_count() {
            self.write_leaf(disk, space, k)?;
        }
        Ok(())
    }

    /// Writes a leaf where it is to be written.
    fn write_leaf<D: Device, T: Taker>(
        &mut self,
        disk: &mut D,
        space: &mut T,
        k: usize,
    ) -> Result<(), MapFault>
        requires leaf { k < length self.old.leaves }
        requires spare { AreSpare (D.blocks disk.old) (T.left space.old) }
        requires stands { WhereTold (D.blocks disk.old) (Stands (T.left space.old) self.old) }
        ensures put { HasPut D.Device (T.left space.old) (T.left space.new) disk.old disk.new }
        ensures spare { AreSpare (D.blocks disk.new) (T.left space.new) }
        ensures stands { WhereTold (D.blocks disk.new) (Stands (T.left space.new) self.new) }
        ensures moves { Moves (T.left space.old) (T.left space.new) self.old self.new }
        ensures maps { WritesMaps self.old self.new }
        ensures top { self.new.top ≡ self.old.top }
        ensures here { OnOk result (1 ≤ slice_index self.new.leaves k) }
        ensures lost { OnOk result (self.new.lost ≡ self.old.lost) }
        ensures count { OnOk result (times 0 self.new.leaves + length (T.left space.old)
            ≡ times 0 self.old.leaves + length (T.left space.new)) }
        ensures cause { IfErr result (λ e. IsWriteFault
            (LacksLeaves self.old (T.left space.old) (T.left space.new))
            e (D.faults disk.old) (D.faults disk.new)) }
    {
        if self.leaves.as_slice()[k] > 0 {
            return Ok(());
        }
        make_room(&mut self.lost, 1)?;
        let places = padded(piece_of(self.pages.as_slice(), k));
        let at = put(disk, space, &mut self.lost, MAP, 1, &payload_of(&places))?;
        self.leaves.set(k, at);
        Ok(())
    }

    /// Writes the map above the leaves, where there is one that is to be written.
    fn write_top<D: Device, T: Taker>(
        &mut self,
        disk: &mut D,
        space: &mut T,
    ) -> Result<(), MapFault>
        requires leaves { times 0 self.old.leaves ≡ 0 }
        requires spare { AreSpare (D.blocks disk.old) (T.left space.old) }
        requires stands { WhereTold (D.blocks disk.old) (Stands (T.left space.old) self.old) }
        ensures put { HasPut D.Device (T.left space.old) (T.left space.new) disk.old disk.new }
        ensures spare { AreSpare (D.blocks disk.new) (T.left space.new) }
        ensures stands { WhereTold (D.blocks disk.new) (Stands (T.left space.new) self.new) }
        ensures moves { Moves (T.left space.old) (T.left space.new) self.old self.new }
        ensures maps { WritesMaps self.old self.new }
        ensures leaves { self.new.leaves ≡ self.old.leaves }
        ensures settled { OnOk result (unwritten self.new ≡ 0) }
        ensures lost { OnOk result (self.new.lost ≡ self.old.lost) }
        ensures count { OnOk result
            (length (T.left space.old) ≡ unwritten self.old + length (T.left space.new)) }
        ensures cause { IfErr result (λ e. IsWriteFault
            (LacksWrites self.old (T.left space.old) (T.left space.new))
            e (D.faults disk.old) (D.faults disk.new)) }
    {
        if self.pages.len() <= 252 || self.top > 0 {
            return Ok(());
        }
        make_room(&mut self.lost, 1)?;
        let places = padded(self.leaves.as_slice());
        self.top = put(disk, space, &mut self.lost, MAP, 2, &payload_of(&places))?;
        Ok(())
    }
}
