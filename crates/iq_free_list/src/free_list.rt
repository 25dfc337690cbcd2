//! The list of free blocks.
ghost use Rattle.std.specs.Prelude.{◌≡◌, ◌<◌, [], ◌∷◌, length, take, drop, min, All, IfOk, MatchOption, IfSome, IsTrue, nat_eq, ◌↔◌};
ghost use Rattle.std.specs.List.{IsDistinct};
ghost use Rattle.iq_free_list.specs.FreeList.{put, put_all, IsAscending};

use iq_base::NoMemory;
use iq_bitmap::Bitmap;
use std::alloc::Global;
use std::marker::Model;

/// The free blocks among so many, as a bit a block. Taking looks from the last place taken on, and from a block given below
/// it; it passes 64 blocks in a step.
#[derive(Debug, Drop)]
pub struct FreeList {
    bits: Bitmap,
    hint: u32,
    len: u32,
}

impl Model for FreeList {
    ghost use Rattle.iq_free_list.specs.FreeList.{Free, IsHinted, free_of};

    ghost Value = { Free };

    ghost view = { λ f. free_of f.bits };

    ghost invariant = { λ f. IsHinted f.bits f.hint f.len };
}

impl FreeList {
    /// A list of so many blocks, none of which is free. It takes memory, a word for each 64 blocks.
    pub fn none(alloc: Global, count: u32) -> Result<FreeList, NoMemory>
        ensures { IfOk result (λ f. f ≡ record { count = count; blocks = [] }) }
    {
        Ok(FreeList {
            bits: Bitmap::empty(alloc, count)?,
            hint: 0,
            len: 0,
        })
    }

    /// Takes the least free block, if there is one. It takes no memory.
    pub fn take(&mut self) -> Option<u32>
        ensures least { MatchOption result
            ((self.old.blocks ≡ []) × (self.new.blocks ≡ []))
            (λ block. self.old.blocks ≡ block ∷ self.new.blocks) }
        ensures first { IfSome result (λ block. All (λ b. block < b) self.new.blocks) }
        ensures below { IfSome result (λ block. block < self.old.count) }
        ensures count { self.new.count ≡ self.old.count }
    {
        if self.len == 0 {
            return None;
        }
        let block = self.bits.next(self.hint)?;
        self.bits.set(block, false);
        self.hint = block + 1;
        self.len -= 1;
        Some(block)
    }

    /// Moves the least blocks into another list of as many, at most so many of them, and answers how many. It takes no
    /// memory.
    pub fn take_many(&mut self, n: u32, into: &mut FreeList) -> u32
        requires { self.old.count ≡ into.old.count }
        ensures moved { result ≡ min n (length self.old.blocks) }
        ensures left { self.new.blocks ≡ drop n self.old.blocks }
        ensures gained { into.new.blocks ≡ put_all (take n self.old.blocks) into.old.blocks }
        ensures count { self.new.count ≡ self.old.count }
        ensures count_into { into.new.count ≡ into.old.count }
    {
        for moved in 0..n {
            match self.take() {
                None => return moved,
                Some(block) => into.give(block),
            }
        }
        n
    }

    /// Makes a block free. One that is free already stays so. It takes no memory.
    pub fn give(&mut self, block: u32)
        requires { block < self.old.count }
        ensures given { self.new.blocks ≡ put block self.old.blocks }
        ensures count { self.new.count ≡ self.old.count }
    {
        if self.bits.get(block) {
            return;
        }
        self.bits.set(block, true);
        self.hint = self.hint.min(block);
        self.len += 1;
    }

    /// Makes some blocks free, one after the other. It takes no memory.
    pub fn give_all(&mut self, blocks: &[u32])
        requires { All (λ b. b < self.old.count) blocks.now }
        ensures given { self.new.blocks ≡ put_all blocks.now self.old.blocks }
        ensures count { self.new.count ≡ self.old.count }
    {
        for block in blocks {
            self.give(*block);
        }
    }

    /// How many blocks are free.
    pub fn len(&self) -> u32
        ensures value { result ≡ length self.now.blocks }
        // Each free block is counted once, and is one of the blocks that there are.
        ensures once { IsAscending self.now.blocks }
        ensures within { All (λ b. b < self.now.count) self.now.blocks }
    {
        self.len
    }

    /// Does nothing: the free blocks ascend, so that each stands once, and are blocks that there are.
    pub fn are_in_order(&self)
        ensures ascending { IsAscending self.now.blocks }
        ensures distinct { IsDistinct nat_eq self.now.blocks }
        ensures within { All (λ b. b < self.now.count) self.now.blocks }
    {
        let _ = self.len();
    }

    /// Whether no block is free.
    pub fn is_empty(&self) -> bool
        ensures { IsTrue result ↔ (self.now.blocks ≡ []) }
    {
        self.len == 0
    }

    /// How many blocks there are, free or not.
    pub fn count(&self) -> u32
        ensures { result ≡ self.now.count }
    {
        self.bits.len()
    }
}
