//! A running transaction's blocks.
ghost use Rattle.std.specs.Prelude.{◌≡◌, ◌≤◌, ◌<◌, ◌++◌, ◌∷◌, [], length, take, drop, min, slice_set, All, ◌+◌, OnOk};
ghost use Rattle.iq_free_list.specs.FreeList.{put_all};
ghost use Rattle.iq_txn.specs.Txns.{TxnState, IsBegun, IsMarked, IsBack, GivesHome, TakesBlocks, WastesBlock, DropsBlock, HasSameBlocks, HasRoom, AreWithin, with_heads};

use crate::marks::Mark;
use iq_base::NoMemory;
use iq_free_list::FreeList;
use iq_roomed::Roomed;
use iq_root::Addresses;
use std::alloc::Global;
use std::marker::Model;

/// The blocks of a running transaction: the heads of its tables' descriptors, and the lists of blocks taken, wasted and dropped.
/// A block that it takes is its own until it ends; one that it takes and then writes anew elsewhere is wasted, and stays its own.
#[derive(Debug, Drop)]
pub struct Txn {
    heads: Addresses,
    private: Roomed<u32>,
    wasted: Roomed<u32>,
    dropped: Roomed<u32>,
}

impl Model for Txn {
    ghost use Rattle.iq_txn.specs.Txns.{TxnState};

    ghost Value = { TxnState };

    ghost view = { λ t. record { heads = t.heads; private = t.private; wasted = t.wasted; dropped = t.dropped } };
}

impl Txn {
    /// A transaction of tables with these heads, which took no block. It takes no memory.
    pub fn begun(alloc: Global, heads: Addresses) -> Txn
        ensures { IsBegun heads result }
    {
        Txn {
            heads,
            private: Roomed::new(alloc),
            wasted: Roomed::new(alloc),
            dropped: Roomed::new(alloc),
        }
    }

    /// The heads of its tables' descriptors, in order of the tables' names.
    pub fn heads(&self) -> &Addresses
        ensures { result.now ≡ self.now.heads }
    {
        &self.heads
    }

    /// The blocks that it took, in order.
    pub fn private(&self) -> &[u32]
        ensures { result.now ≡ self.now.private.items }
    {
        self.private.as_slice()
    }

    /// Those of them that it lost again.
    pub fn wasted(&self) -> &[u32]
        ensures { result.now ≡ self.now.wasted.items }
    {
        self.wasted.as_slice()
    }

    /// The blocks of the latest commit that it reaches no longer.
    pub fn dropped(&self) -> &[u32]
        ensures { result.now ≡ self.now.dropped.items }
    {
        self.dropped.as_slice()
    }

    /// A mark of what it has now. It takes no memory.
    pub fn mark(&self) -> Mark
        ensures { IsMarked self.now result }
    {
        Mark {
            heads: self.heads.again(),
            private: self.private.len(),
            wasted: self.wasted.len(),
            dropped: self.dropped.len(),
        }
    }

    /// Makes room for so many blocks more in each list. The lists stay where memory is wanting.
    pub fn make_room(&mut self, taken: usize, wasted: usize, dropped: usize) -> Result<(), NoMemory>
        ensures ok { OnOk result (HasRoom taken wasted dropped self.new) }
        ensures same { HasSameBlocks self.old self.new }
    {
        self.private.reserve(taken)?;
        self.wasted.reserve(wasted)?;
        self.dropped.reserve(dropped)
    }

    /// A block was taken for it. It takes no memory.
    pub fn taken(&mut self, block: u32)
        requires { 0 < self.old.private.room }
        ensures { TakesBlocks (block ∷ []) self.old self.new }
    {
        self.private.push(block);
    }

    /// One of its own blocks is lost. It takes no memory.
    pub fn waste(&mut self, block: u32)
        requires { 0 < self.old.wasted.room }
        ensures { WastesBlock block self.old self.new }
    {
        self.wasted.push(block);
    }

    /// A block of the latest commit isn't reached any more. It takes no memory.
    pub fn drop_block(&mut self, block: u32)
        requires { 0 < self.old.dropped.room }
        ensures { DropsBlock block self.old self.new }
    {
        self.dropped.push(block);
    }

    /// Takes the least of the free blocks, up to so many, and answers how many came. It takes no memory.
    pub fn take_from(&mut self, home: &mut FreeList, n: usize) -> usize
        requires { n ≤ self.old.private.room }
        ensures count { result ≡ min n (length home.old.blocks) }
        ensures takes { TakesBlocks (take n home.old.blocks) self.old self.new }
        ensures left { home.new.blocks ≡ drop n home.old.blocks }
        ensures of { home.new.count ≡ home.old.count }
    {
        for came in 0..n {
            match home.take() {
                None => return came,
                Some(block) => self.taken(block),
            }
        }
        n
    }

    /// The head of the table at a place becomes another.
    pub fn set_head(&mut self, place: usize, head: u32)
        requires { place < length self.old.heads }
        ensures { self.new ≡ with_heads (slice_set self.old.heads place head) self.old }
    {
        self.heads.set(place, head);
    }

    /// A table comes in at a place.
    pub fn insert_head(&mut self, place: usize, head: u32)
        requires within { place ≤ length self.old.heads }
        requires few { length self.old.heads < 64 }
        ensures { self.new ≡ with_heads (take place self.old.heads ++ head ∷ drop place self.old.heads) self.old }
    {
        self.heads.insert(place, head);
    }

    /// The table at a place goes.
    pub fn remove_head(&mut self, place: usize)
        requires { place < length self.old.heads }
        ensures { self.new ≡ with_heads (take place self.old.heads ++ drop (place + 1) self.old.heads) self.old }
    {
        self.heads.remove(place);
    }

    /// Goes back to a mark of its own: the blocks that were taken since go home. It takes no memory.
    pub fn back(&mut self, mark: &Mark, home: &mut FreeList)
        requires { AreWithin home.old.count self.old }
        ensures back { IsBack mark.now self.old self.new }
        ensures home { GivesHome mark.now self.old home.old home.new }
    {
        let own = self.private.as_slice();
        if mark.private < own.len() {
            let (_, since) = own.split_at(mark.private);
            home.give_all(since);
        }
        self.private.truncate(mark.private);
        self.wasted.truncate(mark.wasted);
        self.dropped.truncate(mark.dropped);
        self.heads = mark.heads.again();
    }

    /// Ends it as a commit: what it wasted goes home, and its heads and what it dropped are handed out. It takes no memory.
    pub fn into_version(self, home: &mut FreeList) -> (Addresses, Roomed<u32>)
        requires { All (λ b. b < home.old.count) self.wasted.items }
        ensures heads { result.0 ≡ self.heads }
        ensures dropped { result.1 ≡ self.dropped }
        ensures given { home.new.blocks ≡ put_all self.wasted.items home.old.blocks }
        ensures count { home.new.count ≡ home.old.count }
    {
        home.give_all(self.wasted.as_slice());
        let Txn { heads, dropped, .. } = self;
        (heads, dropped)
    }
}
