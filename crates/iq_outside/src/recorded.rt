//! Blocks in memory with a record of each change.
ghost use Rattle.std.specs.Prelude.{◌≡◌, ◌<◌, ◌^◌, ℕ, List, [], length, vec_len, slice_set, reverse, OnOk, OnErr};
ghost use Rattle.iq_outside.specs.Devices.{block_of, resized, SameBut};
ghost use Rattle.iq_outside.specs.declared.recorded.Change.TheVariants.{Wrote, Resized, Synced};
ghost use Rattle.iq_outside.specs.Changes.{Adds, IsTorn, waiting, stopped};
ghost use Rattle.iq_outside.specs.Picks.{picked};

use crate::{Block, Pick};
use std::alloc::AllocError;
use std::marker::Model;

/// Blocks that a change of their number took away.
#[derive(Debug, Drop)]
pub struct Dropped {
    blocks: Vec<Block>,
}

impl Model for Dropped {
    ghost use Rattle.std.specs.Prelude.{List, ℕ};

    ghost Value = { List (List ℕ) };

    ghost view = { λ d. d.blocks.items };
}

/// One change, with what undoes it.
#[derive(Debug, Drop)]
pub enum Change {
    /// A block was written, and these were the bytes before.
    Wrote { at: u32, old: Block },
    /// The number of blocks was this one, and these were at the end.
    Resized { before: u32, dropped: Dropped },
    /// What was written before doesn't wait any more.
    Synced,
}

/// Blocks, and the changes to them in order.
#[derive(Debug, Drop)]
pub struct Recorded {
    blocks: Vec<Block>,
    changes: Vec<Change>,
}

impl Model for Recorded {
    ghost use Rattle.std.specs.Prelude.{◌<◌, ◌^◌, vec_len};
    ghost use Rattle.iq_outside.specs.Changes.{Recording};

    ghost Value = { Recording };

    ghost view = { λ r. record { blocks = r.blocks.items; changes = r.changes.items } };

    ghost invariant = { λ r. vec_len r.blocks < 2 ^ 32 };
}

impl Recorded {
    pub fn new(blocks: Vec<Block>) -> Recorded
        requires { vec_len blocks < 2 ^ 32 }
        ensures { result ≡ record { blocks = blocks.items; changes = [] } }
    {
        let changes = Vec::new(*blocks.allocator());
        Recorded { blocks, changes }
    }

    pub fn blocks(&self) -> &[Block]
        ensures { result.now ≡ self.now.blocks }
    {
        &self.blocks
    }

    pub fn count(&self) -> u32
        ensures { result ≡ length self.now.blocks }
    {
        self.blocks.len() as u32
    }

    pub fn clock(&self) -> u64
        ensures { result ≡ length self.now.changes }
    {
        self.changes.len() as u64
    }

    pub fn block(&self, at: u32) -> &Block
        requires { at < length self.now.blocks }
        ensures { result.now ≡ block_of self.now.blocks at }
    {
        &self.blocks[at as usize]
    }

    pub fn write(&mut self, at: u32, from: &Block) -> Result<(), AllocError>
        requires { at < length self.old.blocks }
        ensures ok { OnOk result (self.new.blocks ≡ slice_set self.old.blocks at from.now) }
        ensures adds { OnOk result (Adds (Wrote at (block_of self.old.blocks at)) self.old self.new) }
        ensures err { OnErr result (self.new ≡ self.old) }
    {
        let old = *self.block(at);
        self.changes.push(Change::Wrote { at, old })?;
        self.blocks[at as usize] = *from;
        Ok(())
    }

    pub fn sync(&mut self) -> Result<(), AllocError>
        ensures ok { OnOk result (self.new.blocks ≡ self.old.blocks) }
        ensures adds { OnOk result (Adds Synced self.old self.new) }
        ensures err { OnErr result (self.new ≡ self.old) }
    {
        self.changes.push(Change::Synced)?;
        Ok(())
    }

    #[tactic(auto, unfolding(crate::specs::Devices::zero_block))]
    pub fn resize(&mut self, count: u32) -> Result<(), AllocError>
        ensures ok { OnOk result (self.new.blocks ≡ resized count self.old.blocks) }
        ensures adds { OnOk result ((dropped : List (List ℕ))
            × Adds (Resized (length self.old.blocks) dropped) self.old self.new) }
        ensures err { OnErr result (self.new ≡ self.old) }
    {
        let before = self.blocks.len();
        let kept = before.min(count as usize);
        let mut blocks = Vec::new(*self.blocks.allocator());
        blocks.extend_from_slice(self.blocks.split_at(kept).1)?;
        self.changes.push(Change::Resized {
            before: before as u32,
            dropped: Dropped { blocks },
        })?;
        if self.blocks.resize(count as usize, [0; 1024]).is_err() {
            let _ = self.changes.pop();
            return Err(AllocError);
        }
        Ok(())
    }

    /// The blocks as a stop leaves them: of each that was written since the last sync, a pick of its old and new bytes.
    pub fn torn(self, pick: Pick) -> Vec<Block>
        ensures image { IsTorn self.blocks (waiting self.changes) result.items }
        ensures left { result.items ≡ stopped pick (reverse self.changes) self.blocks }
        ensures few { vec_len result < 2 ^ 32 }
    {
        let Recorded {
            mut blocks,
            mut changes,
        } = self;
        'undoing: while let Some(change) = changes.pop() {
            match change {
                Change::Wrote { at, old } => put_back(&mut blocks, at, pick, &old),
                Change::Resized { .. } => {}
                Change::Synced => return blocks,
            }
        }
        blocks
    }
}

/// Puts a pick of the old and the new bytes in a block's place, if there is such a place.
fn put_back(blocks: &mut [Block], at: u32, pick: Pick, old: &Block)
    ensures others { SameBut at blocks.old blocks.new }
    ensures picked { blocks.new ≡ slice_set blocks.old at (picked pick (block_of blocks.old at) old.now) }
{
    let at = at as usize;
    if at < blocks.len() {
        blocks[at] = pick.of(&blocks[at], old);
    }
}
