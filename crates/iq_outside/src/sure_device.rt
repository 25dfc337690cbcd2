//! Blocks in memory.
ghost use Rattle.std.specs.Prelude.{◌≡◌, ◌<◌, ◌^◌, ℕ, List, Some, length, vec_len, IsOk};
ghost use Rattle.iq_outside.specs.Devices.{HasPlace, Counts, Reads, Writes, Syncs};
ghost use Rattle.iq_outside.specs.Records.{held_seen};
ghost use Rattle.std.proofs.Common.{rules};

use crate::{Block, Device, Failed};
use std::marker::Model;

/// Blocks in memory. They fail only where `resize` finds no memory, and tell nothing of stops.
#[derive(Debug, Drop)]
pub struct SureDevice {
    blocks: Vec<Block>,
    faults: u64,
}

impl Model for SureDevice {
    ghost use Rattle.std.specs.Prelude.{◌<◌, ◌≤◌, ◌-◌, ◌^◌, vec_len};
    ghost use Rattle.iq_outside.specs.Records.{Held, IsHeld};

    ghost Value = { Held };

    ghost view = { λ d. record { blocks = d.blocks.items; faults = d.faults } };

    ghost invariant = { λ d. IsHeld (vec_len d.blocks) d.faults };
}

impl SureDevice {
    /// A device of these blocks. It takes no memory.
    pub fn new(blocks: Vec<Block>) -> SureDevice
        requires { vec_len blocks < 2 ^ 32 }
        ensures { result ≡ record { blocks = blocks.items; faults = 0 } }
    {
        SureDevice { blocks, faults: 0 }
    }

    /// The blocks.
    pub fn blocks(&self) -> &[Block]
        ensures { result.now ≡ self.now.blocks }
    {
        &self.blocks
    }
}

impl Device for SureDevice {
    ghost blocks = { λ d. (held_seen d).blocks };

    ghost faults = { λ d. (held_seen d).faults };

    ghost tells = { λ d. (held_seen d).tells };

    ghost clock = { λ d. (held_seen d).clock };

    ghost image = { λ d. (held_seen d).image };

    ghost whole = { λ d. (held_seen d).whole };

    fn count(&mut self) -> Result<u32, Failed>
        ensures counted { Counts result (held_seen self.old) (held_seen self.new) }
        ensures sure { IsOk result }
    {
        Ok(self.blocks.len() as u32)
    }

    #[tactic(auto, unfolding(crate::specs::Devices::zero_block))]
    fn resize(&mut self, count: u32) -> Result<(), Failed> {
        match self.blocks.resize(count as usize, [0; 1024]) {
            Ok(()) => Ok(()),
            Err(_) => {
                self.faults = self.faults.saturating_add(1);
                Err(Failed)
            }
        }
    }

    fn read(&mut self, at: u32, into: &mut Block) -> Result<(), Failed>
        requires { HasPlace (held_seen self.old).blocks at }
        ensures read { Reads at into.new result (held_seen self.old) (held_seen self.new) }
        ensures sure { IsOk result }
    {
        *into = self.blocks[at as usize];
        Ok(())
    }

    fn write(&mut self, at: u32, from: &Block) -> Result<(), Failed>
        requires { HasPlace (held_seen self.old).blocks at }
        ensures written { Writes at from.now result (held_seen self.old) (held_seen self.new) }
        ensures sure { IsOk result }
    {
        self.blocks[at as usize] = *from;
        Ok(())
    }

    fn sync(&mut self) -> Result<(), Failed>
        ensures synced { Syncs result (held_seen self.old) (held_seen self.new) }
        ensures sure { IsOk result }
    {
        Ok(())
    }

    fn faults(&self) -> u64 {
        self.faults
    }

    fn clock(&self) -> u64 {
        0
    }

    ghost reads_now = { Prim.search rules };

    ghost stays_whole = { Prim.search rules };
}
