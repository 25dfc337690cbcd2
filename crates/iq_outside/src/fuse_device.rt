//! Blocks in memory that stop after a number of calls.
ghost use Rattle.std.specs.Prelude.{◌≡◌, ◌<◌, ◌≤◌, ◌-◌, ◌^◌, [], ℕ, ◌==◌, List, Some, length, vec_len, is_err, IsErr, OnErr, reverse};
ghost use Rattle.iq_outside.specs.Faults.{HasRisen};
ghost use Rattle.iq_outside.specs.Devices.{HasPlace, Counts, Reads, Writes, Resizes, Syncs};
ghost use Rattle.iq_outside.specs.Records.{fused_seen};
ghost use Rattle.iq_outside.specs.Changes.{image_told, whole_told, stopped};

use crate::recorded::Recorded;
use crate::{Block, Device, Failed, Pick, SureDevice};
use std::alloc::AllocError;
use std::marker::Model;

/// Blocks in memory, with a record of each change. It passes a number of calls, of `count`, `resize`, `read`, `write` and
/// `sync` together, and then fails every one. It also fails where `resize` or the record finds no memory. A failed call
/// changes no block.
#[derive(Debug, Drop)]
pub struct FuseDevice {
    kept: Recorded,
    passes: u64,
    faults: u64,
}

impl Model for FuseDevice {
    ghost use Rattle.iq_outside.specs.Records.{Fused};

    ghost Value = { Fused };

    ghost view = { λ d. record { kept = d.kept; passes = d.passes; faults = d.faults } };
}

impl FuseDevice {
    /// A device of these blocks, none of which waits for a sync, that passes so many calls. It takes no memory.
    pub fn new(blocks: Vec<Block>, calls: u64) -> FuseDevice
        requires { vec_len blocks < 2 ^ 32 }
        ensures { result ≡ record { kept = record { blocks = blocks.items; changes = [] }; passes = calls; faults = 0 } }
    {
        FuseDevice {
            kept: Recorded::new(blocks),
            passes: calls,
            faults: 0,
        }
    }

    /// The blocks as they are read.
    pub fn blocks(&self) -> &[Block]
        ensures { result.now ≡ self.now.kept.blocks }
    {
        self.kept.blocks()
    }

    /// The device as a stop leaves it: a pick of each block that was written since the last sync that succeeded. It takes no
    /// memory.
    pub fn crash(self, pick: Pick) -> SureDevice
        ensures image { (fused_seen self).image (fused_seen self).clock result.blocks }
        ensures left { result.blocks ≡ stopped pick (reverse self.kept.changes) self.kept.blocks }
        ensures fresh { result.faults ≡ 0 }
    {
        let FuseDevice {
            kept,
            passes: _,
            faults: _,
        } = self;
        SureDevice::new(kept.torn(pick))
    }
}

/// Counts one more call, and fails where no more pass.
fn pass(passes: &mut u64, faults: &mut u64) -> Result<(), Failed>
    ensures blown { is_err result ≡ (passes.old == 0) }
    ensures fewer { passes.new ≡ passes.old - 1 }
    ensures fault { OnErr result (HasRisen faults.old faults.new) }
    ensures later { faults.old ≤ faults.new }
{
    if *passes == 0 {
        *faults = faults.saturating_add(1);
        return Err(Failed);
    }
    *passes -= 1;
    Ok(())
}

/// Counts a refused allocation as a fault.
fn counted(outcome: Result<(), AllocError>, faults: &mut u64) -> Result<(), Failed>
    ensures variant { is_err result ≡ is_err outcome }
    ensures fault { OnErr result (HasRisen faults.old faults.new) }
    ensures later { faults.old ≤ faults.new }
{
    match outcome {
        Ok(()) => Ok(()),
        Err(_) => {
            *faults = faults.saturating_add(1);
            Err(Failed)
        }
    }
}

impl Device for FuseDevice {
    ghost blocks = { λ d. (fused_seen d).blocks };

    ghost faults = { λ d. (fused_seen d).faults };

    ghost tells = { λ d. (fused_seen d).tells };

    ghost clock = { λ d. (fused_seen d).clock };

    ghost image = { λ d. (fused_seen d).image };

    ghost whole = { λ d. (fused_seen d).whole };

    fn count(&mut self) -> Result<u32, Failed>
        ensures counted { Counts result (fused_seen self.old) (fused_seen self.new) }
        ensures blown { is_err result ≡ (self.old.passes == 0) }
    {
        pass(&mut self.passes, &mut self.faults)?;
        Ok(self.kept.count())
    }

    fn resize(&mut self, count: u32) -> Result<(), Failed>
        ensures resized { Resizes count result (fused_seen self.old) (fused_seen self.new) }
        ensures blown { self.old.passes ≡ 0 → IsErr result }
    {
        pass(&mut self.passes, &mut self.faults)?;
        counted(self.kept.resize(count), &mut self.faults)
    }

    fn read(&mut self, at: u32, into: &mut Block) -> Result<(), Failed>
        requires { HasPlace (fused_seen self.old).blocks at }
        ensures read { Reads at into.new result (fused_seen self.old) (fused_seen self.new) }
        ensures blown { is_err result ≡ (self.old.passes == 0) }
    {
        pass(&mut self.passes, &mut self.faults)?;
        *into = *self.kept.block(at);
        Ok(())
    }

    fn write(&mut self, at: u32, from: &Block) -> Result<(), Failed>
        requires { HasPlace (fused_seen self.old).blocks at }
        ensures written { Writes at from.now result (fused_seen self.old) (fused_seen self.new) }
        ensures blown { self.old.passes ≡ 0 → IsErr result }
    {
        pass(&mut self.passes, &mut self.faults)?;
        counted(self.kept.write(at, from), &mut self.faults)
    }

    fn sync(&mut self) -> Result<(), Failed>
        ensures synced { Syncs result (fused_seen self.old) (fused_seen self.new) }
        ensures blown { self.old.passes ≡ 0 → IsErr result }
    {
        pass(&mut self.passes, &mut self.faults)?;
        counted(self.kept.sync(), &mut self.faults)
    }

    fn faults(&self) -> u64 {
        self.faults
    }

    fn clock(&self) -> u64 {
        self.kept.clock()
    }

    ghost reads_now = { λ device all tells told. image_told device.kept all told };

    ghost stays_whole = { λ device. whole_told device.faults device.kept };
}
