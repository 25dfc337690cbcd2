//! Blocks in memory that fail where they are told to, and tell what a stop may leave.
ghost use Rattle.std.specs.Prelude.{◌≡◌, ◌<◌, ◌^◌, [], ℕ, List, Some, length, vec_len, ◌≤◌, is_err, IsTrue, IsErr, OnOk, OnErr};
ghost use Rattle.iq_outside.specs.Calls.{plan_of, is_listed, after_fault};
ghost use Rattle.iq_outside.specs.Devices.{HasPlace, Counts, Reads, Writes, Resizes, Syncs};
ghost use Rattle.iq_outside.specs.Records.{taped_seen};
ghost use Rattle.iq_outside.specs.Changes.{image_told, whole_told};

use crate::calls::Calls;
use crate::recorded::Recorded;
use crate::{Block, Device, Failed};
use std::alloc::AllocError;
use std::marker::Model;

/// Blocks in memory, with a record of each change. It fails at the calls that were listed, of `count`, `resize`, `read`,
/// `write` and `sync` together, and where `resize` or the record finds no memory. A failed call changes no block.
#[derive(Debug, Drop)]
pub struct MemoryDevice {
    kept: Recorded,
    calls: Calls,
}

impl Model for MemoryDevice {
    ghost use Rattle.iq_outside.specs.Records.{Taped};

    ghost Value = { Taped };

    ghost view = { λ d. record { kept = d.kept; plan = d.calls } };
}

impl MemoryDevice {
    /// A device of these blocks, none of which waits for a sync. The calls with these numbers, from 1, fail. It takes no
    /// memory.
    pub fn new(blocks: Vec<Block>, fails: Vec<u64>) -> MemoryDevice
        requires { vec_len blocks < 2 ^ 32 }
        ensures { result ≡ record { kept = record { blocks = blocks.items; changes = [] }; plan = plan_of fails.items } }
    {
        MemoryDevice {
            kept: Recorded::new(blocks),
            calls: Calls::new(fails),
        }
    }

    /// The blocks.
    pub fn blocks(&self) -> &[Block]
        ensures { result.now ≡ self.now.kept.blocks }
    {
        self.kept.blocks()
    }
}

/// Counts a refused allocation as a fault.
fn counted(outcome: Result<(), AllocError>, calls: &mut Calls) -> Result<(), Failed>
    ensures variant { is_err result ≡ is_err outcome }
    ensures same { OnOk result (calls.new ≡ calls.old) }
    ensures fault { OnErr result (calls.new ≡ after_fault calls.old) }
    ensures later { calls.old.faults ≤ calls.new.faults }
{
    match outcome {
        Ok(()) => Ok(()),
        Err(_) => Err(calls.fault()),
    }
}

impl Device for MemoryDevice {
    ghost blocks = { λ d. (taped_seen d).blocks };

    ghost faults = { λ d. (taped_seen d).faults };

    ghost tells = { λ d. (taped_seen d).tells };

    ghost clock = { λ d. (taped_seen d).clock };

    ghost image = { λ d. (taped_seen d).image };

    ghost whole = { λ d. (taped_seen d).whole };

    fn count(&mut self) -> Result<u32, Failed>
        ensures counted { Counts result (taped_seen self.old) (taped_seen self.new) }
        ensures listed { is_err result ≡ is_listed self.old.plan }
    {
        self.calls.call()?;
        Ok(self.kept.count())
    }

    fn resize(&mut self, count: u32) -> Result<(), Failed>
        ensures resized { Resizes count result (taped_seen self.old) (taped_seen self.new) }
        ensures listed { IsTrue (is_listed self.old.plan) → IsErr result }
    {
        self.calls.call()?;
        counted(self.kept.resize(count), &mut self.calls)
    }

    fn read(&mut self, at: u32, into: &mut Block) -> Result<(), Failed>
        requires { HasPlace (taped_seen self.old).blocks at }
        ensures read { Reads at into.new result (taped_seen self.old) (taped_seen self.new) }
        ensures listed { is_err result ≡ is_listed self.old.plan }
    {
        self.calls.call()?;
        *into = *self.kept.block(at);
        Ok(())
    }

    fn write(&mut self, at: u32, from: &Block) -> Result<(), Failed>
        requires { HasPlace (taped_seen self.old).blocks at }
        ensures written { Writes at from.now result (taped_seen self.old) (taped_seen self.new) }
        ensures listed { IsTrue (is_listed self.old.plan) → IsErr result }
    {
        self.calls.call()?;
        counted(self.kept.write(at, from), &mut self.calls)
    }

    fn sync(&mut self) -> Result<(), Failed>
        ensures synced { Syncs result (taped_seen self.old) (taped_seen self.new) }
        ensures listed { IsTrue (is_listed self.old.plan) → IsErr result }
    {
        self.calls.call()?;
        counted(self.kept.sync(), &mut self.calls)
    }

    fn faults(&self) -> u64 {
        self.calls.faults()
    }

    fn clock(&self) -> u64 {
        self.kept.clock()
    }

    ghost reads_now = { λ device all tells told. image_told device.kept all told };

    ghost stays_whole = { λ device. whole_told device.plan.faults device.kept };
}
