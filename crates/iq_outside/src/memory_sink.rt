//! Sinks that keep bytes in memory.
ghost use Rattle.std.specs.Prelude.{◌≡◌, ◌<◌, [], Some, length, min, IsTrue, IsErr, IfOk, OnErr};
ghost use Rattle.iq_outside.specs.Streams.{WritesFront};
ghost use Rattle.iq_outside.specs.Calls.{plan_of, is_listed, next_of, plan_after};

use crate::calls::Calls;
use crate::{Failed, Sink};
use std::alloc::Global;
use std::marker::Model;

/// Keeps the bytes that it takes. It fails at the calls that were listed, and where it finds no memory for more.
#[derive(Debug, Drop)]
pub struct MemorySink {
    bytes: Vec<u8>,
    most: usize,
    calls: Calls,
}

impl Model for MemorySink {
    ghost use Rattle.std.specs.Prelude.{◌<◌};
    ghost use Rattle.iq_outside.specs.Calls.{Writing};

    ghost Value = { Writing };

    ghost view = { λ s. record { written = s.bytes.items; most = s.most; plan = s.calls } };

    ghost invariant = { λ s. 0 < s.most };
}

impl MemorySink {
    /// An empty sink, of which the calls of `write` with these numbers, from 1, fail.
    pub fn new(fails: Vec<u64>) -> MemorySink
        ensures { result ≡ record { written = []; most = usize.MAX; plan = plan_of fails.items } }
    {
        MemorySink::slow(usize::MAX, fails)
    }

    /// One that takes at most so many bytes at a write.
    pub fn slow(most: usize, fails: Vec<u64>) -> MemorySink
        requires { 0 < most }
        ensures { result ≡ record { written = []; most = most; plan = plan_of fails.items } }
    {
        MemorySink {
            bytes: Vec::new(*fails.allocator()),
            most,
            calls: Calls::new(fails),
        }
    }

    /// The bytes that it has taken.
    pub fn written(&self) -> &[u8]
        ensures { result.now ≡ self.now.written }
    {
        &self.bytes
    }
}

impl Sink for MemorySink {
    ghost written = { λ s. Some s.written };

    ghost faults = { λ s. s.plan.faults };

    fn write(&mut self, from: &[u8]) -> Result<usize, Failed>
        ensures front { WritesFront result from.now
            (Some self.old.written) (Some self.new.written) self.old.plan.faults self.new.plan.faults }
        ensures listed { IsTrue (is_listed self.old.plan) → IsErr result }
        ensures counted { self.new.plan ≡ plan_after result self.old.plan }
        ensures same_most { self.new.most ≡ self.old.most }
        ensures full { IfOk result (λ n. n ≡ min (length from.now) self.old.most) }
    {
        self.calls.call()?;
        let n = from.len().min(self.most);
        match self.bytes.extend_from_slice(from.split_at(n).0) {
            Ok(()) => Ok(n),
            Err(_) => Err(self.calls.fault()),
        }
    }

    fn faults(&self) -> u64 {
        self.calls.faults()
    }
}

/// Keeps the bytes that it takes. It fails only where it finds no memory for more.
#[derive(Debug, Drop)]
pub struct SureSink {
    bytes: Vec<u8>,
    faults: u64,
}

impl Model for SureSink {
    ghost use Rattle.std.specs.Prelude.{◌≤◌, ◌-◌, ◌^◌};
    ghost use Rattle.iq_outside.specs.Calls.{Kept};

    ghost Value = { Kept };

    ghost view = { λ s. record { written = s.bytes.items; faults = s.faults } };

    ghost invariant = { λ s. s.faults ≤ 2 ^ 64 - 1 };
}

impl SureSink {
    /// An empty sink. It takes no memory.
    pub fn new(alloc: Global) -> SureSink
        ensures { result ≡ record { written = []; faults = 0 } }
    {
        SureSink {
            bytes: Vec::new(alloc),
            faults: 0,
        }
    }

    /// The bytes that it has taken.
    pub fn written(&self) -> &[u8]
        ensures { result.now ≡ self.now.written }
    {
        &self.bytes
    }
}

impl Sink for SureSink {
    ghost written = { λ s. Some s.written };

    ghost faults = { λ s. s.faults };

    fn write(&mut self, from: &[u8]) -> Result<usize, Failed>
        ensures front { WritesFront result from.now
            (Some self.old.written) (Some self.new.written) self.old.faults self.new.faults }
        ensures counted { OnErr result (self.new.faults ≡ next_of self.old.faults) }
        ensures full { IfOk result (λ n. n ≡ length from.now) }
    {
        match self.bytes.extend_from_slice(from) {
            Ok(()) => Ok(from.len()),
            Err(_) => {
                self.faults = self.faults.saturating_add(1);
                Err(Failed)
            }
        }
    }

    fn faults(&self) -> u64 {
        self.faults
    }
}
