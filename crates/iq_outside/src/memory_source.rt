//! Sources over bytes in memory.
ghost use Rattle.std.specs.Prelude.{◌≡◌, ◌≤◌, Some, length, take, drop, min, is_err, IfOk, IsOk};
ghost use Rattle.iq_outside.specs.Streams.{ReadsFront};
ghost use Rattle.iq_outside.specs.Calls.{plan_of, is_listed, after_call};

use crate::calls::Calls;
use crate::{Failed, Source};
use std::marker::Model;

/// Bytes in memory, read in order. It fails at the calls that were listed, and at no other.
#[derive(Debug, Drop)]
pub struct MemorySource {
    bytes: Vec<u8>,
    at: usize,
    calls: Calls,
}

impl Model for MemorySource {
    ghost use Rattle.std.specs.Prelude.{◌≤◌, length, drop};
    ghost use Rattle.iq_outside.specs.Calls.{Reading};

    ghost Value = { Reading };

    ghost view = { λ s. record { left = drop s.at s.bytes.items; plan = s.calls } };

    ghost invariant = { λ s. s.at ≤ length s.bytes.items };
}

impl MemorySource {
    /// These bytes, of which the calls of `read` with these numbers, from 1, fail.
    pub fn new(bytes: Vec<u8>, fails: Vec<u64>) -> MemorySource
        ensures { result ≡ record { left = bytes.items; plan = plan_of fails.items } }
    {
        MemorySource {
            bytes,
            at: 0,
            calls: Calls::new(fails),
        }
    }
}

impl Source for MemorySource {
    ghost left = { λ s. Some s.left };

    ghost faults = { λ s. s.plan.faults };

    fn read(&mut self, into: &mut [u8]) -> Result<usize, Failed>
        ensures front { ReadsFront result into.old into.new
            (Some self.old.left) (Some self.new.left) self.old.plan.faults self.new.plan.faults }
        ensures listed { is_err result ≡ is_listed self.old.plan }
        ensures counted { self.new.plan ≡ after_call self.old.plan }
        ensures full { IfOk result (λ n. n ≡ min (length self.old.left) (length into.old)) }
    {
        self.calls.call()?;
        let n = copy_front(self.bytes.split_at(self.at).1, into);
        self.at += n;
        Ok(n)
    }

    fn faults(&self) -> u64 {
        self.calls.faults()
    }
}

/// Bytes in memory, read in order. It never fails.
#[derive(Debug, Drop)]
pub struct SureSource {
    bytes: Vec<u8>,
    at: usize,
}

impl Model for SureSource {
    ghost use Rattle.std.specs.Prelude.{List, ℕ, ◌≤◌, length, drop};

    ghost Value = { List ℕ };

    ghost view = { λ s. drop s.at s.bytes.items };

    ghost invariant = { λ s. s.at ≤ length s.bytes.items };
}

impl SureSource {
    /// A source of these bytes.
    pub fn new(bytes: Vec<u8>) -> SureSource
        ensures { result ≡ bytes.items }
    {
        SureSource { bytes, at: 0 }
    }
}

impl Source for SureSource {
    ghost left = { λ s. Some s };

    ghost faults = { λ _. 0 };

    fn read(&mut self, into: &mut [u8]) -> Result<usize, Failed>
        ensures front { ReadsFront result into.old into.new (Some self.old) (Some self.new) 0 0 }
        ensures sure { IsOk result }
        ensures full { IfOk result (λ n. n ≡ min (length self.old) (length into.old)) }
    {
        let n = copy_front(self.bytes.split_at(self.at).1, into);
        self.at += n;
        Ok(n)
    }

    fn faults(&self) -> u64 {
        0
    }
}

/// Copies as many bytes as fit to the front of a buffer.
fn copy_front(from: &[u8], into: &mut [u8]) -> usize
    ensures count { result ≡ min (length from.now) (length into.old) }
    ensures front { take result into.new ≡ take result from.now }
{
    let n = from.len().min(into.len());
    into[..n].copy_from_slice(from.split_at(n).0);
    n
}
