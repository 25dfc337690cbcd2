//! Standard streams as a source and as sinks.
ghost use Rattle.std.specs.Prelude.{◌≡◌, ◌<◌, ◌≤◌, length, take, IfOk, OnErr};
ghost use Rattle.std.specs.Io.KnownBytes.{Keeps, IsAtEnd};
ghost use Rattle.iq_outside.specs.Calls.{next_of};
ghost use Rattle.iq_outside.specs.Streams.{Takes, Grows, ReadsFront, WritesFront};

use crate::{Failed, Sink, Source};
use std::io::{ErrorKind, Read, Write};

/// Standard input, or another reader, as a source. It tells what its reader tells, so nothing of a stream of the system: what
/// comes from outside is known to nobody. Nothing is buffered here, so hand in large buffers.
#[derive(Debug, Drop)]
pub struct StdSource<R> {
    stream: R,
    faults: u64,
}

impl<R: Read> StdSource<R> {
    /// A source over a reader, which has not failed yet.
    pub fn new(stream: R) -> StdSource<R>
        ensures { result.faults ≡ 0 }
    {
        StdSource { stream, faults: 0 }
    }
}

impl<R: Read> Source for StdSource<R> {
    ghost left = { λ s. R.remaining s.stream };

    ghost faults = { λ s. s.faults };

    /// A read that a signal interrupts is tried again, until it is answered in another way.
    fn read(&mut self, into: &mut [u8]) -> Result<usize, Failed>
        ensures front { ReadsFront result into.old into.new
            (R.remaining self.old.stream) (R.remaining self.new.stream)
            self.old.faults self.new.faults }
        ensures counted { OnErr result (self.new.faults ≡ next_of self.old.faults) }
    {
        match read_on(&mut self.stream, into) {
            Ok(n) => Ok(n),
            Err(Failed) => {
                self.faults = self.faults.saturating_add(1);
                Err(Failed)
            }
        }
    }

    fn faults(&self) -> u64 {
        self.faults
    }
}

/// Reads once, and again for as long as a signal interrupts it. Only the stream ends that: 2^64 - 1 tries are no bound that
/// anything reaches, and std's own whole reads stop there too.
fn read_on<R: Read>(stream: &mut R, into: &mut [u8]) -> Result<usize, Failed>
    ensures within { IfOk result (λ n. n ≤ length into.old) }
    ensures taken { IfOk result (λ n.
        Takes (take n into.new) (R.remaining stream.old) (R.remaining stream.new)) }
    ensures ends { IfOk result (λ n.
        0 < length into.old → n ≡ 0 → IsAtEnd (R.remaining stream.new)) }
    ensures unchanged { OnErr result (Keeps (R.remaining stream.old) (R.remaining stream.new)) }
{
    for _ in 0..u64::MAX {
        match stream.read(into) {
            Ok(n) => return Ok(n),
            Err(error) => {
                if error.kind() != ErrorKind::Interrupted {
                    return Err(Failed);
                }
            }
        }
    }
    Err(Failed)
}

/// Standard output or error, or another writer, as a sink. It tells what its writer tells, so nothing of a stream of the
/// system. A writer that takes nothing has failed. Nothing is buffered here, so hand in large pieces.
#[derive(Debug, Drop)]
pub struct StdSink<W> {
    stream: W,
    faults: u64,
}

impl<W: Write> StdSink<W> {
    /// A sink over a writer, which has not failed yet.
    pub fn new(stream: W) -> StdSink<W>
        ensures { result.faults ≡ 0 }
    {
        StdSink { stream, faults: 0 }
    }
}

impl<W: Write> Sink for StdSink<W> {
    ghost written = { λ s. W.contents s.stream };

    ghost faults = { λ s. s.faults };

    /// A write that a signal interrupts is tried again, until it is answered in another way.
    fn write(&mut self, from: &[u8]) -> Result<usize, Failed>
        ensures front { WritesFront result from.now
            (W.contents self.old.stream) (W.contents self.new.stream)
            self.old.faults self.new.faults }
        ensures counted { OnErr result (self.new.faults ≡ next_of self.old.faults) }
    {
        match write_on(&mut self.stream, from) {
            Ok(n) => Ok(n),
            Err(Failed) => {
                self.faults = self.faults.saturating_add(1);
                Err(Failed)
            }
        }
    }

    fn faults(&self) -> u64 {
        self.faults
    }
}

/// Writes once, and again for as long as a signal interrupts it, as `read_on` reads. A writer that takes nothing of a piece
/// that isn't empty has failed.
fn write_on<W: Write>(stream: &mut W, from: &[u8]) -> Result<usize, Failed>
    ensures within { IfOk result (λ n. n ≤ length from.now) }
    ensures some { IfOk result (λ n. 0 < length from.now → 0 < n) }
    ensures grown { IfOk result (λ n.
        Grows (take n from.now) (W.contents stream.old) (W.contents stream.new)) }
    ensures unchanged { OnErr result (Keeps (W.contents stream.old) (W.contents stream.new)) }
{
    for _ in 0..u64::MAX {
        match stream.write(from) {
            Ok(n) => {
                if n > 0 || from.is_empty() {
                    return Ok(n);
                }
                return Err(Failed);
            }
            Err(error) => {
                if error.kind() != ErrorKind::Interrupted {
                    return Err(Failed);
                }
            }
        }
    }
    Err(Failed)
}
