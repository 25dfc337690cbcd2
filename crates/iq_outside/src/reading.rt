//! Reading a whole source.
ghost use Rattle.std.specs.Prelude.{◌≡◌, ◌<◌, ◌≤◌, Some, length, take, vec_len, IfOk, OnOk, OnErr, IfErr, IsErrOf};
ghost use Rattle.std.specs.Io.KnownBytes.{Keeps, IsAtEnd};
ghost use Rattle.iq_outside.specs.declared.reading.ReadFault.TheVariants.{NoMemory, TooLong};
ghost use Rattle.iq_outside.specs.Faults.{RoseWithin};
ghost use Rattle.iq_outside.specs.Streams.{Takes};
ghost use Rattle.iq_outside.specs.Whole.{CameBefore, HasCause, IsAllOf, IsLongerThan, read_fault_text};

use crate::Source;
use std::alloc::{AllocError, Global};
use std::error::Error;
use std::fmt;

/// How many bytes are asked for at a read.
const PIECE: usize = 65_536;

/// Why a whole read gave up.
#[derive(Clone, Copy, Debug, PartialEq, Eq)]
pub enum ReadFault {
    /// The source failed: its count of faults rose from the one number to the other.
    Fault { before: u64, after: u64 },
    /// More bytes came than were allowed.
    TooLong,
    /// An allocation was refused.
    NoMemory,
}

impl From<AllocError> for ReadFault {
    ghost from_gives = { λ _ e. e ≡ NoMemory };

    fn from(_: AllocError) -> ReadFault {
        ReadFault::NoMemory
    }
}

impl fmt::Display for ReadFault {
    ghost output = { λ e. Some (read_fault_text e) };

    fn fmt<W: fmt::Write>(&self, f: &mut fmt::Formatter<W>) -> fmt::Result {
        match self {
            ReadFault::Fault { before, after } => write!(f, "a read failed: {before} to {after}"),
            ReadFault::TooLong => f.write_str("the input is too long"),
            ReadFault::NoMemory => f.write_str("no memory"),
        }
    }
}

impl Error for ReadFault {}

/// Reads a source to its end, or until `most + 1` bytes came: it asks for no byte behind these, and makes no call after one
/// that failed. It takes a buffer of 65,536 bytes beside the answer, and asks for so many at a read.
pub fn read_whole<I: Source>(
    alloc: Global,
    source: &mut I,
    most: usize,
) -> Result<Vec<u8>, ReadFault>
    // At Ok these are all the bytes.
    ensures taken { IfOk result (λ v. Takes v.items (I.left source.old) (I.left source.new)) }
    ensures at_end { OnOk result (IsAtEnd (I.left source.new)) }
    ensures all { IfOk result (λ v. IsAllOf v.items (I.left source.old)) }
    ensures short { IfOk result (λ v. vec_len v ≤ most) }
    ensures calm { OnOk result (I.faults source.new ≡ I.faults source.old) }

    // An error has its cause.
    ensures came { IfErr result (λ e. CameBefore e most (I.left source.old) (I.left source.new)) }
    ensures too_long { IsErrOf result ReadFault.TooLong → IsLongerThan most (I.left source.old) }
    ensures cause { IfErr result (λ e. HasCause e (I.faults source.old) (I.faults source.new)) }
    ensures later { I.faults source.old ≤ I.faults source.new }
{
    let mut piece = buffer(alloc, PIECE)?;
    let mut whole = Vec::new(alloc);
    'reading: loop {
        let room = most - whole.len();
        // One byte past the most shows that there are more, and none behind it is asked for.
        piece.truncate(room.saturating_add(1));
        match read_piece(source, &mut piece) {
            Err((before, after)) => return Err(ReadFault::Fault { before, after }),
            Ok(0) => return Ok(whole),
            Ok(n) if n > room => return Err(ReadFault::TooLong),
            Ok(n) => whole.extend_from_slice(piece.split_at(n).0)?,
        }
    }
}

/// A buffer of zeros.
fn buffer(alloc: Global, n: usize) -> Result<Vec<u8>, AllocError>
    ensures { IfOk result (λ v. vec_len v ≡ n) }
{
    vec![in alloc; 0u8; n]
}

/// Reads once, and reads the count of faults before and after.
fn read_piece<I: Source>(source: &mut I, piece: &mut [u8]) -> Result<usize, (u64, u64)>
    ensures within { IfOk result (λ n. n ≤ length piece.old) }
    ensures taken { IfOk result (λ n.
        Takes (take n piece.new) (I.left source.old) (I.left source.new)) }
    ensures ends { IfOk result (λ n.
        0 < length piece.old → n ≡ 0 → IsAtEnd (I.left source.new)) }
    ensures unchanged { OnErr result (Keeps (I.left source.old) (I.left source.new)) }
    ensures calm { OnOk result (I.faults source.new ≡ I.faults source.old) }
    ensures cause { IfErr result (λ e.
        RoseWithin (I.faults source.old) e.0 e.1 (I.faults source.new)) }
    ensures later { I.faults source.old ≤ I.faults source.new }
{
    let before = source.faults();
    match source.read(piece) {
        Ok(n) => Ok(n),
        Err(_) => Err((before, source.faults())),
    }
}
