//! The rows of two columns on a side of their comparison.
ghost use Rattle.std.specs.Prelude.{◌≡◌, ◌<◌, ◌≤◌, ◌+◌, ◌^◌, ℕ, length, IfOk, IfErr};
ghost use Rattle.std.specs.Simd.Lanes.{zip2};
ghost use Rattle.iq_pages.specs.PageCalls.{view};
ghost use Rattle.iq_pieces.specs.Codes.{AreBelow};
ghost use Rattle.iq_pieces.specs.Counts.{OnlyReads};
ghost use Rattle.iq_fp.specs.Calls.{all_pages};
ghost use Rattle.iq_fp.specs.Scans.{is_pair, decoded, ArePairsOn, HasPairCause};

use crate::expanding::{Coded, read_coded};
use crate::fp::Fp;
use iq_ast::Op;
use iq_base::NoMemory;
use iq_bitmap::Bitmap;
use iq_pages::{PageFault, PageSource};
use iq_truth::{Side, comparison_of};
use std::alloc::Global;

impl Fp {
    /// The rows on a side of a comparison of this column with another of the same table, on the right of the operator. The kinds
    /// may differ. It reads each page of either column once, so each page twice where the two are one, and takes the distinct values
    /// of both and 8 bytes a row.
    pub fn scan_pair<S: PageSource>(
        &self,
        alloc: Global,
        source: &mut S,
        op: Op,
        right: &Fp,
        side: Side,
    ) -> Result<Bitmap, PageFault>
        requires { right.now.slots ≡ self.now.slots }
        ensures long { IfOk result (λ bits. length bits ≡ self.now.slots) }
        ensures rows { IfOk result (ArePairsOn self.now right.now (S.told source.old) side op) }
        ensures reads { OnlyReads (all_pages self.now + all_pages right.now) (view S.PageSource source.old) (view S.PageSource source.new) }
        ensures cause { IfErr result (HasPairCause self.now right.now (view S.PageSource source.old) (view S.PageSource source.new)) }
    {
        let left = read_coded(alloc, source, self)?;
        let right = read_coded(alloc, source, right)?;
        Ok(pairs(alloc, self.slots, &left, op, &right, side)?)
    }
}

/// The rows on a side of a comparison of two columns that were read, of so many rows.
fn pairs(
    alloc: Global,
    count: u32,
    left: &Coded,
    op: Op,
    right: &Coded,
    side: Side,
) -> Result<Bitmap, NoMemory>
    requires left_long { length left.now.codes.items ≡ count }
    requires right_long { length right.now.codes.items ≡ count }
    requires left { AreBelow left.now.codes.items (length left.now.known.values) }
    requires right { AreBelow right.now.codes.items (length right.now.known.values) }
    ensures long { IfOk result (λ bits. length bits ≡ count) }
    ensures pairs { let vs = decoded left.now.known.values left.now.codes.items in
        let ws = decoded right.now.known.values right.now.codes.items in
        IfOk result (λ bits. bits ≡ zip2 (is_pair side op) vs ws) }
{
    let mut bits = Bitmap::empty(alloc, count)?;
    for row in 0..count {
        let v = left.codes[row as usize] as usize;
        let w = right.codes[row as usize] as usize;
        let truth = comparison_of(op, &left.known, v, &right.known, w);
        bits.set(row, side.has(truth));
    }
    Ok(bits)
}
