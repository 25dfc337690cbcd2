//! The rows of a column on a side of a test.
ghost use Rattle.std.specs.Prelude.{◌≡◌, ◌<◌, ◌≤◌, ◌+◌, ◌^◌, ℕ, false, length, map, IsTrue, IfOk, IfErr};
ghost use Rattle.iq_pages.specs.PageCalls.{view};
ghost use Rattle.iq_pieces.specs.Counts.{per_page, pages_for, OnlyReads};
ghost use Rattle.iq_pieces.specs.Faults.{CodesBelow, ArePieces};
ghost use Rattle.iq_fp.specs.Forms.{code_width};
ghost use Rattle.iq_fp.specs.Calls.{HasReadCause, all_pages};
ghost use Rattle.iq_fp.specs.Scans.{is_hit, AreRowsOn, AreMarked, MarksRows};

use crate::fp::{Form, Fp, form_of};
use crate::reading::known_values;
use iq_ast::Test;
use iq_base::{NoMemory, PAGE_BYTES, Page};
use iq_bitmap::Bitmap;
use iq_cells::{Cells, code_at};
use iq_pages::{PageFault, PageSource};
use iq_pieces::read_page;
use iq_truth::{Side, truth_at};
use std::alloc::Global;

impl Fp {
    /// The rows on a side of a test of this column: those of which it is true, or those of which it is false. A row of which it is
    /// unknown is on neither. It decides the test once for each distinct value, and reads each page of the column once. It takes
    /// the distinct values and a byte for each beside the bitmap.
    pub fn scan<S: PageSource>(
        &self,
        alloc: Global,
        source: &mut S,
        test: &Test,
        side: Side,
    ) -> Result<Bitmap, PageFault>
        ensures long { IfOk result (λ bits. length bits ≡ self.now.slots) }
        ensures rows { IfOk result (AreRowsOn self.now (S.told source.old) side test.now) }
        ensures reads { OnlyReads (all_pages self.now) (view S.PageSource source.old) (view S.PageSource source.new) }
        ensures cause { IfErr result (HasReadCause self.now (view S.PageSource source.old) (view S.PageSource source.new)) }
    {
        let known = known_values(alloc, source, self)?;
        let hits = hits_of(alloc, &known, test, side)?;
        marked(alloc, source, self, &hits)
    }
}

/// Which distinct values are on the side.
fn hits_of(alloc: Global, known: &Cells, test: &Test, side: Side) -> Result<Vec<bool>, NoMemory>
    ensures { IfOk result (λ hits. hits.items ≡ map (is_hit side test.now) known.now.values) }
{
    let mut hits = Vec::with_capacity(alloc, known.len())?;
    for i in 0..known.len() {
        hits.push(side.has(truth_at(test, known, i)))?;
    }
    Ok(hits)
}

/// Reads the codes of a column, each page of them once, and sets the rows whose code is set among the hits.
fn marked<S: PageSource>(
    alloc: Global,
    source: &mut S,
    fp: &Fp,
    hits: &[bool],
) -> Result<Bitmap, PageFault>
    requires { length hits.now ≡ fp.now.distinct }
    ensures long { IfOk result (λ bits. length bits ≡ fp.now.slots) }
    ensures rows { IfOk result (AreMarked fp.now (S.told source.old) hits.now) }
    ensures reads { OnlyReads (pages_for (code_width fp.now.distinct) fp.now.slots) (view S.PageSource source.old) (view S.PageSource source.new) }
    ensures cause { IfErr result (HasReadCause fp.now (view S.PageSource source.old) (view S.PageSource source.new)) }
{
    match form_of(fp.distinct) {
        Form::One => marked_in_width::<S, 1>(alloc, source, fp, hits),
        Form::Two => marked_in_width::<S, 2>(alloc, source, fp, hits),
        Form::Three => marked_in_width::<S, 3>(alloc, source, fp, hits),
    }
}

/// The same with codes of W bytes.
fn marked_in_width<S: PageSource, const W: usize>(
    alloc: Global,
    source: &mut S,
    fp: &Fp,
    hits: &[bool],
) -> Result<Bitmap, PageFault>
    requires narrow { (1 ≤ W) × (W ≤ 3) }
    requires width { W ≡ code_width fp.now.distinct }
    requires hits { length hits.now ≡ fp.now.distinct }
    ensures long { IfOk result (λ bits. length bits ≡ fp.now.slots) }
    ensures rows { IfOk result (AreMarked fp.now (S.told source.old) hits.now) }
    ensures reads { OnlyReads (pages_for W fp.now.slots) (view S.PageSource source.old) (view S.PageSource source.new) }
    ensures cause { IfErr result (HasReadCause fp.now (view S.PageSource source.old) (view S.PageSource source.new)) }
{
    let mut bits = Bitmap::empty(alloc, fp.slots)?;
    let per = PAGE_BYTES / W;
    let count = fp.slots as usize;
    let mut page = [0; PAGE_BYTES];
    for p in 0..count.div_ceil(per) {
        read_page(source, fp.codes, p as u32, &mut page)?;
        let here = per.min(count - per * p);
        if !mark::<W>(&page, here, hits, per * p, &mut bits) {
            return Err(PageFault::BadPage {
                object: fp.codes,
                page: p as u32,
            });
        }
    }
    Ok(bits)
}

/// Sets or clears the rows of a page's first `n` codes, from a row on, by whether their code is set among the hits. It answers
/// whether each is a code.
fn mark<const W: usize>(
    page: &Page,
    n: usize,
    hits: &[bool],
    start: usize,
    bits: &mut Bitmap,
) -> bool
    requires narrow { (1 ≤ W) × (W ≤ 3) }
    requires within { n ≤ per_page W }
    requires rows { start + n ≤ length bits.old }
    requires small { start + n < 2 ^ 32 }
    ensures long { length bits.new ≡ length bits.old }
    ensures rows { IsTrue result → MarksRows W page.now n hits.now start bits.old bits.new }
    ensures bad { result ≡ false → ¬ (ArePieces (CodesBelow W (length hits.now)) page.now n) }
{
    for k in 0..n {
        let code = code_at::<W>(page, k) as usize;
        let Some(hit) = hits.get(code) else {
            return false;
        };
        bits.set((start + k) as u32, *hit);
    }
    true
}
