//! The rows of a range of values, and those of one value.
ghost use Rattle.std.specs.Prelude.{◌≡◌, ◌<◌, ◌+◌, ◌/◌, ◌^◌, ℕ, List, length, IfOk, IfErr};
ghost use Rattle.iq_pages.specs.PageCalls.{view};
ghost use Rattle.iq_pieces.specs.Counts.{OnlyReads};
ghost use Rattle.iq_ast.specs.declared.conditions.Op.TheVariants.{Eq};
ghost use Rattle.iq_ast.specs.declared.conditions.Bound.TheVariants.{Incl};
ghost use Rattle.iq_base.specs.declared.values.Value.{Value};
ghost use Rattle.iq_truth.specs.declared.truth.Side.TheVariants as sides;
ghost use Rattle.iq_truth.specs.Sides.{is_on};
ghost use Rattle.iq_truth.specs.Comparisons.{comparison};
ghost use Rattle.iq_hg.specs.Bounds.{is_between, range_count};
ghost use Rattle.iq_hg.specs.Stands.{Stands, GivesRows, HasHgCause};

use crate::hg::Hg;
use crate::wanted::Wanted;
use iq_ast::Bound;
use iq_base::Value;
use iq_bitmap::Bitmap;
use iq_pages::{PageFault, PageSource};
use std::alloc::Global;

impl Hg {
    /// The rows whose value lies between two bounds. It finds the first leaf by halving the directory, walks on to the first value above
    /// the range, and reads each leaf on the way once. It takes a bit a row.
    pub fn range<S: PageSource>(
        &self,
        alloc: Global,
        source: &mut S,
        low: &Bound,
        high: &Bound,
    ) -> Result<Bitmap, PageFault>
        ensures long { IfOk result (λ bits. length bits ≡ self.now.slots) }
        ensures rows { IfOk result (GivesRows self.now (S.told source.old) (is_between low.now high.now)) }
        ensures reads { (k : ℕ) → S.counts source.old self.now.directory < 2 ^ k → OnlyReads (k + 1 + S.counts source.old self.now.leaves) (view S.PageSource source.old) (view S.PageSource source.new) }
        ensures few { (values : List Value) → Stands self.now (S.told source.old) values → (k : ℕ) → S.counts source.old self.now.directory < 2 ^ k → OnlyReads (k + 3 + range_count low.now high.now values / 2) (view S.PageSource source.old) (view S.PageSource source.new) }
        ensures cause { IfErr result (HasHgCause self.now (view S.PageSource source.old) (view S.PageSource source.new)) }
    {
        let wanted = Wanted::Between(low, high);
        let _pages = source.pages(self.directory);
        let count = source.pages(self.leaves);
        if count == 0 {
            return Ok(Bitmap::empty(alloc, self.slots)?);
        }
        let start = self.start(alloc, source, low)?;
        self.walk(alloc, source, start, &wanted)
    }

    /// The rows whose value equals one. It reads as a range does.
    pub fn equal<S: PageSource>(
        &self,
        alloc: Global,
        source: &mut S,
        value: &Value,
    ) -> Result<Bitmap, PageFault>
        ensures long { IfOk result (λ bits. length bits ≡ self.now.slots) }
        ensures rows { IfOk result (GivesRows self.now (S.told source.old) (λ v. is_on sides.True (comparison Eq v value.now))) }
        ensures reads { (k : ℕ) → S.counts source.old self.now.directory < 2 ^ k → OnlyReads (k + 1 + S.counts source.old self.now.leaves) (view S.PageSource source.old) (view S.PageSource source.new) }
        ensures few { (values : List Value) → Stands self.now (S.told source.old) values → (k : ℕ) → S.counts source.old self.now.directory < 2 ^ k → OnlyReads (k + 3 + range_count (Incl value.now) (Incl value.now) values / 2) (view S.PageSource source.old) (view S.PageSource source.new) }
        ensures cause { IfErr result (HasHgCause self.now (view S.PageSource source.old) (view S.PageSource source.new)) }
    {
        let low = Bound::Incl(value.again());
        let high = Bound::Incl(value.again());
        self.range(alloc, source, &low, &high)
    }
}
