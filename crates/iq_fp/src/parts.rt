//! Writing the codes of a column.
ghost use Rattle.std.specs.Prelude.{◌≡◌, ◌<◌, ◌≤◌, ◌+◌, ◌*◌, ◌/◌, ◌^◌, ℕ, length, map, OnOk, IfErr};
ghost use Rattle.byteorder.specs.Endian.{little_bytes};
ghost use Rattle.iq_base.specs.declared.sizes.TheConstants.{MOST_PAGES};
ghost use Rattle.iq_pages.specs.PageCalls.{view};
ghost use Rattle.iq_pages.specs.Pages.{CountsMore, HasCause};
ghost use Rattle.iq_pieces.specs.Codes.{AreBelow};
ghost use Rattle.iq_pieces.specs.Counts.{per_page, pages_changed, CountsUpTo, KeepsOthers};
ghost use Rattle.iq_pieces.specs.Objects.{AppendsBehind, HoldsAnew};
ghost use Rattle.iq_fp.specs.Forms.{bytes_of};

use crate::fp::Form;
use iq_base::Page;
use iq_pages::{PageFault, PageSink};
use iq_pieces::{Codes, append_behind, rewrite};

/// Puts codes behind the last one of an object, whose last page is known. No page is read.
pub(crate) fn append_codes<S: PageSink>(
    sink: &mut S,
    object: u32,
    count: u32,
    codes: &[u32],
    last: &Page,
    form: Form,
) -> Result<(), PageFault>
    requires fit { AreBelow codes.now (256 ^ bytes_of form) }
    requires small { count + length codes.now < 2 ^ 32 }
    requires room { count + length codes.now ≤ per_page (bytes_of form) * MOST_PAGES }
    requires reached { count / per_page (bytes_of form) ≤ S.counts sink.old object }
    ensures ok { OnOk result (AppendsBehind (bytes_of form) count last.now (map (little_bytes (bytes_of form)) codes.now) (S.told sink.old object) (S.told sink.new object)) }
    ensures others { KeepsOthers object (view S.PageSource sink.old) (view S.PageSource sink.new) }
    ensures reads { S.reads sink.new ≡ S.reads sink.old }
    ensures written { OnOk result (CountsMore (pages_changed (bytes_of form) count (length codes.now)) (S.writes sink.old) (S.writes sink.new)) }
    ensures unwritten { CountsUpTo (pages_changed (bytes_of form) count (length codes.now)) (S.writes sink.old) (S.writes sink.new) }
    ensures later { S.faults sink.old ≤ S.faults sink.new }
    ensures cause { IfErr result (HasCause object (view S.PageSource sink.old) (view S.PageSource sink.new)) }
{
    match form {
        Form::One => append_behind(sink, object, count, &Codes::<1>::of(codes), last),
        Form::Two => append_behind(sink, object, count, &Codes::<2>::of(codes), last),
        Form::Three => append_behind(sink, object, count, &Codes::<3>::of(codes), last),
    }
}

/// Makes an object of codes anew. No page is read.
pub(crate) fn rewrite_codes<S: PageSink>(
    sink: &mut S,
    object: u32,
    codes: &[u32],
    form: Form,
) -> Result<(), PageFault>
    requires fit { AreBelow codes.now (256 ^ bytes_of form) }
    requires few { length codes.now ≤ 256 ^ 3 }
    ensures ok { OnOk result (HoldsAnew (bytes_of form) (map (little_bytes (bytes_of form)) codes.now) (S.told sink.old object) (S.told sink.new object)) }
    ensures others { KeepsOthers object (view S.PageSource sink.old) (view S.PageSource sink.new) }
    ensures reads { S.reads sink.new ≡ S.reads sink.old }
    ensures written { OnOk result (CountsMore (pages_changed (bytes_of form) 0 (length codes.now)) (S.writes sink.old) (S.writes sink.new)) }
    ensures unwritten { CountsUpTo (pages_changed (bytes_of form) 0 (length codes.now)) (S.writes sink.old) (S.writes sink.new) }
    ensures later { S.faults sink.old ≤ S.faults sink.new }
    ensures cause { IfErr result (HasCause object (view S.PageSource sink.old) (view S.PageSource sink.new)) }
{
    match form {
        Form::One => rewrite(sink, object, &Codes::<1>::of(codes)),
        Form::Two => rewrite(sink, object, &Codes::<2>::of(codes)),
        Form::Three => rewrite(sink, object, &Codes::<3>::of(codes)),
    }
}
