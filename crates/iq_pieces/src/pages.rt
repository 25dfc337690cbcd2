//! One page of an object.
ghost use Rattle.std.specs.Prelude.{◌≡◌, ◌<◌, ◌≤◌, ◌+◌, ℕ, Some, None, max, OnOk, OnErr, IfErr};
ghost use Rattle.iq_base.specs.declared.sizes.TheConstants.{MOST_PAGES};
ghost use Rattle.iq_pages.specs.PageCalls.{view};
ghost use Rattle.iq_pages.specs.Pages.{IsPageOf, CountsMore, HasCause, NamesPage};
ghost use Rattle.iq_pieces.specs.Counts.{KeepsOthers, OnlyReads};
ghost use Rattle.iq_pieces.specs.Objects.{SavesPage};
ghost use Rattle.iq_pieces.specs.Faults.{HasPageCause};

use iq_base::Page;
use iq_pages::{PageFault, PageSink, PageSource};

/// Reads a page of an object, which may have no such page. It costs one read.
pub fn read_page<S: PageSource>(
    source: &mut S,
    object: u32,
    n: u32,
    into: &mut Page,
) -> Result<(), PageFault>
    ensures ok { OnOk result (IsPageOf (S.told source.old object) n into.new) }
    ensures there { OnOk result (n < S.counts source.old object) }
    ensures reads { OnlyReads 1 (view S.PageSource source.old) (view S.PageSource source.new) }
    ensures cause { IfErr result (HasPageCause object (view S.PageSource source.old) (view S.PageSource source.new)) }
    ensures names { IfErr result (NamesPage n) }
{
    if n >= source.pages(object) {
        return Err(PageFault::BadPage { object, page: n });
    }
    source.page(object, n, into)
}

/// Writes a page of an object anew, or puts it behind the last one. It costs one write.
pub fn save_page<S: PageSink>(
    sink: &mut S,
    object: u32,
    n: u32,
    from: &Page,
) -> Result<(), PageFault>
    requires most { n < MOST_PAGES }
    requires reached { n ≤ S.counts sink.old object }
    ensures ok { OnOk result (SavesPage n from.now (S.told sink.old object) (S.told sink.new object)) }
    ensures dark { OnOk result (S.told sink.new object ≡ None → S.told sink.old object ≡ None) }
    ensures count { OnOk result (n + 1 ≤ S.counts sink.new object) }
    ensures others { KeepsOthers object (view S.PageSource sink.old) (view S.PageSource sink.new) }
    ensures reads { S.reads sink.new ≡ S.reads sink.old }
    ensures written { OnOk result (CountsMore 1 (S.writes sink.old) (S.writes sink.new)) }
    ensures unwritten { OnErr result (S.writes sink.new ≡ S.writes sink.old) }
    ensures later { S.faults sink.old ≤ S.faults sink.new }
    ensures cause { IfErr result (HasCause object (view S.PageSource sink.old) (view S.PageSource sink.new)) }
{
    if n < sink.pages(object) {
        sink.set_page(object, n, from)
    } else {
        sink.push_page(object, from)
    }
}
