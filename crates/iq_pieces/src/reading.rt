//! Reading the pieces of an object.
ghost use Rattle.std.specs.Prelude.{◌≡◌, ◌<◌, ◌≤◌, ℕ, ◌+◌, ◌*◌, ◌++◌, [], Some, length, OnOk, OnErr, IfErr};
ghost use Rattle.iq_pages.specs.PageCalls.{view};
ghost use Rattle.iq_pages.specs.Pages.{Pages};
ghost use Rattle.iq_pieces.specs.Counts.{per_page, pages_for, OnlyReads};
ghost use Rattle.iq_pieces.specs.Objects.{AreFirst};
ghost use Rattle.iq_pieces.specs.Faults.{form_width, pieces_on, HasPiecesCause};
ghost use Rattle.iq_pieces.specs.Reading.{TakesPage};

use crate::pages::read_page;
use crate::taking::{PieceFault, Takes};
use iq_base::PAGE_BYTES;
use iq_pages::{PageFault, PageSource};

/// Reads the first `count` pieces of an object in order into an empty list, each page once. Pages behind those aren't read.
pub fn read<S: PageSource, T: Takes>(
    source: &mut S,
    object: u32,
    count: u32,
    into: &mut T,
) -> Result<(), PageFault>
    requires { T.taken into.old ≡ [] }
    ensures first { OnOk result (AreFirst (S.told source.old object) (form_width (T.form into.old)) (T.taken into.new)) }
    ensures long { OnOk result (length (T.taken into.new) ≡ count) }
    ensures form { T.form into.new ≡ T.form into.old }
    ensures reads { OnlyReads (pages_for (form_width (T.form into.old)) count) (view S.PageSource source.old) (view S.PageSource source.new) }
    ensures cause { IfErr result (HasPiecesCause (T.form into.old) count object (view S.PageSource source.old) (view S.PageSource source.new)) }
{
    let per = PAGE_BYTES / into.width();
    let count = count as usize;
    for p in 0..count.div_ceil(per) {
        let here = per.min(count - per * p);
        take_page(source, object, p as u32, here, into)?;
    }
    Ok(())
}

/// Takes in the first pieces of a page of an object.
fn take_page<S: PageSource, T: Takes>(
    source: &mut S,
    object: u32,
    p: u32,
    n: usize,
    into: &mut T,
) -> Result<(), PageFault>
    requires { n ≤ per_page (form_width (T.form into.old)) }
    ensures ok { OnOk result (TakesPage (S.told source.old object) (form_width (T.form into.old)) p n (T.taken into.old) (T.taken into.new)) }
    ensures form { T.form into.new ≡ T.form into.old }
    ensures reads { OnlyReads 1 (view S.PageSource source.old) (view S.PageSource source.new) }
    ensures cause { (count : ℕ) → p < pages_for (form_width (T.form into.old)) count → n ≡ pieces_on (form_width (T.form into.old)) count p → IfErr result (HasPiecesCause (T.form into.old) count object (view S.PageSource source.old) (view S.PageSource source.new)) }
{
    let mut page = [0; PAGE_BYTES];
    read_page(source, object, p, &mut page)?;
    match into.take(&page, n) {
        Ok(()) => Ok(()),
        Err(PieceFault::BadPiece) => Err(PageFault::BadPage { object, page: p }),
        Err(PieceFault::NoMemory) => Err(PageFault::NoMemory),
    }
}
