//! Setting the rows of wanted entries.
ghost use Rattle.std.specs.Prelude.{◌≡◌, ◌<◌, true, length, slice_set, if◌then◌else◌, IfSome, IfNone};
ghost use Rattle.std.specs.List.{All};
ghost use Rattle.iq_hg.specs.Marks.{Marks};

use crate::wanted::Wanted;
use crate::wanting::{is_past, is_wanted};
use iq_bitmap::Bitmap;
use iq_hg_leaves::Entries;

/// Sets the rows of the wanted entries, up to the first that stands behind all that is wanted, and answers how many were looked at.
/// It answers nothing where a row is past the bitmap.
pub(crate) fn mark(entries: &Entries, wanted: &Wanted<'_>, bits: &mut Bitmap) -> Option<usize>
    ensures long { length bits.new ≡ length bits.old }
    ensures ok { IfSome result (λ n. Marks wanted.now entries.now.entries n bits.old bits.new) }
    ensures bad { IfNone result (¬ (All (λ entry. entry.row < length bits.old) entries.now.entries)) }
{
    let len = bits.len();
    for i in 0..entries.len() {
        if is_past(wanted, entries.cells(), i) {
            return Some(i);
        }
        let row = entries.row(i);
        if row >= len {
            return None;
        }
        set_where(bits, row, is_wanted(wanted, entries.cells(), i));
    }
    Some(entries.len())
}

/// Sets a row, or leaves it.
fn set_where(bits: &mut Bitmap, row: u32, on: bool)
    requires { row < length bits.old }
    ensures { bits.new ≡ (if on then slice_set bits.old row true else bits.old) }
{
    if on {
        bits.set(row, true);
    }
}
