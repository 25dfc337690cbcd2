//! Laws of columns. The functions do nothing; a caller whose proof needs a law calls them.
ghost use Rattle.std.specs.Prelude.{◌≡◌, ℕ, List, Option};
ghost use Rattle.iq_base.specs.declared.values.Value.{Value};
ghost use Rattle.iq_pages.specs.Pages.{Pages};
ghost use Rattle.iq_fp.specs.Stands.{Stands};
ghost use Rattle.iq_fp.specs.Laws.{DependsOnPages, MovesWithPages, HasPages, RoomWithin, NoneLonger};

use crate::fp::Fp;
use iq_base::{Column, width};

/// Nothing: what a column stands for depends on the pages of its two objects alone, and on their place only by their numbers; and it
/// has as many pages as it needs.
pub fn stands_law(fp: &Fp)
    ensures pages { DependsOnPages fp.now }
    ensures place { MovesWithPages fp.now }
    ensures count { (told : ℕ → Option Pages) (values : List Value) → Stands fp.now told values → HasPages fp.now told }
{
    let _width = width(fp.kind);
}

/// Nothing: rows within the limit of a column's table find room in the column.
pub fn room_law(fp: &Fp)
    ensures { RoomWithin fp.now }
{
    let _width = width(fp.kind);
}

/// Nothing: no column has longer texts than the longest, by which the limit of rows goes.
pub fn longest_law(columns: &[Column])
    ensures { NoneLonger columns.now }
{
    let _columns = columns;
}
