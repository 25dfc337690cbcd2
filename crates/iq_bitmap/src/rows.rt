//! The walk over the rows that are set.
ghost use Rattle.std.specs.Prelude.{◌≡◌};
ghost use Rattle.std.specs.Iterator.{YieldsFirst, item_count};
ghost use Rattle.iq_bitmap.specs.Bits.{rows_from};

use crate::bitmap::Bitmap;
use std::marker::Model;

/// The rows of a bitmap that are set, in order. A whole walk costs a step for each 64 rows and one for each row that is set.
#[derive(Drop)]
pub struct Rows<'a> {
    bitmap: &'a Bitmap,
    from: u32,
}

impl<'a> Model for Rows<'a> {
    ghost use Rattle.std.specs.Prelude.{ℕ, List, drop};
    ghost use Rattle.iq_bitmap.specs.Bits.{rows_from};

    ghost Value = { List ℕ };

    ghost view = { λ r. rows_from r.from (drop r.from r.bitmap.now) };
}

impl<'a> Rows<'a> {
    /// The rows from the first on.
    pub(crate) fn of(bitmap: &'a Bitmap) -> Rows<'a>
        ensures { result ≡ rows_from 0 bitmap.now }
    {
        Rows { bitmap, from: 0 }
    }
}

impl<'a> Iterator for Rows<'a> {
    type Item = u32;

    ghost next_gives = { YieldsFirst (λ rows. rows) };

    ghost remaining = { item_count (λ rows. rows) };

    fn next(&mut self) -> Option<u32> {
        let Some(row) = self.bitmap.next(self.from) else {
            return None;
        };
        self.from = row + 1;
        Some(row)
    }
}
