//! Lists of pieces of one width, which go into pages.
ghost use Rattle.std.specs.Prelude.{◌≡◌, ◌<◌, ◌≤◌, ℕ, ◌+◌, List, length, map};
ghost use Rattle.iq_base.specs.Cells.{width, cell};
ghost use Rattle.iq_cells.specs.Pieces.{piece_in};
ghost use Rattle.iq_pieces.specs.Counts.{per_page};
ghost use Rattle.iq_pieces.specs.Objects.{piece_at};

use iq_base::Page;
use iq_cells::Cells;

/// A list of pieces of one width in bytes, which can be written into pages.
pub trait Pieces {
    /// How many bytes a piece has.
    ghost width: { Self → ℕ };

    /// The bytes of each piece.
    ghost pieces: { Self → List (List ℕ) };

    /// How many bytes a piece has.
    fn width(&self) -> usize
        ensures value { result ≡ width self.now }
        ensures small { (1 ≤ result) × (result ≤ 257) };

    /// How many pieces there are.
    fn count(&self) -> usize
        ensures { result ≡ length (pieces self.now) };

    /// Writes `n` pieces from one on into a page, from one place on. The pieces before that place stay.
    fn put(&self, from: usize, n: usize, page: &mut Page, first: usize)
        requires there { from + n ≤ length (pieces self.now) }
        requires fits { first + n ≤ per_page (width self.now) }
        ensures here { (k : ℕ) → k < n → piece_in (width self.now) page.new (first + k) ≡ piece_at (from + k) (pieces self.now) }
        ensures before { (j : ℕ) → j < first → piece_in (width self.now) page.new j ≡ piece_in (width self.now) page.old j };
}

impl Pieces for Cells {
    ghost width = { λ column. width column.kind };

    ghost pieces = { λ column. map (cell column.kind) column.values };

    fn width(&self) -> usize {
        iq_base::width(self.kind())
    }

    fn count(&self) -> usize {
        self.len()
    }

    fn put(&self, from: usize, n: usize, page: &mut Page, first: usize) {
        self.put_in_page(from, n, page, first);
    }
}
