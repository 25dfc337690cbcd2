//! Lists that grow by the pieces of pages.
ghost use Rattle.std.specs.Prelude.{◌≡◌, ◌<◌, ◌≤◌, ℕ, ◌++◌, List, length, map, OnOk, OnErr, IfErr};
ghost use Rattle.iq_base.specs.Cells.{cell};
ghost use Rattle.iq_pieces.specs.Counts.{per_page};
ghost use Rattle.iq_pieces.specs.Objects.{pieces_in};
ghost use Rattle.iq_pieces.specs.Faults.{Form, CellsOf, form_width, ArePieces};
ghost use Rattle.iq_pieces.specs.Taking.{HasPieceCause};

use iq_base::{NoMemory, Page};
use iq_cells::{Cells, CellsFault};

/// Why the pieces of a page aren't taken in.
#[derive(Clone, Copy, Debug, PartialEq, Eq)]
pub enum PieceFault {
    /// The bytes of a piece aren't of its form.
    BadPiece,
    /// An allocation was refused.
    NoMemory,
}

impl From<NoMemory> for PieceFault {
    ghost use Rattle.std.specs.Prelude.{◌≡◌};
    ghost use Rattle.iq_pieces.specs.declared.taking.PieceFault.TheVariants as faults;

    ghost from_gives = { λ _ e. e ≡ faults.NoMemory };

    fn from(_: NoMemory) -> PieceFault {
        PieceFault::NoMemory
    }
}

/// A list that takes in pieces of one form from pages.
pub trait Takes {
    /// What each piece has to be.
    ghost form: { Self → Form };

    /// The pieces that were taken in.
    ghost taken: { Self → List (List ℕ) };

    /// How many bytes a piece has.
    fn width(&self) -> usize
        ensures value { result ≡ form_width (form self.now) }
        ensures small { (1 ≤ result) × (result ≤ 257) };

    /// Takes in the first `n` pieces of a page.
    fn take(&mut self, page: &Page, n: usize) -> Result<(), PieceFault>
        requires { n ≤ per_page (form_width (form self.old)) }
        ensures form { form self.new ≡ form self.old }
        ensures ok { OnOk result (taken self.new ≡ taken self.old ++ pieces_in (form_width (form self.old)) page.now n) }
        ensures cause { IfErr result (HasPieceCause (form self.old) page.now n) };
}

impl Takes for Cells {
    ghost form = { λ column. CellsOf column.kind };

    ghost taken = { λ column. map (cell column.kind) column.values };

    fn width(&self) -> usize {
        iq_base::width(self.kind())
    }

    fn take(&mut self, page: &Page, n: usize) -> Result<(), PieceFault> {
        match self.extend_from_page(page, n) {
            Ok(()) => Ok(()),
            Err(CellsFault::BadCell) => Err(PieceFault::BadPiece),
            Err(CellsFault::NoMemory) => Err(PieceFault::NoMemory),
        }
    }
}
