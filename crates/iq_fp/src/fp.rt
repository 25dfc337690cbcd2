//! What is kept of a column beside its pages.
ghost use Rattle.std.specs.Prelude.{◌≡◌, ◌<◌, ◌≤◌, ◌^◌, ◌↔◌, IsTrue};
ghost use Rattle.iq_fp.specs.Forms.{bytes_of, code_width};
ghost use Rattle.iq_fp.specs.Stands.{HasRoom};
ghost use Rattle.iq_fp.specs.Laws.{BeginsEmpty};

use iq_base::{Kind, MOST_PAGES, PAGE_BYTES, width};

/// How many values codes of 3 bytes tell apart.
const MOST_ROWS: usize = 16_777_216;

/// A column: the numbers of its objects of codes and of values, what it holds beside NULL, how many rows it has, and how many
/// distinct values these had since it was made, NULL one of them. The values of rows that were removed count.
#[derive(Clone, Copy, Debug, PartialEq, Eq)]
pub struct Fp {
    pub codes: u32,
    pub values: u32,
    pub kind: Kind,
    pub slots: u32,
    pub distinct: u32,
}

impl Fp {
    /// A column without rows, whose objects have these numbers. It stands for no values where these have no pages.
    pub fn empty(codes: u32, values: u32, kind: Kind) -> Fp
        ensures is { result ≡ record { codes = codes; values = values; kind = kind; slots = 0; distinct = 0 } }
        ensures stands { BeginsEmpty result }
    {
        let _width = width(kind);
        Fp {
            codes,
            values,
            kind,
            slots: 0,
            distinct: 0,
        }
    }

    /// Whether so many more values find room: codes of 3 bytes tell them apart, and no object gets more pages than it may have.
    pub fn has_room(&self, more: usize) -> bool
        ensures { IsTrue result ↔ HasRoom self.now more }
    {
        let per = PAGE_BYTES / width(self.kind);
        self.codes != self.values
            && self.distinct <= self.slots
            && more <= MOST_ROWS
            && self.slots as usize + more <= MOST_ROWS
            && self.slots as usize + more <= per * MOST_PAGES as usize
    }
}

/// How many bytes a code has. It follows from the number of distinct values: 1 up to 256, 2 up to 65,536, else 3.
#[derive(Clone, Copy, Debug, PartialEq, Eq)]
pub enum Form {
    One,
    Two,
    Three,
}

/// The form of so many distinct values. It takes no memory.
pub fn form_of(distinct: u32) -> Form
    ensures { bytes_of result ≡ code_width distinct }
{
    if distinct > 65_536 {
        Form::Three
    } else if distinct > 256 {
        Form::Two
    } else {
        Form::One
    }
}

/// How many bytes a code has where there are so many distinct values.
pub fn code_bytes(distinct: u32) -> usize
    ensures { result ≡ code_width distinct }
{
    match form_of(distinct) {
        Form::One => 1,
        Form::Two => 2,
        Form::Three => 3,
    }
}
