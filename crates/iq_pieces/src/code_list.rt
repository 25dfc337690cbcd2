//! Codes of W bytes, which come from pages.
ghost use Rattle.std.specs.Prelude.{◌≡◌, ◌<◌, ◌≤◌, ◌++◌, ◌∷◌, ℕ, [], map, slice_index, OnOk};
ghost use Rattle.byteorder.specs.Endian.{little_bytes};
ghost use Rattle.iq_pieces.specs.Faults.{CodesBelow};
ghost use Rattle.iq_pieces.specs.Codes.{AreBelow};

use crate::taking::{PieceFault, Takes};
use iq_base::{NoMemory, Page};
use iq_cells::code_at;
use std::alloc::Global;

/// Codes that pages keep in W bytes each, the lowest first: W is 1, 2 or 3. Each is below a number.
#[derive(Drop)]
pub struct CodeList<const W: usize> {
    codes: Vec<u32>,
    below: u32,
    ghost narrow: { (1 ≤ W) × (W ≤ 3) },
    ghost low: { AreBelow codes.items below },
}

impl<const W: usize> CodeList<W> {
    /// No codes, of those below a number. It takes no memory.
    pub fn new(alloc: Global, below: u32) -> CodeList<W>
        requires { (1 ≤ W) × (W ≤ 3) }
        ensures codes { result.codes.items ≡ [] }
        ensures below { result.below ≡ below }
    {
        CodeList {
            codes: Vec::new(alloc),
            below,
        }
    }

    /// The codes that came.
    pub fn into_codes(self) -> Vec<u32>
        ensures codes { result.items ≡ self.entry.codes.items }
        ensures low { AreBelow result.items self.entry.below }
    {
        let CodeList { codes, below: _ } = self;
        codes
    }
}

impl<const W: usize> Takes for CodeList<W> {
    ghost form = { λ it. CodesBelow W it.below };

    ghost taken = { λ it. map (little_bytes W) it.codes.items };

    fn width(&self) -> usize {
        W
    }

    fn take(&mut self, page: &Page, n: usize) -> Result<(), PieceFault> {
        let _bytes = are_bytes(page);
        for i in 0..n {
            let code = code_at::<W>(page, i);
            if code >= self.below {
                return Err(PieceFault::BadPiece);
            }
            push(&mut self.codes, code)?;
        }
        Ok(())
    }
}

/// Puts a code at the end of a list.
fn push(codes: &mut Vec<u32>, code: u32) -> Result<(), NoMemory>
    ensures ok { OnOk result (codes.new.items ≡ codes.old.items ++ code ∷ []) }
    ensures low { (below : ℕ) → AreBelow codes.old.items below → code < below → AreBelow codes.new.items below }
{
    codes.push(code)?;
    Ok(())
}

/// Nothing: the bytes of a page are bytes, which its type tells.
fn are_bytes(page: &Page)
    ensures { (k : ℕ) → slice_index page.now k < 256 }
{
    let _byte = code_at::<1>(page, 0);
}
