//! Codes of W bytes, which go into pages.
ghost use Rattle.std.specs.Prelude.{◌≡◌, ◌<◌, ◌≤◌, ◌^◌, ℕ, length, slice_index, map};
ghost use Rattle.byteorder.specs.Endian.{little_bytes};

use crate::pieces::Pieces;
use iq_base::Page;
use iq_cells::put_code;

/// Codes that pages keep in W bytes each, the lowest first: W is 1, 2 or 3.
#[derive(Drop)]
pub struct Codes<'a, const W: usize> {
    codes: &'a [u32],
    ghost narrow: { (1 ≤ W) × (W ≤ 3) },
    ghost small: { (k : ℕ) → k < length codes.now → slice_index codes.now k < 256 ^ W },
}

impl<'a, const W: usize> Codes<'a, W> {
    /// Codes, each of which fits W bytes.
    pub fn of(codes: &'a [u32]) -> Codes<'a, W>
        requires narrow { (1 ≤ W) × (W ≤ 3) }
        requires small { (k : ℕ) → k < length codes.now → slice_index codes.now k < 256 ^ W }
        ensures { result.codes.now ≡ codes.now }
    {
        Codes { codes }
    }
}

impl<'a, const W: usize> Pieces for Codes<'a, W> {
    ghost width = { λ _. W };

    ghost pieces = { λ it. map (little_bytes W) it.codes.now };

    fn width(&self) -> usize {
        W
    }

    fn count(&self) -> usize {
        self.codes.len()
    }

    fn put(&self, from: usize, n: usize, page: &mut Page, first: usize) {
        for k in 0..n {
            put_code::<W>(self.codes[from + k], page, first + k);
        }
    }
}
