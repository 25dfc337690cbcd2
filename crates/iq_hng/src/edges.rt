//! Edges among the numbers of a width: those from one on, or those behind it.
ghost use Rattle.std.specs.Prelude.{◌≡◌, ◌<◌, ◌≤◌, ◌+◌, ◌^◌, ◌↔◌, ◌<ℤ◌, ◌≤ℤ◌, pos, neg_ℤ, length, cond, IsTrue};
ghost use Rattle.iq_base.specs.declared.values.Value.{Value};
ghost use Rattle.iq_bitmap.specs.Bits.{both, either};
ghost use Rattle.iq_hng.specs.Keys.{bits_of, bit_of, key_of, half, IsSlice};
ghost use Rattle.iq_hng.specs.Slices.{holds_of};
ghost use Rattle.iq_hng.specs.Ranges.{is_past, past_op};

use crate::hng::Width;
use crate::keys::{bit_of, lifted};
use iq_bitmap::Bitmap;

/// An edge: past it are the keys greater than this one, and the same one too where it is `also`.
#[derive(Clone, Copy, Debug)]
pub(crate) struct Edge {
    pub(crate) key: u64,
    pub(crate) also: bool,
}

impl Edge {
    /// The edge before a number where it is `also` past it, and else the edge behind it. Beyond all numbers of the width it is the
    /// last one, or the first.
    pub(crate) fn of(width: Width, number: i64, also: bool) -> Edge
        ensures { (v : Value) → IsSlice (bits_of width) v → is_past result.also result.key (bits_of width) (key_of (bits_of width) v) ≡ holds_of (past_op also) number v }
    {
        let bits = width.bits();
        if is_above_all(bits, number) {
            return Edge {
                key: greatest(width),
                also: false,
            };
        }
        if is_below_all(bits, number) {
            return Edge { key: 0, also: true };
        }
        Edge {
            key: lifted(bits, number),
            also,
        }
    }

    /// Whether all numbers of the width are past it, or none is, so that their bits tell nothing.
    pub(crate) fn is_end(&self, width: Width) -> bool
        ensures { IsTrue result → (v : Value) → IsSlice (bits_of width) v → is_past self.now.also self.now.key 0 (key_of (bits_of width) v) ≡ is_past self.now.also self.now.key (bits_of width) (key_of (bits_of width) v) }
    {
        if self.also {
            self.key == 0
        } else {
            self.key == greatest(width)
        }
    }

    /// Takes the rows that are past it by their lowest bits to those that are by the next bit too, given its plane.
    pub(crate) fn narrow(&self, j: u32, plane: &Bitmap, rows: &mut Bitmap)
        requires bit { j < 64 }
        requires long { length rows.old ≡ length plane.now }
        ensures { rows.new ≡ cond (bit_of j self.now.key) (both rows.old plane.now) (either rows.old plane.now) }
    {
        if bit_of(j, self.key) {
            rows.and_with(plane);
        } else {
            rows.or_with(plane);
        }
    }
}

/// The greatest key.
fn greatest(width: Width) -> u64
    ensures { result + 1 ≡ 2 ^ bits_of width }
{
    match width {
        Width::Int => 4_294_967_295,
        Width::Big => 18_446_744_073_709_551_615,
    }
}

/// Whether a number is greater than all of so many bits.
fn is_above_all(bits: u32, number: i64) -> bool
    requires some { 1 ≤ bits }
    requires most { bits ≤ 64 }
    ensures { IsTrue result ↔ (pos (half bits) ≤ℤ number) }
{
    1_i128 << (bits - 1) <= number as i128
}

/// Whether a number is less than all of so many bits.
fn is_below_all(bits: u32, number: i64) -> bool
    requires some { 1 ≤ bits }
    requires most { bits ≤ 64 }
    ensures { IsTrue result ↔ (number <ℤ neg_ℤ (pos (half bits))) }
{
    (number as i128) < -(1_i128 << (bits - 1))
}
