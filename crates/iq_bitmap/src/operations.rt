//! An operation on each bit of two lists of words, four words at a time.
ghost use Rattle.std.specs.Prelude.{◌≡◌, ◌+◌, ◌^◌, ◌<◌, ◌≤◌, ℕ, Bool, ◌&&◌, ◌||◌, not, length, slice_index, bit_and, bit_or};
ghost use Rattle.std.specs.Int.{w64, bit_not};
ghost use Rattle.std.specs.Simd.Lanes.{zip2, chunk, put_chunk};
ghost use Rattle.iq_bitmap.specs.Words.{IsBitwise};

use std::simd::prelude::*;

/// How many words a vector has.
const LANES: usize = 4;

/// An operation on each bit of two words, for one word and for a vector of them.
pub trait WordOperation {
    ghost on_words: { ℕ → ℕ → ℕ };

    ghost on_bits: { Bool → Bool → Bool };

    /// The operation on one word.
    fn word(a: u64, b: u64) -> u64
        ensures { result ≡ on_words a b };

    /// The operation on each word of a vector.
    fn lanes(a: u64x4, b: u64x4) -> u64x4
        ensures { result ≡ zip2 on_words a b };

    ghost bit_by_bit: { IsBitwise on_words on_bits };
}

/// Bits that are set in both.
pub struct And;

impl WordOperation for And {
    ghost use Rattle.iq_bitmap.specs.Operations.{and_bits};

    ghost on_words = { bit_and };

    ghost on_bits = { λ a b. a && b };

    ghost bit_by_bit = { and_bits };

    fn word(a: u64, b: u64) -> u64 {
        a & b
    }

    fn lanes(a: u64x4, b: u64x4) -> u64x4 {
        a & b
    }
}

/// Bits that are set in either.
pub struct Or;

impl WordOperation for Or {
    ghost use Rattle.iq_bitmap.specs.Operations.{or_bits};

    ghost on_words = { bit_or };

    ghost on_bits = { λ a b. a || b };

    ghost bit_by_bit = { or_bits };

    fn word(a: u64, b: u64) -> u64 {
        a | b
    }

    fn lanes(a: u64x4, b: u64x4) -> u64x4 {
        a | b
    }
}

/// Bits that are set in the first and not in the second.
pub struct Without;

impl WordOperation for Without {
    ghost use Rattle.iq_bitmap.specs.Operations.{without_bits};

    ghost on_words = { λ a b. bit_and a (bit_not w64 b) };

    ghost on_bits = { λ a b. a && not b };

    ghost bit_by_bit = { without_bits };

    fn word(a: u64, b: u64) -> u64 {
        a & !b
    }

    fn lanes(a: u64x4, b: u64x4) -> u64x4 {
        a & !b
    }
}

fn apply_lanes<O: WordOperation>(words: &mut [u64], at: usize, others: &[u64])
    requires words { at + 4 ≤ length words.old }
    requires others { at + 4 ≤ length others.now }
    ensures { words.new ≡ put_chunk at words.old (zip2 O.on_words (chunk at 4 words.old) (chunk at 4 others.now)) }
{
    let lanes = O::lanes(
        u64x4::from_slice(&words[at..]),
        u64x4::from_slice(&others[at..]),
    );
    lanes.copy_to_slice(&mut words[at..]);
}

/// Puts the operation on each word and the one at its place in the others in its place.
pub fn apply<O: WordOperation>(words: &mut [u64], others: &[u64])
    requires { length words.old ≡ length others.now }
    ensures value { words.new ≡ zip2 O.on_words words.old others.now }
    ensures others_fit { (k : ℕ) → slice_index others.now k < 2 ^ 64 }
{
    let mut at = 0;
    'lanes: while words.len() - at >= LANES {
        apply_lanes::<O>(words, at, others);
        at += LANES;
    }
    'rest: while at < words.len() {
        words[at] = O::word(words[at], others[at]);
        at += 1;
    }
}
