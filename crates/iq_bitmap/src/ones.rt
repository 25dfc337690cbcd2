//! How many bits of a list of words are set, four words at a time.
ghost use Rattle.std.specs.Prelude.{◌≡◌, ◌+◌, ◌≤◌, ◌<◌, ◌%◌, ◌^◌, ℕ, length, slice_index, map, sum_by, count_ones};
ghost use Rattle.std.specs.Simd.Lanes.{zip2, chunk, sum_l};

use std::simd::prelude::*;

/// How many words a vector has.
const LANES: usize = 4;

/// How many bits are set.
pub fn ones_of(words: &[u64]) -> u64
    requires { length words.now < 2 ^ 50 }
    ensures value { result ≡ sum_by count_ones words.now }
    ensures fit { (k : ℕ) → slice_index words.now k < 2 ^ 64 }
{
    let (whole, rest) = words.split_at(words.len() / LANES * LANES);
    ones_by_lanes(whole) + ones_by_words(rest)
}

/// How many bits are set, where the words fill vectors. Each lane adds up its own words.
fn ones_by_lanes(words: &[u64]) -> u64
    requires short { length words.now < 2 ^ 50 }
    requires whole { length words.now % 4 ≡ 0 }
    ensures { result ≡ sum_by count_ones words.now }
{
    let mut sums = u64x4::splat(0);
    let mut at = 0;
    'lanes: while at < words.len() {
        sums = with_ones(sums, words, at);
        at += LANES;
    }
    sum_of(sums)
}

fn with_ones(sums: u64x4, words: &[u64], at: usize) -> u64x4
    requires short { length words.now < 2 ^ 50 }
    requires within { at + 4 ≤ length words.now }
    requires room { sum_l sums < 2 ^ 57 }
    ensures { sum_l result ≡ sum_l sums + sum_by count_ones (chunk at 4 words.now) }
{
    added(sums, ones_in(u64x4::from_slice(&words[at..])))
}

fn ones_in(lanes: u64x4) -> u64x4
    ensures { result ≡ map count_ones lanes }
{
    lanes.count_ones()
}

fn added(sums: u64x4, ones: u64x4) -> u64x4
    requires { sum_l sums + sum_l ones < 2 ^ 64 }
    ensures { result ≡ zip2 (λ a b. a + b) sums ones }
{
    sums.strict_add(ones)
}

fn sum_of(lanes: u64x4) -> u64
    requires { sum_l lanes < 2 ^ 64 }
    ensures { result ≡ sum_l lanes }
{
    lanes.strict_reduce_sum()
}

fn ones_by_words(words: &[u64]) -> u64
    requires { length words.now < 2 ^ 50 }
    ensures { result ≡ sum_by count_ones words.now }
{
    words.iter().map(|word| word.count_ones() as u64).sum()
}
