//! The bits of a list of words of 64 bits, the least bit of the first word first.
ghost use Rattle.std.specs.Prelude.{◌≡◌, ◌≢◌, ◌==◌, ◌+◌, ◌*◌, ◌^◌, ◌<◌, ◌≤◌, ℕ, true, length, IfSome, IfNone};
ghost use Rattle.std.specs.Int.{bit_at};
ghost use Rattle.iq_bitmap.specs.Bits.{bit_of};
ghost use Rattle.iq_bitmap.specs.Words.{IsFirstBit, HasNoBitFrom, IsFilled};

/// The word with one of its bits set or cleared.
pub fn with_bit(word: u64, at: u32, on: bool) -> u64
    requires { at < 64 }
    ensures here { (bit_at result at == 1) ≡ on }
    ensures others { (i : ℕ) → i < 64 → i ≢ at → bit_at result i ≡ bit_at word i }
{
    if on {
        word | (1 << at)
    } else {
        word & !(1 << at)
    }
}

/// Sets the bits below `end`.
pub fn fill_below(words: &mut [u64], end: usize)
    requires { end ≤ length words.old * 64 }
    ensures below { (i : ℕ) → i < end → bit_of 64 words.new i ≡ true }
    ensures others { (i : ℕ) → end ≤ i → bit_of 64 words.new i ≡ bit_of 64 words.old i }
{
    let whole = end / 64;
    fill_words(words, whole);
    if end % 64 != 0 {
        words[whole] |= (1 << (end % 64)) - 1;
    }
}

fn fill_words(words: &mut [u64], whole: usize)
    requires { whole ≤ length words.old }
    ensures { IsFilled words.old words.new whole }
{
    for k in 0..whole {
        words[k] = u64::MAX;
    }
}

/// The place of the first bit that is set, from a place on. It costs a step for each word that it passes.
pub fn first_set(words: &[u64], from: usize) -> Option<usize>
    requires { length words.now < 2 ^ 50 }
    ensures found { IfSome result (λ i. IsFirstBit words.now from i) }
    ensures none { IfNone result (HasNoBitFrom words.now from) }
{
    let at = from / 64;
    if at >= words.len() {
        return None;
    }
    let rest = words[at] >> (from % 64);
    if rest != 0 {
        return Some(from + rest.trailing_zeros() as usize);
    }
    first_set_word(words, at + 1)
}

fn first_set_word(words: &[u64], at: usize) -> Option<usize>
    requires { length words.now < 2 ^ 50 }
    ensures found { IfSome result (λ i. IsFirstBit words.now (at * 64) i) }
    ensures none { IfNone result (HasNoBitFrom words.now (at * 64)) }
{
    for k in at..words.len() {
        if words[k] != 0 {
            return Some(k * 64 + words[k].trailing_zeros() as usize);
        }
    }
    None
}
