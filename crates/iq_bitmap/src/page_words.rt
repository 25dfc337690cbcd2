//! The words of a page: eight bytes each, the least first.
ghost use Rattle.std.specs.Prelude.{◌≡◌, ◌<◌, ◌≤◌, ℕ, ◌+◌, ◌-◌, ◌*◌, ◌/◌, ◌%◌, ◌^◌, false, length, slice_index};
ghost use Rattle.std.specs.Int.{w64, to_le_bytes};
ghost use Rattle.std.specs.Simd.Lanes.{chunk, put_chunk};
ghost use Rattle.iq_bitmap.specs.Words.{word_count, IsLoaded, HoldsPage};
ghost use Rattle.iq_bitmap.specs.Bits.{bit_of};

use iq_base::Page;

/// How many words a page has.
pub const PAGE_WORDS: usize = 126;

/// How many rows a page has a bit for: those of a chunk.
pub const CHUNK_ROWS: u32 = 8064;

fn word_at(page: &[u8], at: usize) -> u64
    requires { at + 8 ≤ length page.now }
    ensures { to_le_bytes w64 result ≡ chunk at 8 page.now }
{
    let mut bytes = [0u8; 8];
    bytes.copy_from_slice(&page[at..at + 8]);
    u64::from_le_bytes(bytes)
}

fn put_word(page: &mut [u8], at: usize, word: u64)
    requires { at + 8 ≤ length page.old }
    ensures { page.new ≡ put_chunk at page.old (to_le_bytes w64 word) }
{
    page[at..at + 8].copy_from_slice(&word.to_le_bytes());
}

/// Puts the bits of a page in the place of those from word `at` on, as far as there are bits: `len` of them, in as many words
/// as hold them.
pub fn load_bits(words: &mut [u64], len: usize, at: usize, page: &Page)
    requires small { len < 2 ^ 32 }
    requires enough { length words.old ≡ word_count len }
    ensures { HoldsPage words.old words.new (at * 64) len page.now }
{
    load_words(words, at, page);
    trim(words, len);
}

/// Puts the words of a page in the place of those from `at` on, as far as there are words.
fn load_words(words: &mut [u64], at: usize, page: &Page)
    requires { length words.old < 2 ^ 50 }
    ensures { IsLoaded words.old words.new at page.now }
{
    let end = words.len().min(at.saturating_add(PAGE_WORDS));
    for k in at..end {
        words[k] = word_at(page, (k - at) * 8);
    }
}

/// Clears the bits from `len` on, where the words are as many as hold that many bits.
fn trim(words: &mut [u64], len: usize)
    requires { length words.old ≡ word_count len }
    ensures before { (i : ℕ) → i < len → bit_of 64 words.new i ≡ bit_of 64 words.old i }
    ensures past { (i : ℕ) → len ≤ i → bit_of 64 words.new i ≡ false }
{
    if len % 64 != 0 {
        words[len / 64] &= (1 << (len % 64)) - 1;
    }
}

/// Puts the words from `at` on into a page, and zeros where there are no more.
pub fn store_words(words: &[u64], at: usize, page: &mut Page)
    requires small { length words.now < 2 ^ 50 }
    requires within { at ≤ length words.now }
    ensures { (i : ℕ) → i < CHUNK_ROWS → bit_of 8 page.new i ≡ bit_of 64 words.now (at * 64 + i) }
{
    let count = PAGE_WORDS.min(words.len() - at);
    for k in 0..count {
        put_word(page, k * 8, words[at + k]);
    }
    page[count * 8..].fill(0);
}
