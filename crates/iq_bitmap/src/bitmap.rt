//! The bitmap.
ghost use Rattle.std.specs.Prelude.{◌≡◌, ◌<◌, ◌≤◌, ◌+◌, ◌*◌, ◌^◌, ℕ, Bool, true, false, ◌++◌, drop, length, replicate, slice_index_or, slice_set, count_by, IfOk, IfSome, IfNone, IsTrue, ◌↔◌};
ghost use Rattle.std.specs.Int.{bit_at};
ghost use Rattle.std.specs.Simd.Lanes.{zip2};
ghost use Rattle.iq_bitmap.specs.Bits.{both, either, difference, IsNextSet, HasNoneFrom, page_bits, chunk_of, with_chunk, rows_from};

use crate::operations::{self, And, Or, Without, WordOperation};
use crate::page_words::{self, CHUNK_ROWS, PAGE_WORDS};
use crate::rows::Rows;
use crate::{ones, words};
use iq_base::{NoMemory, Page};
use std::alloc::Global;
use std::marker::Model;

/// How many bits a word has.
const WORD: u32 = 64;

/// A list of bits, one for each row from 0. Bit i is bit i mod 64, least first, of word i div 64; the bits past the length
/// are zero.
#[derive(Debug, Drop)]
pub struct Bitmap {
    words: Vec<u64>,
    len: u32,
}

impl Model for Bitmap {
    ghost use Rattle.std.specs.Prelude.{List, Bool};
    ghost use Rattle.iq_bitmap.specs.Bits.{bits_of};
    ghost use Rattle.iq_bitmap.specs.Words.{IsTight};

    ghost Value = { List Bool };

    ghost view = { λ b. bits_of 64 b.words.items b.len };

    ghost invariant = { λ b. IsTight b.words.items b.len };
}

impl Bitmap {
    /// A bitmap of `len` rows of which none is set. It takes memory, a word for each 64 rows, as `full` and `copied` do; no other
    /// call takes any.
    pub fn empty(alloc: Global, len: u32) -> Result<Bitmap, NoMemory>
        ensures { IfOk result (λ b. b ≡ replicate len false) }
    {
        let count = len.div_ceil(WORD) as usize;
        let words = vec![in alloc; 0u64; count]?;
        Ok(Bitmap { words, len })
    }

    /// A bitmap of `len` rows of which each is set.
    pub fn full(alloc: Global, len: u32) -> Result<Bitmap, NoMemory>
        ensures { IfOk result (λ b. b ≡ replicate len true) }
    {
        let mut bitmap = Bitmap::empty(alloc, len)?;
        bitmap.set_below(len);
        Ok(bitmap)
    }

    /// The same bitmap once more.
    pub fn copied(&self) -> Result<Bitmap, NoMemory>
        ensures { IfOk result (λ b. b ≡ self.now) }
    {
        Ok(Bitmap {
            words: self.words.clone()?,
            len: self.len,
        })
    }

    /// How many rows there are, set or not.
    pub fn len(&self) -> u32
        ensures { result ≡ length self.now }
    {
        self.len
    }

    /// Whether a row is set. The row is below the length.
    pub fn get(&self, row: u32) -> bool
        requires { row < length self.now }
        ensures { result ≡ slice_index_or self.now row false }
    {
        self.words[(row / WORD) as usize] >> (row % WORD) & 1 == 1
    }

    /// Sets or clears a row. The row is below the length.
    pub fn set(&mut self, row: u32, on: bool)
        requires { row < length self.old }
        ensures { self.new ≡ slice_set self.old row on }
    {
        let at = (row / WORD) as usize;
        self.words[at] = words::with_bit(self.words[at], row % WORD, on);
    }

    /// Sets the rows below `end`, which is at most the length.
    pub fn set_below(&mut self, end: u32)
        requires { end ≤ length self.old }
        ensures { self.new ≡ replicate end true ++ drop end self.old }
    {
        words::fill_below(&mut self.words, end as usize);
    }

    /// Clears each row that is not set in the other bitmap, which is as long.
    pub fn and_with(&mut self, other: &Bitmap)
        requires { length self.old ≡ length other.now }
        ensures { self.new ≡ both self.old other.now }
    {
        self.combine::<And>(other);
    }

    /// Sets each row that is set in the other bitmap, which is as long.
    pub fn or_with(&mut self, other: &Bitmap)
        requires { length self.old ≡ length other.now }
        ensures { self.new ≡ either self.old other.now }
    {
        self.combine::<Or>(other);
    }

    /// Clears each row that is set in the other bitmap, which is as long.
    pub fn without(&mut self, other: &Bitmap)
        requires { length self.old ≡ length other.now }
        ensures { self.new ≡ difference self.old other.now }
    {
        self.combine::<Without>(other);
    }

    /// How many rows are set. It costs a step for each 64 rows.
    pub fn count(&self) -> u32
        ensures { result ≡ count_by (λ on. on) self.now }
    {
        ones::ones_of(&self.words) as u32
    }

    /// The first row that is set, from a row on. It costs a step for each 64 rows that it passes.
    pub fn next(&self, from: u32) -> Option<u32>
        ensures found { IfSome result (λ row. IsNextSet self.now from row) }
        ensures none { IfNone result (HasNoneFrom self.now from) }
        // So the row after one that is set is a number of 32 bits too.
        ensures short { length self.now < 2 ^ 32 }
    {
        let row = words::first_set(&self.words, from as usize)?;
        Some(row as u32)
    }

    /// The rows that are set, in order. The whole walk costs a step for each 64 rows and one for each row that is set.
    pub fn rows(&self) -> Rows<'_>
        ensures { result ≡ rows_from 0 self.now }
    {
        Rows::of(self)
    }

    /// Reads a chunk's rows from a page. Bits of the page past the last row are left out. The chunk begins below the length.
    pub fn load_page(&mut self, chunk: u32, from: &Page)
        requires { chunk * CHUNK_ROWS < length self.old }
        ensures { self.new ≡ with_chunk chunk self.old (page_bits from.now) }
    {
        page_words::load_bits(
            &mut self.words,
            self.len as usize,
            chunk as usize * PAGE_WORDS,
            from,
        );
    }

    /// Writes a chunk's rows into a page: bit i mod 8, least first, of byte i div 8 is row i of the chunk, and zero past the
    /// last. The chunk begins below the length.
    pub fn store_page(&self, chunk: u32, into: &mut Page)
        requires { chunk * CHUNK_ROWS < length self.now }
        ensures { page_bits into.new ≡ chunk_of chunk self.now }
    {
        page_words::store_words(&self.words, chunk as usize * PAGE_WORDS, into);
    }

    /// Whether no row is set, whatever the length: the bitmap is as `empty` makes it. It costs as much as `next`.
    pub fn has_none(&self) -> bool
        ensures { IsTrue result ↔ (self.now ≡ replicate (length self.now) false) }
    {
        self.next(0).is_none()
    }

    fn combine<O: WordOperation>(&mut self, other: &Bitmap)
        requires { length self.old ≡ length other.now }
        ensures { self.new ≡ zip2 O.on_bits self.old other.now }
    {
        operations::apply::<O>(&mut self.words, &other.words);
    }
}
