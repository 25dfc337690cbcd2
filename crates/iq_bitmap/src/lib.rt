//! Bitmaps: lists of bits, one a row, which answer tests and say which rows are alive.
//!
//! Contracts see a `Bitmap` as the list of its bits, row 0 first. Below stands `iq_base`, whose pages keep a bitmap chunk by
//! chunk; above stand `iq_free_list`, whose free blocks are bits, and `bitmap_bench`, which times the calls. Its one law: each
//! call is its plain operation on lists of bits, whatever the length, however many bits the code takes at a time.
#![tactic(auto)]

mod bitmap;
mod ones;
mod operations;
mod page_words;
mod rows;
mod words;

pub use bitmap::Bitmap;
pub use page_words::CHUNK_ROWS;
pub use rows::Rows;
