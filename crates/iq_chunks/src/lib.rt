//! Objects of bits: one bit a row, 8,064 of them a page.
//!
//! Contracts see such an object as the list of its bits, `HoldsBits`. Below stand `iq_bitmap`, whose bitmaps are stored chunk by
//! chunk, and `iq_pieces` with calls on one page; above stand the layers that keep which rows are there. Its one law: a call
//! touches only the pages whose bits are asked for or change, each at most once.
#![tactic(auto)]

mod appending;
mod clearing;
mod one_page;
mod reading;

pub use appending::append_ones;
pub use clearing::clear_bits;
pub use reading::read_bits;
