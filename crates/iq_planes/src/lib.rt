//! Objects of planes: some bits a row, each plane in pages of its own, the planes of one chunk of rows side by side.
//!
//! Contracts see such an object as the list of its planes, each with a bit a row, `HoldsPlanes`. Below stand `iq_bitmap`, whose bitmaps
//! are stored chunk by chunk, `iq_pieces` with calls on one page and `iq_chunks`; above stand the indexes that keep bits of values. Its
//! one law: rows that come behind write each page of their chunks once, and no other.
#![tactic(auto)]

mod appending;
mod one_page;
mod reading;

pub use appending::append;
pub use reading::read_plane;
