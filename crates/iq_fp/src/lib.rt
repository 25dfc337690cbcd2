//! A column as codes: its distinct values once, in order of first appearance, and for each row a code of 1, 2 or 3 bytes.
//!
//! Contracts see a column as the list of values for which the told pages of its two objects stand, `Stands`. Below stand
//! `iq_pieces`, which lays cells and codes over pages, and `iq_numbering`, which numbers values; above stand the layers that
//! keep a table. Its one law: each call reads a page at most once, and an append writes only the pages that change, each once.
#![tactic(auto)]

mod appending;
mod carrying_out;
mod choosing;
mod distinct;
mod expanding;
mod fp;
mod laws;
mod one_row;
mod pairing;
mod parts;
mod plan;
mod planning;
mod reading;
mod scanning;

pub use fp::{Form, Fp, code_bytes, form_of};
pub use laws::{longest_law, room_law, stands_law};
pub use plan::Plan;
