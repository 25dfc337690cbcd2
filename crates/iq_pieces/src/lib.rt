//! Objects of pieces: cells or codes of one width, laid over pages one behind the other.
//!
//! Contracts see an object as the list of its pieces, each a list of bytes, `HoldsObject`. Below stand `iq_pages`, through which
//! pages are read and written, and `iq_cells` with columns of cells; above stand the layers that keep columns and indexes. Its
//! one law: an object has as many pages as its pieces need, and a call touches each page at most once.
#![tactic(auto)]

mod appending;
mod code_list;
mod codes;
mod pages;
mod pieces;
mod reading;
mod taking;

pub use appending::{append_behind, load_last, rewrite};
pub use code_list::CodeList;
pub use codes::Codes;
pub use pages::{read_page, save_page};
pub use pieces::Pieces;
pub use reading::read;
pub use taking::{PieceFault, Takes};
