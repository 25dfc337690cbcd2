//! Leaves of a sorted index: entries of a value and a row, in order, in pages.
//!
//! Contracts see `Entries` as the kind of a column and the list of its entries, and a page as a leaf with a list of entries, `IsLeaf`.
//! Below stand `iq_cells`, with columns of cells and the order of values, and `iq_truth`; above stands `iq_hg`. Its one law: entries
//! are in order of value, then of row, and a page holds one list of them.
#![tactic(auto)]

mod cutting;
mod entries;
mod leaf_pages;
mod merging;
mod sorting;
mod spots;

pub use cutting::{next_part, part_count};
pub use entries::{Entries, Entry};
pub use leaf_pages::{LeafPage, leaf_page, number_at, page_of, put_entry, read_entry, read_leaf};
pub use merging::merged;
pub use sorting::sorted;
