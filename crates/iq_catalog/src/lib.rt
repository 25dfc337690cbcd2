//! What a store keeps of its tables: a descriptor as 1 to 4 pages.
//!
//! Contracts see the pages of a descriptor as `descriptor_bytes`, and the descriptors that may be stored as `IsStorable`. Below
//! stand `iq_base` with the data of descriptors and `iq_block_store` with numbers in blocks; above stands the shared state, which
//! writes the pages into blocks. Its one law: pages are read exactly where they are those of a storable descriptor, and give it; for
//! all others the page is told that first contradicts the format, `bad_page`.
#![tactic(auto)]

mod codes;
mod faults;
mod first_fault;
mod pages;
mod reading;
mod sizes;
mod storable;
mod writing;

pub use faults::CatalogFault;
pub use reading::get;
pub use sizes::fits_slots;
pub use storable::{is_storable, slot_limit};
pub use writing::put;
