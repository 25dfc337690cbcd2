//! Objects of pages: the two traits through which pages are read and written, and a form of both in memory.
//!
//! Contracts see a source as what it tells: how many pages each object has, the pages themselves, how many were read and
//! written, and how often the store below failed. Below stand `iq_base` with the size of a page and `iq_outside` with counts of
//! faults; above stand the layers that lay columns and indexes over pages. Its one law: a call that fails leaves every object as
//! it was.
#![tactic(auto)]

mod memory_objects;
mod memory_pages;
mod page_faults;
mod pages;

pub use memory_pages::MemoryPages;
pub use page_faults::PageFault;
pub use pages::{PageSink, PageSource};
