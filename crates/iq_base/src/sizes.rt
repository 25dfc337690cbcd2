//! The sizes that the store's format fixes for every layer.

/// How many bytes a page has: a block of 1,024 bytes without its header.
pub const PAGE_BYTES: usize = 1008;

/// How many pages an object may have: 252 maps of 252 pages each.
pub const MOST_PAGES: u32 = 63_504;

/// The bytes of a page: what a block of 1,024 bytes holds behind its header.
pub type Page = [u8; 1008];
