//! How the directory names leaves.
use iq_hg_leaves::Entry;

/// A leaf as the directory names it: its first entry, and its page.
#[derive(Debug, Drop)]
pub struct Place {
    pub first: Entry,
    pub page: u32,
}
