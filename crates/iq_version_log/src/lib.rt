//! The versions of a run that are kept: of each commit from the base on, its tables and the blocks that it dropped.
//!
//! Contracts see the number of the first kept commit and the list of versions (`LogState`). Below stand `iq_root` with lists of
//! addresses, `iq_free_list` and `iq_roomed`; above stands the shared state. Its one law: up to a horizon exactly the blocks are
//! freed that the commits behind the base dropped.
#![tactic(auto)]

mod version_log;

pub use version_log::{Version, VersionLog};
