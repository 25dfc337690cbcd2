//! What a query answers over plain tables: its rows, grouped and in order, or the texts of its plan.
//!
//! Contracts see rows and texts as lists; each function computes the definition that its contract names. Below stands
//! `iq_plain_tables` with the tables; above stand `iq_plain_refusals` and plain runs. Its one law: what is answered is the
//! definition's answer, whatever indexes a table has.
#![tactic(auto)]

mod answers;
mod carrying;
mod groups;
mod listing;
mod ordering;
mod plans;
mod servers;

pub use answers::answer;
pub use carrying::tests_in;
pub use listing::{is_grouped, members_of};
pub use ordering::each_once;
