//! A database as descriptors and pages: for which plain tables they stand, and which table bears a name.
//!
//! Contracts see a list of descriptors and told pages as the database for which they stand, `Stand` of specs/Standing; the table at place
//! `p` of the list has the objects of that place. Below stand `iq_table`, which keeps one table, and `iq_statements`, which says what
//! statements mean over plain tables; above stand the layers that query and write.
#![tactic(auto)]

mod copies;
mod laws;
mod look_ups;

pub use copies::{columns_of, copied};
pub use laws::{a_database_stands_on_its_objects, what_stands_is_told};
pub use look_ups::{before, column_place, place_of};
