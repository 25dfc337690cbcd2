//! The values, names and small types that every layer speaks of, and the bytes in which a page holds a value.
//!
//! Contracts see a `Name` and a `Text` as their bytes, a `Listed` as the list of its items, and the rest as plain records and
//! enums. Nothing of the repository stands below; every crate stands above. Its one law: what is copied equals what it is a
//! copy of.
#![tactic(auto)]

mod cells;
mod descriptors;
mod letters;
mod limits;
mod lists;
mod locks;
mod memory;
mod nodes;
mod refs;
mod refusals;
mod schemas;
mod sizes;
mod texts;
mod values;

pub use cells::{BadCell, cell_get, cell_put, is_of, width};
pub use descriptors::{ColumnPart, Descriptor, IndexPart, IndexSpec};
pub use letters::Letters;
pub use limits::{MOST_TABLES, row_limit, rows_within, text_length};
pub use lists::Listed;
pub use locks::Locks;
pub use memory::NoMemory;
pub use nodes::{NodeKind, NodeSpec, SessionSpec};
pub use refs::Ref;
pub use refusals::{Census, FieldCause, Refusal};
pub use schemas::{Column, IndexKind, Schema};
pub use sizes::{MOST_PAGES, PAGE_BYTES, Page};
pub use texts::{Name, Short, Text};
pub use values::{Kind, Row, Value};
