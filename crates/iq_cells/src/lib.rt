//! Columns of cells: the form in which values travel in bulk.
//!
//! Contracts see `Cells` as a kind and the list of its values, `Rows` as the kinds of its columns and the list of its rows, and
//! codes as the numbers that lie in a page. Below stands `iq_base`, with values and the bytes of one cell; above stand the
//! layers that number, store, load and answer values. Its one law: so many cells of w bytes lie one behind the other, each the
//! cell of its value, as on a page.
#![tactic(auto)]

mod cells;
mod codes;
mod fields;
mod growing;
mod orders;
mod packed;
mod rows;

pub use cells::{Cells, CellsFault};
pub use codes::{code_at, codes_of, put_code};
pub use fields::{
    BadField, FieldFault, RowFault, field_cause, first_bad_field, null_cause, number_cause,
    text_cause,
};
pub use orders::value_order;
pub use packed::value_in_page;
pub use rows::Rows;
