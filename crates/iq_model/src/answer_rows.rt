//! The rows of an answer.
ghost use Rattle.std.specs.Prelude.{◌≡◌, ◌<◌, length, map, slice_index_or, []};
ghost use Rattle.iq_model.specs.declared.answers.Out.TheVariants as outs;
ghost use Rattle.iq_model.specs.Outs.{out_of, outs_of};

use crate::answers::{Out, out_of};
use iq_base::Listed;
use iq_cells::Rows;
use std::marker::Model;

/// How the rows of an answer lie in memory.
#[derive(Debug, Drop)]
enum AnswerForm {
    /// Values of columns, as the cells of each column.
    Columns(Rows),
    /// Numbers of any size beside them, as what sums give.
    Values(Listed<Listed<Out>>),
}

/// The rows of an answer, each a list of values; rows and values are counted from 0. Rows that come from columns take as many
/// bytes as their cells.
#[derive(Debug, Drop)]
pub struct AnswerRows {
    form: AnswerForm,
}

impl Model for AnswerRows {
    ghost use Rattle.std.specs.Prelude.{List};
    ghost use Rattle.iq_model.specs.declared.answers.Out.{Out};
    ghost use Rattle.iq_model.specs.AnswerForms.{answered};

    ghost Value = { List (List Out) };

    ghost view = { λ rows. answered rows.form };
}

impl AnswerRows {
    /// The rows of columns. It takes no memory.
    pub fn of_columns(rows: Rows) -> AnswerRows
        ensures { result ≡ map outs_of rows.rows }
    {
        AnswerRows {
            form: AnswerForm::Columns(rows),
        }
    }

    /// Rows that are made value by value. It takes no memory.
    pub fn of_values(rows: Listed<Listed<Out>>) -> AnswerRows
        ensures { result ≡ rows }
    {
        AnswerRows {
            form: AnswerForm::Values(rows),
        }
    }

    /// How many rows there are.
    pub fn len(&self) -> usize
        ensures { result ≡ length self.now }
    {
        match &self.form {
            AnswerForm::Columns(rows) => rows.len(),
            AnswerForm::Values(rows) => rows.len(),
        }
    }

    /// How many values row `r` has.
    pub fn width(&self, r: usize) -> usize
        requires { r < length self.now }
        ensures { result ≡ length (slice_index_or self.now r []) }
    {
        match &self.form {
            AnswerForm::Columns(rows) => rows.width(),
            AnswerForm::Values(rows) => rows.as_slice()[r].len(),
        }
    }

    /// Value `c` of row `r`. It takes no memory; a text lies in the value itself.
    pub fn get(&self, r: usize, c: usize) -> Out
        requires row { r < length self.now }
        requires column { c < length (slice_index_or self.now r []) }
        ensures { result ≡ slice_index_or (slice_index_or self.now r []) c outs.Null }
    {
        match &self.form {
            AnswerForm::Columns(rows) => {
                // Each row is as wide as there are columns.
                let _width = rows.width();
                out_of(&rows.get(r, c))
            }
            AnswerForm::Values(rows) => rows.as_slice()[r].as_slice()[c].again(),
        }
    }
}
