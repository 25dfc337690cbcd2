//! The statements that the plain program runs.
ghost use Rattle.std.specs.Bool.{OnTrue};
ghost use Rattle.iq_statements.specs.Statements.{HasMeaning};
ghost use Rattle.iq_plain_tables.specs.Plain.{HasFewParts};

use iq_ast::{Statement, Write};

/// Whether the plain program runs a statement: all but LOAD, whose text it doesn't read.
pub fn is_plain(statement: &Statement) -> bool
    ensures meaning { OnTrue result (HasMeaning statement.now) }
    ensures few { OnTrue result (HasFewParts statement.now) }
{
    match statement {
        Statement::Write(Write::Load { .. }) => false,
        Statement::Write(Write::CreateTable { schema, .. }) => schema.columns.len() <= 32,
        Statement::Write(Write::Insert { rows, .. }) => rows.len() <= 16_777_216,
        _ => true,
    }
}
