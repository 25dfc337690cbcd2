//! Refusals.
ghost use Rattle.std.specs.Prelude.{◌≡◌, ◌++◌, length, OnOk};
ghost use Rattle.std.specs.String.{string_bytes};
ghost use Rattle.iq_history.specs.Placed.{IsPlacedRefusal};
ghost use Rattle.iq_render.specs.Values.{then_name, then_number};
ghost use Rattle.iq_render.specs.Refusals.{field_cause_text, census_numbers, refusal_text};

use crate::values::{push_count, push_named, push_number, push_place};
use iq_base::{Census, FieldCause, Name, Refusal};
use std::alloc::AllocError;

/// The five numbers of a census.
pub(crate) fn push_census_numbers(out: &mut String, census: &Census) -> Result<(), AllocError>
    ensures { OnOk result (string_bytes out.new ≡ string_bytes out.old ++ census_numbers census.now) }
{
    push_number(out, census.free as u64)?;
    push_number(out, census.reserved as u64)?;
    push_number(out, census.private as u64)?;
    push_number(out, census.reached as u64)?;
    push_number(out, census.waiting as u64)
}

/// What is wrong with a value.
fn push_field_cause(out: &mut String, cause: FieldCause) -> Result<(), AllocError>
    ensures { OnOk result (string_bytes out.new ≡ string_bytes out.old ++ field_cause_text cause) }
{
    match cause {
        FieldCause::Count => out.push_str("Count"),
        FieldCause::NotNumber => out.push_str("NotNumber"),
        FieldCause::NotText => out.push_str("NotText"),
        FieldCause::Range => out.push_str("Range"),
        FieldCause::NullRefused => out.push_str("NullRefused"),
        FieldCause::TextTooLong => out.push_str("TextTooLong"),
        FieldCause::NotUtf8 => out.push_str("NotUtf8"),
    }
}

/// A word, a name and a number.
fn push_named_count(
    out: &mut String,
    word: &str,
    name: &Name,
    number: u64,
) -> Result<(), AllocError>
    ensures { OnOk result (string_bytes out.new ≡ string_bytes out.old ++ (word.now ++ then_name name.now ++ then_number number)) }
{
    push_named(out, word, name)?;
    push_number(out, number)
}

/// The refusal's name and its fields.
pub(crate) fn push_refusal(
    out: &mut String,
    sessions: &[Name],
    refusal: &Refusal,
) -> Result<(), AllocError>
    requires { IsPlacedRefusal (length sessions.now) refusal.now }
    ensures { OnOk result (string_bytes out.new ≡ string_bytes out.old ++ refusal_text sessions.now refusal.now) }
{
    match refusal {
        Refusal::Lost { incarnation } => push_count(out, "Lost", *incarnation as u64),
        Refusal::Excluded { node } => push_named(out, "Excluded", node),
        Refusal::InTransaction => out.push_str("InTransaction"),
        Refusal::NoTransaction => out.push_str("NoTransaction"),
        Refusal::NoSavepoint { name } => push_named(out, "NoSavepoint", name),
        Refusal::TooManySavepoints => out.push_str("TooManySavepoints"),
        Refusal::DdlInTransaction => out.push_str("DdlInTransaction"),
        Refusal::ReadOnly { node } => push_named(out, "ReadOnly", node),
        Refusal::NoTable { name } => push_named(out, "NoTable", name),
        Refusal::TableExists { name } => push_named(out, "TableExists", name),
        Refusal::NoColumn { name } => push_named(out, "NoColumn", name),
        Refusal::NoIndex { name } => push_named(out, "NoIndex", name),
        Refusal::IndexExists { name } => push_named(out, "IndexExists", name),
        Refusal::CatalogFull => out.push_str("CatalogFull"),
        Refusal::TypeMismatch { column } => push_named(out, "TypeMismatch", column),
        Refusal::NotGrouped { column } => push_named(out, "NotGrouped", column),
        Refusal::NullRefused { column } => push_named(out, "NullRefused", column),
        Refusal::TextTooLong { column } => push_named(out, "TextTooLong", column),
        Refusal::BadRow { row, field, cause } => {
            push_count(out, "BadRow", *row as u64)?;
            push_number(out, *field as u64)?;
            out.push_str(" ")?;
            push_field_cause(out, *cause)
        }
        Refusal::Halted { commit } => push_count(out, "Halted", *commit),
        Refusal::Locked { table, session } => {
            push_named(out, "Locked", table)?;
            push_place(out, sessions, *session)
        }
        Refusal::Later { table, commit } => push_named_count(out, "Later", table, *commit),
        Refusal::TableFull { limit } => push_count(out, "TableFull", *limit as u64),
        Refusal::IndexUnfit { column } => push_named(out, "IndexUnfit", column),
        Refusal::TooManyDistinct { index, distinct } => {
            push_named_count(out, "TooManyDistinct", index, *distinct as u64)
        }
        Refusal::NoSpace { census } => {
            out.push_str("NoSpace")?;
            push_census_numbers(out, census)
        }
        Refusal::StoreFault { before, after } => {
            push_count(out, "StoreFault", *before)?;
            push_number(out, *after)
        }
        Refusal::BadPage { object, page } => {
            push_count(out, "BadPage", *object as u64)?;
            push_number(out, *page as u64)
        }
        Refusal::NoNode { name } => push_named(out, "NoNode", name),
        Refusal::IsCoordinator { name } => push_named(out, "IsCoordinator", name),
        Refusal::NotExcluded { node } => push_named(out, "NotExcluded", node),
        Refusal::NoReport { number } => push_count(out, "NoReport", *number as u64),
        Refusal::AtEnd { commit } => push_count(out, "AtEnd", *commit),
        Refusal::NoMemory => out.push_str("NoMemory"),
    }
}
