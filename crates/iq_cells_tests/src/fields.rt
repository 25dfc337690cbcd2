//! What is wrong with a field, and in which order that is looked for.
use crate::checks::same;
use iq_base::{FieldCause, Kind, NoMemory};
use iq_cells::{Cells, FieldFault};
use std::alloc::Global;
use std::test::Fail;

/// What putting a field at the end of a column answers, and how many values there are then.
type Put = (Result<(), FieldFault>, usize);

/// What comes of a field with this cause behind so many values.
fn caused(cause: Option<FieldCause>, before: usize) -> Put {
    match cause {
        None => (Ok(()), before.saturating_add(1)),
        Some(cause) => (Err(FieldFault::Bad(cause)), before),
    }
}

const TEXTS: [(Kind, &[u8], Option<FieldCause>); 8] = [
    (Kind::Varchar(3), b"abc", None),
    (Kind::Varchar(3), b"", None),
    (Kind::Varchar(3), b"abcd", Some(FieldCause::TextTooLong)),
    (Kind::Varchar(3), &[255, 0, 0], Some(FieldCause::NotUtf8)),
    (
        Kind::Varchar(3),
        &[255, 0, 0, 0],
        Some(FieldCause::TextTooLong),
    ),
    (Kind::Varchar(1), &[195, 169], Some(FieldCause::TextTooLong)),
    (Kind::Int, b"12", Some(FieldCause::NotNumber)),
    (Kind::Big, &[255], Some(FieldCause::NotNumber)),
];

/// Puts a text behind NULL.
fn text_put(alloc: Global, kind: Kind, bytes: &[u8]) -> Result<Put, NoMemory> {
    let mut column = Cells::new(alloc, kind);
    column.push_null()?;
    let done = column.push_text(bytes);
    Ok((done, column.len()))
}

#[test]
fn a_field_of_a_text_has_the_first_of_its_causes(rt: HostRuntime) -> Result<(), Fail> {
    for (row, (kind, bytes, cause)) in TEXTS.iter().enumerate() {
        let found = text_put(rt.alloc(), *kind, bytes)?;
        same(&rt, &found, &caused(*cause, 1), row);
    }
    Ok(())
}

const NUMBERS: [(Kind, i64, Option<FieldCause>); 5] = [
    (Kind::Int, -2_147_483_648, None),
    (Kind::Int, 2_147_483_648, Some(FieldCause::Range)),
    (Kind::Int, -2_147_483_649, Some(FieldCause::Range)),
    (Kind::Big, 2_147_483_648, None),
    (Kind::Varchar(9), 2_147_483_648, Some(FieldCause::NotText)),
];

/// Puts a number into a column without values.
fn number_put(alloc: Global, kind: Kind, number: i64) -> Put {
    let mut column = Cells::new(alloc, kind);
    let done = column.push_number(number);
    (done, column.len())
}

#[test]
fn a_field_of_a_number_has_its_cause(rt: HostRuntime) {
    for (row, (kind, number, cause)) in NUMBERS.iter().enumerate() {
        let found = number_put(rt.alloc(), *kind, *number);
        same(&rt, &found, &caused(*cause, 0), row);
    }
}
