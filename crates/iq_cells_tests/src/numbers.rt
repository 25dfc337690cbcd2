//! Numberings of a column's values.
ghost use Rattle.std.specs.Prelude.{◌++◌, IfOk};
ghost use Rattle.iq_numbering.specs.Numbers.{AreDistinct};

use crate::checks::{same, same_codes};
use crate::made::{Cell, at, push, value};
use iq_base::{Kind, NoMemory};
use iq_cells::Cells;
use iq_numbering::{new_values, number};
use std::alloc::Global;
use std::process::Abort;
use std::test::Fail;

/// The codes of a column's values, how many of these are new, and the new ones.
#[derive(Drop)]
struct Numbering {
    codes: Vec<u32>,
    count: usize,
    new: Cells,
}

/// Numbers the values of a short column behind known ones of its kind.
fn numbered(alloc: Global, known: &Cells, values: &Cells) -> Result<Numbering, NoMemory>
    requires { AreDistinct known.now.values }
    ensures { IfOk result (λ r. AreDistinct (known.now.values ++ r.new.values)) }
{
    if known.kind() != values.kind() || known.len() > 9 || values.len() > 9 {
        return Err(NoMemory);
    }
    let found = number(alloc, known, values)?;
    if found.codes.len() != values.len() {
        return Err(NoMemory);
    }
    let new = new_values(alloc, known.len(), found.new, values, &found.codes)?;
    Ok(Numbering {
        codes: found.codes,
        count: found.new,
        new,
    })
}

/// Numbers the values of a column, and then those of another behind them.
fn twice(alloc: Global, first: &Cells, second: &Cells) -> Result<(Numbering, Numbering), NoMemory> {
    let one = numbered(alloc, &Cells::new(alloc, first.kind()), first)?;
    let two = numbered(alloc, &one.new, second)?;
    Ok((one, two))
}

fn ints(alloc: Global, cells: &[Cell]) -> Result<Cells, NoMemory> {
    let mut column = Cells::new(alloc, Kind::Int);
    for cell in cells {
        push(&mut column, cell)?;
    }
    Ok(column)
}

const FIRST: [Cell; 7] = [
    Cell::Int(7),
    Cell::Null,
    Cell::Int(7),
    Cell::Int(-1),
    Cell::Null,
    Cell::Int(0),
    Cell::Int(-1),
];

const NEW: [Cell; 4] = [Cell::Int(7), Cell::Null, Cell::Int(-1), Cell::Int(0)];

const SECOND: [Cell; 4] = [Cell::Int(0), Cell::Int(8), Cell::Null, Cell::Int(8)];

const NEWER: [Cell; 1] = [Cell::Int(8)];

fn is_numbered(rt: &impl Abort, found: &Numbering, codes: &[u32], new: &[Cell]) {
    same_codes(rt, &found.codes, codes, codes.len());
    same(rt, &found.count, &new.len(), codes.len());
    same(rt, &found.new.len(), &new.len(), codes.len());
    for (place, cell) in new.iter().enumerate() {
        same(rt, &at(&found.new, place), &Some(value(cell)), place);
    }
}

#[test]
fn values_are_numbered_as_they_first_appear(rt: HostRuntime) -> Result<(), Fail> {
    let first = ints(rt.alloc(), &FIRST)?;
    let second = ints(rt.alloc(), &SECOND)?;
    let (one, two) = twice(rt.alloc(), &first, &second)?;
    is_numbered(&rt, &one, &[0, 1, 0, 2, 1, 3, 2], &NEW);
    is_numbered(&rt, &two, &[3, 4, 1, 4], &NEWER);
    Ok(())
}
