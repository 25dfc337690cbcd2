//! Columns over pages in memory, for the other tests.
use iq_ast::{Op, Test};
use iq_base::{Kind, Name, NoMemory, Value};
use iq_bitmap::Bitmap;
use iq_cells::{Cells, FieldFault};
use iq_fp::Fp;
use iq_pages::{MemoryPages, PageFault};
use iq_truth::Side;
use std::alloc::Global;

pub const CODES: u32 = 7;

pub const VALUES: u32 = 3;

/// What stands for a call that may not be made.
pub const NO_CALL: PageFault = PageFault::BadPage {
    object: 99,
    page: 99,
};

/// Why a value can't be put behind others, where it is one of the kind.
fn no_memory(done: Result<(), FieldFault>) -> Result<(), NoMemory> {
    match done {
        Ok(()) => Ok(()),
        Err(_) => Err(NoMemory),
    }
}

/// Numbers, None for NULL.
pub fn ints(alloc: Global, kind: Kind, numbers: &[Option<i64>]) -> Result<Cells, NoMemory> {
    let mut cells = Cells::new(alloc, kind);
    for number in numbers {
        match number {
            Some(number) => no_memory(cells.push_number(*number))?,
            None => cells.push_null()?,
        }
    }
    Ok(cells)
}

/// Texts, None for NULL.
pub fn texts(alloc: Global, kind: Kind, texts: &[Option<&str>]) -> Result<Cells, NoMemory> {
    let mut cells = Cells::new(alloc, kind);
    for text in texts {
        match text {
            Some(text) => no_memory(cells.push_text(text.as_bytes()))?,
            None => cells.push_null()?,
        }
    }
    Ok(cells)
}

/// Puts the numbers from one on, up to another, behind what is there.
pub fn push_numbers(cells: &mut Cells, from: i64, to: i64) -> Result<(), NoMemory> {
    for number in from..to {
        no_memory(cells.push_number(number))?;
    }
    Ok(())
}

/// The numbers from one on, up to another.
pub fn numbers(alloc: Global, kind: Kind, from: i64, to: i64) -> Result<Cells, NoMemory> {
    let mut cells = Cells::new(alloc, kind);
    push_numbers(&mut cells, from, to)?;
    Ok(cells)
}

/// Appends values for which there is room.
pub fn put(
    alloc: Global,
    fp: &mut Fp,
    store: &mut MemoryPages,
    cells: &Cells,
) -> Result<(), PageFault> {
    if cells.kind() != fp.kind || !fp.has_room(cells.len()) {
        return Err(NO_CALL);
    }
    fp.append(alloc, store, cells)
}

/// A store in which no call fails.
pub fn sure(alloc: Global) -> MemoryPages {
    MemoryPages::new(alloc, Vec::new(alloc))
}

/// A column of these values, whose objects have these numbers.
pub fn column(
    alloc: Global,
    store: &mut MemoryPages,
    objects: (u32, u32),
    cells: &Cells,
) -> Result<Fp, PageFault> {
    let mut fp = Fp::empty(objects.0, objects.1, cells.kind());
    put(alloc, &mut fp, store, cells)?;
    Ok(fp)
}

/// The name that tests have for their column.
pub fn name() -> Result<Name, PageFault> {
    match Name::of("c") {
        Some(name) => Ok(name),
        None => Err(NO_CALL),
    }
}

/// The rows on a side of a test.
pub fn scanned(
    alloc: Global,
    fp: &Fp,
    store: &mut MemoryPages,
    test: &Test,
    side: Side,
) -> Result<Bitmap, PageFault> {
    fp.scan(alloc, store, test, side)
}

/// The rows on a side of a comparison of two columns of as many rows.
pub fn paired(
    alloc: Global,
    left: &Fp,
    store: &mut MemoryPages,
    op: Op,
    right: &Fp,
    side: Side,
) -> Result<Bitmap, PageFault> {
    if left.slots != right.slots {
        return Err(NO_CALL);
    }
    left.scan_pair(alloc, store, op, right, side)
}

/// The value of a row.
pub fn value_of(fp: &Fp, store: &mut MemoryPages, row: u32) -> Result<Value, PageFault> {
    if row >= fp.slots {
        return Err(NO_CALL);
    }
    fp.value(store, row)
}

/// The values of the rows that are set.
pub fn chosen(
    alloc: Global,
    fp: &Fp,
    store: &mut MemoryPages,
    rows: &Bitmap,
) -> Result<Cells, PageFault> {
    if rows.len() != fp.slots {
        return Err(NO_CALL);
    }
    fp.cells_of(alloc, store, rows)
}

/// All values.
pub fn whole(alloc: Global, fp: &Fp, store: &mut MemoryPages) -> Result<Cells, PageFault> {
    fp.all_cells(alloc, store)
}

/// A bitmap in which some rows are set.
pub fn bits(alloc: Global, len: u32, rows: &[u32]) -> Result<Bitmap, PageFault> {
    let mut bits = Bitmap::empty(alloc, len)?;
    for row in rows {
        if *row >= bits.len() {
            return Err(NO_CALL);
        }
        bits.set(*row, true);
    }
    Ok(bits)
}

/// A value of a column, where there is one.
pub fn value_at(cells: &Cells, i: usize) -> Option<Value> {
    if i < cells.len() {
        Some(cells.get(i))
    } else {
        None
    }
}

/// The first place at which two columns differ, if there is one.
pub fn differ(got: &Cells, want: &Cells) -> Option<usize> {
    if got.kind() != want.kind() || got.len() != want.len() {
        return Some(got.len());
    }
    for i in 0..got.len() {
        if !got.is_equal(i, want, i) {
            return Some(i);
        }
    }
    None
}
