//! Images of stores, made block by block.
use iq_base::{
    ColumnPart, Descriptor, IndexKind, IndexPart, IndexSpec, Kind, Listed, Name, NoMemory, Ref,
};
use iq_catalog::{is_storable, put};
use iq_outside::Block;
use std::alloc::Global;

/// An object without pages.
pub const EMPTY: Ref = Ref { root: 0, pages: 0 };

/// Blocks of zeros.
pub fn zeros(alloc: Global, count: usize) -> Result<Vec<Block>, NoMemory> {
    let mut blocks = Vec::new(alloc);
    for _ in 0..count {
        blocks.push([0; 1024])?;
    }
    Ok(blocks)
}

/// Writes some bytes from a place of a block on, where they fit.
pub fn poke(blocks: &mut [Block], at: u32, byte: usize, bytes: &[u8]) {
    if let Some(block) = blocks.get_mut(at as usize) {
        if byte <= 1024 && bytes.len() <= 1024 - byte {
            block[byte..byte + bytes.len()].copy_from_slice(bytes);
        }
    }
}

/// Writes a number of 4 bytes, the lowest first.
pub fn number(blocks: &mut [Block], at: u32, byte: usize, n: u32) {
    poke(blocks, at, byte, &n.to_le_bytes());
}

/// Writes a header.
pub fn header(blocks: &mut [Block], at: u32, kind: u8, level: u32) {
    poke(blocks, at, 0, "IQB1".as_bytes());
    poke(blocks, at, 4, &[kind]);
    number(blocks, at, 8, at);
    number(blocks, at, 12, level);
}

/// Writes a root into the slot of its generation's parity.
pub fn root(blocks: &mut [Block], generation: u8, format: u8, count: u32, heads: &[u32]) {
    let body = u32::from(2 * (generation % 2));
    header(blocks, body, 1, 0);
    poke(blocks, body, 16, &[generation]);
    poke(blocks, body, 24, &[format]);
    number(blocks, body, 28, count);
    number(blocks, body, 32, (heads.len() % 65) as u32);
    for (k, head) in heads.iter().enumerate() {
        number(blocks, body, 36 + 4 * (k % 64), *head);
    }
    header(blocks, body + 1, 2, 0);
    poke(blocks, body + 1, 16, &[generation]);
}

/// Writes a map of level 1 and its pages behind it, and answers the object. There are at most 252.
pub fn object(blocks: &mut [Block], at: u32, pages: u32) -> Ref {
    header(blocks, at, 4, 1);
    for k in 0..pages.min(252) {
        let page = at.saturating_add(k).saturating_add(1);
        number(blocks, at, 16 + 4 * k as usize, page);
        header(blocks, page, 5, 0);
    }
    Ref { root: at, pages }
}

/// A name; `?` where it is too long.
pub fn name(text: &str) -> Name {
    match Name::of(text) {
        Some(name) => name,
        None => question(),
    }
}

fn question() -> Name {
    match Name::of("?") {
        Some(name) => name,
        None => unreachable!(),
    }
}

/// A column of one or two distinct values.
pub fn column(text: &str, kind: Kind, cells: Ref, values: Ref) -> ColumnPart {
    ColumnPart {
        name: name(text),
        kind,
        null: false,
        form: 1,
        distinct: 2,
        cells,
        values,
    }
}

/// An index of a column.
pub fn index(text: &str, kind: IndexKind, column: u8, objects: [Ref; 3]) -> IndexPart {
    let [first, second, third] = objects;
    IndexPart {
        spec: IndexSpec {
            name: name(text),
            kind,
            column,
            second: None,
        },
        distinct: 0,
        first,
        second,
        third,
    }
}

/// Writes a descriptor into these blocks, of which the first is the head; whether it may be stored and has as many pages.
pub fn descriptor(
    alloc: Global,
    blocks: &mut [Block],
    table: &Descriptor,
    at: &[u32],
) -> Result<bool, NoMemory> {
    if !is_storable(table) {
        return Ok(false);
    }
    let pages = put(alloc, table)?;
    if pages.len() != at.len() {
        return Ok(false);
    }
    for (page, block) in pages.iter().zip(at) {
        header(blocks, *block, 3, 0);
        poke(blocks, *block, 16, page.as_slice());
    }
    if let [head, others @ ..] = at {
        for (k, other) in others.iter().enumerate() {
            number(blocks, *head, 16 + 4 * (k % 3), *other);
        }
    }
    Ok(true)
}

/// A store of 80 blocks, of generation 1, with two tables. Table t has its head in block 4, columns a and b of INT and c of VARCHAR(8),
/// indexes l, LF on a; h, HG on c; n, HNG on a; m, CMP of a and b; and 3 slots. Table u has its head in block 67 and a column x.
///
/// Maps and pages of t: existence 5, 6; a 7, 8 and 9, 10; b 11, 12 and 13, 14; c 15, 16 and 17, 18; l 19, 20 and 21, 22 and 23, 24;
/// h 25, 26 and 27, 28; n 29, 30 to 62; m 63, 64 to 66. Of u: existence 68, 69; x 70, 71 and 72, 73.
pub fn two_tables(alloc: Global) -> Result<Vec<Block>, NoMemory> {
    let mut blocks = zeros(alloc, 80)?;
    root(&mut blocks, 1, 2, 80, &[4, 67]);
    let table = first_table(alloc, &mut blocks)?;
    let _ = descriptor(alloc, &mut blocks, &table, &[4])?;
    let table = second_table(alloc, &mut blocks)?;
    let _ = descriptor(alloc, &mut blocks, &table, &[67])?;
    Ok(blocks)
}

fn first_table(alloc: Global, blocks: &mut [Block]) -> Result<Descriptor, NoMemory> {
    let existence = object(blocks, 5, 1);
    let mut columns = Listed::new(alloc);
    columns.push(column("a", Kind::Int, object(blocks, 7, 1), object(blocks, 9, 1)))?;
    columns.push(column("b", Kind::Int, object(blocks, 11, 1), object(blocks, 13, 1)))?;
    columns.push(column(
        "c",
        Kind::Varchar(8),
        object(blocks, 15, 1),
        object(blocks, 17, 1),
    ))?;
    let mut indexes = Listed::new(alloc);
    let parts = [
        object(blocks, 19, 1),
        object(blocks, 21, 1),
        object(blocks, 23, 1),
    ];
    let mut low_fast = index("l", IndexKind::Lf, 0, parts);
    low_fast.distinct = 2;
    indexes.push(low_fast)?;
    let parts = [object(blocks, 25, 1), object(blocks, 27, 1), EMPTY];
    indexes.push(index("h", IndexKind::Hg, 2, parts))?;
    indexes.push(index(
        "n",
        IndexKind::Hng,
        0,
        [object(blocks, 29, 33), EMPTY, EMPTY],
    ))?;
    let mut compare = index(
        "m",
        IndexKind::Cmp,
        0,
        [object(blocks, 63, 3), EMPTY, EMPTY],
    );
    compare.spec.second = Some(1);
    indexes.push(compare)?;
    Ok(Descriptor {
        name: name("t"),
        slots: 3,
        existence,
        columns,
        indexes,
    })
}

fn second_table(alloc: Global, blocks: &mut [Block]) -> Result<Descriptor, NoMemory> {
    let existence = object(blocks, 68, 1);
    let mut columns = Listed::new(alloc);
    columns.push(column("x", Kind::Int, object(blocks, 70, 1), object(blocks, 72, 1)))?;
    Ok(Descriptor {
        name: name("u"),
        slots: 3,
        existence,
        columns,
        indexes: Listed::new(alloc),
    })
}
