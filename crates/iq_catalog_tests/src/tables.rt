//! Tables to be stored.
use iq_base::{ColumnPart, Descriptor, IndexKind, IndexPart, IndexSpec, Kind, Listed, Name, Ref};
use std::alloc::{AllocError, Global};

/// A name; `?` where it is too long.
pub fn name(text: &str) -> Name {
    match Name::of(text) {
        Some(name) => name,
        None => question(),
    }
}

fn question() -> Name {
    match Name::of("?") {
        Some(name) => name,
        None => unreachable!(),
    }
}

/// A name of two letters by a number.
pub fn numbered(k: usize) -> Name {
    let letters = [b'a' + (k / 26 % 26) as u8, b'a' + (k % 26) as u8];
    match str::from_utf8(&letters) {
        Ok(text) => name(text),
        Err(_) => question(),
    }
}

/// An object of one page.
pub fn object(root: u32) -> Ref {
    Ref { root, pages: 1 }
}

/// An object without pages.
pub const EMPTY: Ref = Ref { root: 0, pages: 0 };

/// A column with two distinct values.
pub fn column(name: Name, kind: Kind, null: bool) -> ColumnPart {
    ColumnPart {
        name,
        kind,
        null,
        form: 1,
        distinct: 2,
        cells: object(10),
        values: object(11),
    }
}

/// An index of a column.
pub fn index(name: Name, kind: IndexKind, column: u8) -> IndexPart {
    IndexPart {
        spec: IndexSpec {
            name,
            kind,
            column,
            second: None,
        },
        distinct: 0,
        first: object(12),
        second: EMPTY,
        third: object(13),
    }
}

/// A table t of some columns of INT, with HNG indexes on the first.
pub fn table(alloc: Global, columns: usize, indexes: usize) -> Result<Descriptor, AllocError> {
    let mut parts = Vec::new(alloc);
    for k in 0..columns {
        parts.push(column(numbered(k), Kind::Int, k % 2 == 0))?;
    }
    let mut made = Vec::new(alloc);
    for k in 0..indexes {
        made.push(index(numbered(k), IndexKind::Hng, 0))?;
    }
    Ok(Descriptor {
        name: name("t"),
        slots: 3,
        existence: object(9),
        columns: Listed::from_vec(parts),
        indexes: Listed::from_vec(made),
    })
}

/// A table t with columns a INT NOT NULL, b INT and c VARCHAR(8), an LF index l on a, and a CMP index m of a and b.
pub fn mixed(alloc: Global) -> Result<Descriptor, AllocError> {
    let mut columns = Vec::new(alloc);
    columns.push(column(name("a"), Kind::Int, false))?;
    columns.push(column(name("b"), Kind::Int, true))?;
    columns.push(column(name("c"), Kind::Varchar(8), true))?;
    let mut low_fast = index(name("l"), IndexKind::Lf, 0);
    low_fast.distinct = 2;
    let mut compare = index(name("m"), IndexKind::Cmp, 0);
    compare.spec.second = Some(1);
    let mut indexes = Vec::new(alloc);
    indexes.push(low_fast)?;
    indexes.push(compare)?;
    Ok(Descriptor {
        name: name("t"),
        slots: 3,
        existence: object(9),
        columns: Listed::from_vec(columns),
        indexes: Listed::from_vec(indexes),
    })
}

/// A table of one column, with an LF index on it or none.
pub fn of_kind(alloc: Global, kind: Kind, low_fast: bool) -> Result<Descriptor, AllocError> {
    let mut columns = Vec::new(alloc);
    columns.push(column(name("a"), kind, false))?;
    let mut indexes = Vec::new(alloc);
    if low_fast {
        indexes.push(index(name("l"), IndexKind::Lf, 0))?;
    }
    Ok(Descriptor {
        name: name("t"),
        slots: 3,
        existence: object(9),
        columns: Listed::from_vec(columns),
        indexes: Listed::from_vec(indexes),
    })
}
