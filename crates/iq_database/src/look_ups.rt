//! Tables and columns by their names.
ghost use Rattle.std.specs.Prelude.{◌≡◌, ◌≤◌, ◌<◌, length, IfSome};
ghost use Rattle.iq_conditions.specs.Servers.{column_place};
ghost use Rattle.iq_database.specs.LookUps.{place_from, before_from};

use iq_base::{Column, Descriptor, Name};

/// The place of the table of a name.
pub fn place_of(tables: &[Descriptor], name: &Name) -> Option<usize>
    ensures place { result ≡ place_from 0 name.now tables.now }
    ensures within { IfSome result (λ i. i < length tables.now) }
{
    for (i, table) in tables.iter().enumerate() {
        if table.name == *name {
            return Some(i);
        }
    }
    None
}

/// How many tables stand before the first whose name isn't below this one.
pub fn before(tables: &[Descriptor], name: &Name) -> usize
    ensures place { result ≡ before_from 0 name.now tables.now }
    ensures within { result ≤ length tables.now }
{
    for (i, table) in tables.iter().enumerate() {
        if *name > table.name {
            continue;
        }
        return i;
    }
    tables.len()
}

/// The place of the column of a name.
pub fn column_place(columns: &[Column], name: &Name) -> Option<usize>
    ensures place { result ≡ column_place columns.now name.now }
    ensures within { IfSome result (λ place. place < length columns.now) }
{
    columns.iter().position(|column| column.name == *name)
}
