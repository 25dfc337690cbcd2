//! The names that a statement locks.
ghost use Rattle.std.specs.Prelude.{◌≡◌};
ghost use Rattle.std.specs.Option.{option_copied};
ghost use Rattle.iq_base.specs.Locks.{catalog_name, locks_of};

use crate::texts::Name;
use std::marker::Model;

/// At most two names: `catalog`, where tables are created or dropped, and a table's. Contracts see the list of names,
/// `catalog` first.
#[derive(Debug, Drop)]
pub struct Locks {
    catalog: bool,
    table: Option<Name>,
}

impl Model for Locks {
    ghost use Rattle.std.specs.Prelude.{List, ℕ};

    ghost Value = { List (List ℕ) };

    ghost use Rattle.iq_base.specs.Locks.{locks_of};

    ghost view = { λ it. locks_of it.catalog it.table };
}

impl Locks {
    /// The catalog, or not, and a table, or none.
    pub fn of(catalog: bool, table: Option<Name>) -> Locks
        ensures { result ≡ locks_of catalog table }
    {
        Locks { catalog, table }
    }

    /// Whether the catalog is locked, and the table, if there is one.
    pub fn parts(&self) -> (bool, Option<&Name>)
        ensures { self.now ≡ locks_of result.0 (option_copied result.1) }
    {
        (self.catalog, self.table.as_ref())
    }

    /// The same names once more, without memory.
    pub fn again(&self) -> Locks
        ensures { result ≡ self.now }
    {
        let table = match &self.table {
            None => None,
            Some(name) => Some(name.again()),
        };
        Locks {
            catalog: self.catalog,
            table,
        }
    }
}
