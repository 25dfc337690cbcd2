//! Why rows aren't put into a table.
use iq_base::NoMemory;
use iq_pages::PageFault;

/// Why rows aren't put into a table.
#[derive(Clone, Copy, Debug, PartialEq, Eq)]
pub enum TableFault {
    /// The store below failed: the count of faults rose from the one number to the other.
    Failed { before: u64, after: u64 },
    /// The bytes of the page aren't of their form, or the object has no such page.
    BadPage { object: u32, page: u32 },
    /// An allocation was refused.
    NoMemory,
    /// The table would have more rows, removed ones counted, than it may have.
    TableFull { limit: u32 },
}

impl From<PageFault> for TableFault {
    ghost use Rattle.std.specs.Prelude.{◌≡◌};
    ghost use Rattle.iq_table.specs.Faults.{table_fault};

    ghost from_gives = { λ fault e. e ≡ table_fault fault };

    fn from(fault: PageFault) -> TableFault {
        match fault {
            PageFault::Failed { before, after } => TableFault::Failed { before, after },
            PageFault::BadPage { object, page } => TableFault::BadPage { object, page },
            PageFault::NoMemory => TableFault::NoMemory,
        }
    }
}

impl From<NoMemory> for TableFault {
    ghost use Rattle.std.specs.Prelude.{◌≡◌};
    ghost use Rattle.iq_table.specs.declared.faults.TableFault.TheVariants as faults;

    ghost from_gives = { λ _ e. e ≡ faults.NoMemory };

    fn from(_: NoMemory) -> TableFault {
        TableFault::NoMemory
    }
}
