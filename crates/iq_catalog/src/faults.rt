//! Why pages give no descriptor.
use iq_base::NoMemory;
use std::error::Error;
use std::fmt;

/// Why pages give no descriptor.
#[derive(Clone, Copy, Debug, PartialEq, Eq)]
pub enum CatalogFault {
    /// No storable descriptor has these pages. The number is that of the page with the first byte that contradicts the format, and 0
    /// where the pages aren't as many as their counts of columns and indexes ask for.
    BadCatalog { page: u32 },
    /// An allocation was refused.
    NoMemory,
}

impl fmt::Display for CatalogFault {
    fn fmt<W: fmt::Write>(&self, f: &mut fmt::Formatter<W>) -> fmt::Result {
        match self {
            CatalogFault::BadCatalog { page } => write!(f, "no descriptor: page {page}"),
            CatalogFault::NoMemory => f.write_str("no memory"),
        }
    }
}

impl Error for CatalogFault {}

impl From<NoMemory> for CatalogFault {
    ghost use Rattle.std.specs.Prelude.{◌≡◌};
    ghost use Rattle.iq_catalog.specs.declared.faults.CatalogFault.TheVariants as faults;

    ghost from_gives = { λ _ e. e ≡ faults.NoMemory };

    fn from(_: NoMemory) -> CatalogFault {
        CatalogFault::NoMemory
    }
}
