//! The numbers of a table's objects.
ghost use Rattle.std.specs.Prelude.{◌≡◌, ◌<◌, ◌≤◌, ◌+◌, ◌*◌};
ghost use Rattle.iq_table.specs.Places.{existence_of, codes_of, values_of, fp_of};

use iq_base::ColumnPart;
use iq_fp::Fp;

/// The object of the rows that are there, for the table at a place among the tables.
pub fn existence_of(place: u32) -> u32
    requires { place < 64 }
    ensures { result ≡ existence_of place }
{
    256 * place
}

/// The object of a column's codes.
pub fn codes_of(place: u32, c: usize) -> u32
    requires place { place < 64 }
    requires column { c < 32 }
    ensures { result ≡ codes_of place c }
{
    256 * place + 1 + 2 * c as u32
}

/// The object of a column's distinct values.
pub fn values_of(place: u32, c: usize) -> u32
    requires place { place < 64 }
    requires column { c < 32 }
    ensures { result ≡ values_of place c }
{
    256 * place + 2 + 2 * c as u32
}

/// A column of a table of so many slots.
pub fn fp_of(place: u32, slots: u32, c: usize, part: &ColumnPart) -> Fp
    requires place { place < 64 }
    requires column { c < 32 }
    ensures { result ≡ fp_of place slots c part.now }
{
    Fp {
        codes: codes_of(place, c),
        values: values_of(place, c),
        kind: part.kind,
        slots,
        distinct: part.distinct,
    }
}
