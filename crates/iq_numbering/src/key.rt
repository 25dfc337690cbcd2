//! What stands for the bytes of a cell in an index of cells.
ghost use Rattle.std.specs.Prelude.{◌≡◌, nat_eq, length};
ghost use Rattle.std.specs.Cmp.Lexicographic.{pointwise};

use std::hash::Hash;

/// What stands for some bytes, as two are equal where their bytes are.
pub(crate) trait OfBytes: Eq + Hash {
    ghost use Rattle.std.specs.Prelude.{List, ℕ};

    /// The bytes.
    ghost bytes: { Self → List ℕ };

    /// Equality compares the bytes.
    ghost compares: { (a b : Self) → Self.eq a b ≡ pointwise nat_eq (bytes a) (bytes b) };
}

/// What stands for the bytes of a cell in an index of cells.
pub(crate) trait Key<'a>: OfBytes {
    ghost use Rattle.std.specs.Prelude.{ℕ};

    /// Whether a key may be made of so many bytes.
    ghost takes: { ℕ → Type 0 };

    /// The key of a cell.
    fn of(cell: &'a [u8]) -> Self
        requires { takes (length cell.now) }
        ensures { Self.bytes result ≡ cell.now };
}
