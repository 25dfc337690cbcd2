//! The bytes of a cell, as a key of a map.
ghost use Rattle.std.specs.Prelude.{◌≡◌, [], ◌∷◌, nat_eq, refl, ⊤};
ghost use Rattle.std.specs.Cmp.{partial_equiv_from_equiv};
ghost use Rattle.std.specs.Cmp.Lexicographic.{pointwise, bytes_decides, nat_list_eq_equiv};
ghost use Rattle.std.proofs.Common.{ap};

use crate::key::{Key, OfBytes};
use std::hash::{Hash, Hasher};
use std::marker::Model;

/// The bytes of a cell, which lie elsewhere: 16 bytes for any kind. Contracts see the bytes. Two keys are equal where their
/// bytes are, and each is hashed in one write.
#[derive(Drop)]
pub struct CellKey<'a> {
    bytes: &'a [u8],
}

impl<'a> Model for CellKey<'a> {
    ghost use Rattle.std.specs.Prelude.{List, ℕ};

    ghost Value = { List ℕ };

    ghost view = { λ k. k.bytes.now };
}

impl<'a> CellKey<'a> {
    /// The key of a cell.
    pub fn of(bytes: &'a [u8]) -> CellKey<'a>
        ensures { result ≡ bytes.now }
    {
        CellKey { bytes }
    }
}

impl<'a> OfBytes for CellKey<'a> {
    ghost bytes = { λ k. k };

    ghost compares = { λ a b. refl };
}

impl<'a> Key<'a> for CellKey<'a> {
    ghost takes = { λ _. ⊤ };

    fn of(cell: &'a [u8]) -> CellKey<'a> {
        CellKey::of(cell)
    }
}

impl<'a> PartialEq for CellKey<'a> {
    ghost eq = { λ a b. pointwise nat_eq a b };

    ghost laws = { partial_equiv_from_equiv nat_list_eq_equiv };

    fn eq(&self, other: &CellKey<'a>) -> bool {
        self.bytes == other.bytes
    }
}

impl<'a> Eq for CellKey<'a> {
    ghost laws = { nat_list_eq_equiv };
}

impl<'a> Hash for CellKey<'a> {
    ghost hash_input = { λ k. k ∷ [] };

    ghost respects_eq = { λ a b h. ap (λ k. k ∷ []) ((bytes_decides a b).0 h) };

    fn hash<H: Hasher>(&self, state: &mut H) {
        state.write(self.bytes);
    }
}
