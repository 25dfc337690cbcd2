//! The bytes of a number's cell, as a key of a map.
ghost use Rattle.std.specs.Prelude.{◌≡◌, ◌<◌, ◌^◌, [], ◌∷◌, nat_eq, refl};
ghost use Rattle.std.specs.Cmp.{partial_equiv_from_equiv};
ghost use Rattle.std.specs.Cmp.Lexicographic.{pointwise, bytes_decides, nat_list_eq_equiv};
ghost use Rattle.std.proofs.Common.{ap};

use crate::key::{Key, OfBytes};
use std::hash::{Hash, Hasher};
use std::marker::Model;

/// The bytes of a cell that has N of them, which lie elsewhere: as N is known, it takes 8 bytes, half of what a key of any width takes.
/// Contracts see the bytes. Two keys are equal where their bytes are, and each is hashed in one write.
#[derive(Drop)]
pub(crate) struct NumberKey<'a, const N: usize> {
    bytes: &'a [u8; N],
    ghost short: { N < 2 ^ 63 },
}

impl<'a, const N: usize> Model for NumberKey<'a, N> {
    ghost use Rattle.std.specs.Prelude.{List, ℕ};

    ghost Value = { List ℕ };

    ghost view = { λ k. k.bytes.now };
}

impl<'a, const N: usize> OfBytes for NumberKey<'a, N> {
    ghost bytes = { λ k. k };

    ghost compares = { λ a b. refl };
}

impl<'a, const N: usize> Key<'a> for NumberKey<'a, N> {
    ghost takes = { λ n. n ≡ N };

    fn of(cell: &'a [u8]) -> NumberKey<'a, N> {
        match <&'a [u8; N]>::try_from(cell) {
            Ok(bytes) => NumberKey { bytes },
            Err(_) => unreachable!(),
        }
    }
}

impl<'a, const N: usize> PartialEq for NumberKey<'a, N> {
    ghost eq = { λ a b. pointwise nat_eq a b };

    ghost laws = { partial_equiv_from_equiv nat_list_eq_equiv };

    fn eq(&self, other: &NumberKey<'a, N>) -> bool {
        let (these, those) = (self.bytes, other.bytes);
        these[..] == those[..]
    }
}

impl<'a, const N: usize> Eq for NumberKey<'a, N> {
    ghost laws = { nat_list_eq_equiv };
}

impl<'a, const N: usize> Hash for NumberKey<'a, N> {
    ghost hash_input = { λ k. k ∷ [] };

    ghost respects_eq = { λ a b h. ap (λ k. k ∷ []) ((bytes_decides a b).0 h) };

    fn hash<H: Hasher>(&self, state: &mut H) {
        let bytes = self.bytes;
        state.write(&bytes[..]);
    }
}
