//! Short texts: names, and the texts of values.
ghost use Rattle.std.specs.Prelude.{◌≡◌, ◌≤◌, ◌↔◌, length, IsSome, IfSome, Some, nat_eq, refl, ⊤, IsUtf8};
ghost use Rattle.std.specs.Ordering.{nat_cmp};
ghost use Rattle.std.specs.Cmp.{partial_equiv_from_equiv};
ghost use Rattle.std.specs.Cmp.Lexicographic.{pointwise, slice_cmp, nat_list_eq_equiv, nat_list_cmp_total, texts_po, texts_ties};
ghost use Rattle.std.specs.Cmp.Rules.{hashing};
ghost use Rattle.std.specs.Hash as fed;
ghost use Rattle.std.proofs.Common.{rules};

use arrayvec::ArrayString;
use std::alloc::AllocError;
use std::cmp::Ordering;
use std::fmt;
use std::hash::{Hash, Hasher};
use std::marker::Model;

/// A text of at most so many bytes of UTF-8, which lie in the value itself. Contracts see its bytes.
#[derive(Drop)]
pub struct Short<const N: usize> {
    text: ArrayString<N>,
}

/// A name of a table, a column, an index, a node, a session or a savepoint: at most 30 bytes.
pub type Name = Short<30>;

/// The text of a value: at most 255 bytes.
pub type Text = Short<255>;

impl<const N: usize> Model for Short<N> {
    ghost use Rattle.std.specs.Prelude.{List, ℕ, ◌≤◌, length, IsUtf8};

    ghost Value = { List ℕ };

    ghost view = { λ n. n.text.bytes };

    ghost invariant = { λ n. length n.text.bytes ≤ N };
}

impl<const N: usize> Short<N> {
    /// The longest text, in bytes.
    pub const MOST: usize = N;

    /// The text of these bytes, where they are at most so many.
    pub fn of(text: &str) -> Option<Short<N>>
        ensures some { IsSome result ↔ (length text.now ≤ N) }
        ensures value { IfSome result (λ n. n ≡ text.now) }
    {
        match ArrayString::from(text) {
            Ok(text) => Some(Short { text }),
            Err(_) => None,
        }
    }

    /// The same text once more, without memory.
    pub fn again(&self) -> Short<N>
        ensures { result ≡ self.now }
    {
        let text = self.text;
        Short { text }
    }

    /// The text as a `str`.
    pub fn as_str(&self) -> &str
        ensures value { result.now ≡ self.now }
        ensures short { length result.now ≤ N }
    {
        self.text.as_str()
    }
}

impl<const N: usize> Clone for Short<N> {
    ghost is_clone = { λ x y. y ≡ x };

    ghost is_infallible = { λ _. ⊤ };

    fn clone(&self) -> Result<Short<N>, AllocError> {
        Ok(self.again())
    }
}

impl<const N: usize> PartialEq for Short<N> {
    ghost eq = { λ s t. pointwise nat_eq s t };

    ghost laws = { partial_equiv_from_equiv nat_list_eq_equiv };

    fn eq(&self, other: &Short<N>) -> bool {
        self.as_str() == other.as_str()
    }
}

impl<const N: usize> Eq for Short<N> {
    ghost laws = { nat_list_eq_equiv };
}

impl<const N: usize> PartialOrd for Short<N> {
    ghost partial_cmp = { λ s t. Some (slice_cmp nat_cmp s t) };

    ghost laws = { texts_po };

    fn partial_cmp(&self, other: &Short<N>) -> Option<Ordering> {
        self.as_str().partial_cmp(other.as_str())
    }
}

impl<const N: usize> Ord for Short<N> {
    ghost cmp = { λ s t. slice_cmp nat_cmp s t };

    ghost total = { nat_list_cmp_total };

    ghost matches_partial_cmp = { λ s t. refl };

    ghost matches_eq = { λ s t. texts_ties s t };

    fn cmp(&self, other: &Short<N>) -> Ordering {
        self.as_str().cmp(other.as_str())
    }
}

impl<const N: usize> Hash for Short<N> {
    ghost hash_input = { λ s. fed.str s };

    ghost respects_eq = { Prim.search (hashing, rules) };

    fn hash<H: Hasher>(&self, state: &mut H) {
        self.as_str().hash(state)
    }
}

impl<const N: usize> fmt::Display for Short<N> {
    ghost output = { λ s. Some s };

    fn fmt<W: fmt::Write>(&self, f: &mut fmt::Formatter<W>) -> fmt::Result {
        f.write_str(self.as_str())
    }
}

impl<const N: usize> fmt::Debug for Short<N> {
    fn fmt<W: fmt::Write>(&self, f: &mut fmt::Formatter<W>) -> fmt::Result {
        f.write_str(self.as_str())
    }
}
