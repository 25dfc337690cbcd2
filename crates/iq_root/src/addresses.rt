//! A few block numbers, without memory.
ghost use Rattle.std.specs.Prelude.{◌≡◌, ◌≤◌, ◌<◌, ◌+◌, ◌↔◌, [], ◌∷◌, ◌++◌, length, take, drop, slice_set, IsTrue};

use arrayvec::ArrayVec;
use std::marker::Model;

/// At most 64 block numbers, which lie in the value itself. Contracts see their list.
#[derive(Debug, Drop)]
pub struct Addresses {
    items: ArrayVec<u32, 64>,
}

impl Model for Addresses {
    ghost use Rattle.std.specs.Prelude.{List, ℕ, ◌≤◌, length};

    ghost Value = { List ℕ };

    ghost view = { λ a. a.items.items };

    ghost invariant = { λ a. length a.items.items ≤ 64 };
}

impl Addresses {
    /// The most that there can be.
    pub const MOST: usize = 64;

    /// No number.
    pub fn new() -> Addresses
        ensures { result ≡ [] }
    {
        Addresses {
            items: ArrayVec::new(),
        }
    }

    /// The numbers in order.
    pub fn as_slice(&self) -> &[u32]
        ensures value { result.now ≡ self.now }
        ensures few { length result.now ≤ 64 }
    {
        self.items.as_slice()
    }

    /// How many there are.
    pub fn len(&self) -> usize
        ensures value { result ≡ length self.now }
        ensures few { result ≤ 64 }
    {
        self.items.len()
    }

    /// Whether there is none.
    pub fn is_empty(&self) -> bool
        ensures { IsTrue result ↔ (self.now ≡ []) }
    {
        self.items.is_empty()
    }

    /// The same numbers once more, without memory.
    pub fn again(&self) -> Addresses
        ensures { result ≡ self.now }
    {
        let mut copy = Addresses::new();
        for address in self.as_slice() {
            copy.push(*address);
        }
        copy
    }

    /// Puts a number in place of the one at a place.
    pub fn set(&mut self, place: usize, address: u32)
        requires { place < length self.old }
        ensures { self.new ≡ slice_set self.old place address }
    {
        self.items.as_mut_slice()[place] = address;
    }

    /// Puts a number before the one at a place, or at the end.
    pub fn insert(&mut self, place: usize, address: u32)
        requires within { place ≤ length self.old }
        requires few { length self.old < 64 }
        ensures { self.new ≡ take place self.old ++ address ∷ drop place self.old }
    {
        self.items.insert(place, address);
    }

    /// Takes out the number at a place.
    pub fn remove(&mut self, place: usize)
        requires { place < length self.old }
        ensures { self.new ≡ take place self.old ++ drop (place + 1) self.old }
    {
        self.items.remove(place);
    }

    /// Puts a number at the end.
    pub fn push(&mut self, address: u32)
        requires { length self.old < 64 }
        ensures { self.new ≡ self.old ++ address ∷ [] }
    {
        self.items.push(address);
    }
}
