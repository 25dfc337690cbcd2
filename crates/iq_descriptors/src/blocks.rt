//! The blocks of a descriptor, without memory.
ghost use Rattle.std.specs.Prelude.{◌≡◌, ◌≤◌, ◌<◌, [], ◌∷◌, ◌++◌, length};

use arrayvec::ArrayVec;
use std::marker::Model;

/// At most 4 block numbers, which lie in the value itself. Contracts see their list.
#[derive(Debug, Drop)]
pub struct Blocks {
    items: ArrayVec<u32, 4>,
}

impl Model for Blocks {
    ghost use Rattle.std.specs.Prelude.{List, ℕ, ◌≤◌, length};

    ghost Value = { List ℕ };

    ghost view = { λ b. b.items.items };

    ghost invariant = { λ b. length b.items.items ≤ 4 };
}

impl Blocks {
    /// No number.
    pub fn new() -> Blocks
        ensures { result ≡ [] }
    {
        Blocks {
            items: ArrayVec::new(),
        }
    }

    /// The numbers in order.
    pub fn as_slice(&self) -> &[u32]
        ensures value { result.now ≡ self.now }
        ensures few { length result.now ≤ 4 }
    {
        self.items.as_slice()
    }

    /// Puts a number at the end.
    pub fn push(&mut self, block: u32)
        requires { length self.old < 4 }
        ensures { self.new ≡ self.old ++ block ∷ [] }
    {
        self.items.push(block);
    }
}
