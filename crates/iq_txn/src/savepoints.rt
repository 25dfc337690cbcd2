//! Savepoints of a transaction.
ghost use Rattle.std.specs.Prelude.{◌≡◌, ◌<◌, ◌≤◌, [], ◌∷◌, ◌↔◌, length, drop, IsTrue};
ghost use Rattle.std.specs.Option.{option_copied};
ghost use Rattle.iq_txn.specs.Saved.{Saved, saves_from, has_save, first_mark};

use crate::marks::Mark;
use arrayvec::ArrayVec;
use iq_base::Name;
use iq_root::Addresses;
use std::marker::Model;

/// How many savepoints can stand.
pub const MOST_SAVEPOINTS: usize = 16;

/// A savepoint: its name, and what its transaction had then.
#[derive(Debug, Drop)]
struct Savepoint {
    name: Name,
    mark: Mark,
}

impl Model for Savepoint {
    ghost use Rattle.iq_txn.specs.Saved.{Saved};

    ghost Value = { Saved };

    ghost view = { λ s. record { name = s.name; mark = s.mark } };
}

impl Default for Savepoint {
    /// A savepoint without a name of a transaction without tables, for a place where none stands.
    fn default() -> Savepoint {
        Savepoint {
            name: Name::of("").unwrap(),
            mark: Mark {
                heads: Addresses::new(),
                private: 0,
                wasted: 0,
                dropped: 0,
            },
        }
    }
}

/// At most 16 savepoints, which lie in the value itself. Contracts see the list of names and marks, the newest first.
#[derive(Debug, Drop)]
pub struct Savepoints {
    saves: ArrayVec<Savepoint, 16>,
}

impl Model for Savepoints {
    ghost use Rattle.std.specs.Prelude.{List, ◌≤◌, length};
    ghost use Rattle.iq_txn.specs.Saved.{Saved};

    ghost Value = { List Saved };

    ghost view = { λ s. s.saves.items };

    ghost invariant = { λ s. length s.saves.items ≤ 16 };
}

impl Savepoints {
    /// No savepoint. It takes no memory.
    pub fn none() -> Savepoints
        ensures { result ≡ [] }
    {
        Savepoints {
            saves: ArrayVec::new(),
        }
    }

    /// How many stand.
    pub fn len(&self) -> usize
        ensures { result ≡ length self.now }
    {
        self.saves.len()
    }

    /// Whether one of this name stands.
    pub fn has(&self, name: &Name) -> bool
        ensures { result ≡ has_save name.now self.now }
    {
        self.saves.iter().any(|save| &save.name == name)
    }

    /// A savepoint comes, which hides an older one of its name. It takes no memory.
    pub fn push(&mut self, name: &Name, mark: Mark)
        requires { length self.old < 16 }
        ensures { self.new ≡ record { name = name.now; mark = mark } ∷ self.old }
    {
        self.saves.insert(
            0,
            Savepoint {
                name: name.again(),
                mark,
            },
        );
    }

    /// Drops the savepoints that are newer than the newest of a name, or all where none has it.
    pub fn keep_from(&mut self, name: &Name)
        ensures { self.new ≡ saves_from name.now self.old }
    {
        'newer: while let Some(save) = self.saves.first() {
            if &save.name == name {
                break;
            }
            self.saves.remove(0);
        }
    }

    /// Drops the newest savepoint.
    pub fn drop_newest(&mut self)
        requires { 0 < length self.old }
        ensures { self.new ≡ drop 1 self.old }
    {
        self.saves.remove(0);
    }

    /// The mark of the newest savepoint, if one stands.
    pub fn newest(&self) -> Option<&Mark>
        ensures { option_copied result ≡ first_mark self.now }
    {
        match self.saves.first() {
            None => None,
            Some(save) => Some(&save.mark),
        }
    }
}
