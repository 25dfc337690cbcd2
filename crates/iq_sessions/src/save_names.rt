//! The names of a transaction's savepoints.
ghost use Rattle.std.specs.Prelude.{◌≡◌, ◌<◌, ◌↔◌, [], ◌∷◌, length, drop, IsTrue};
ghost use Rattle.iq_sessions.specs.Saves.{has_save, names_from};

use arrayvec::ArrayVec;
use iq_base::Name;
use std::marker::Model;

/// How many savepoints can stand.
pub const MOST_SAVEPOINTS: usize = 16;

/// A savepoint's name.
#[derive(Debug, Drop)]
struct SaveName {
    name: Name,
}

impl Model for SaveName {
    ghost use Rattle.iq_base.specs.Shorts.{Name};

    ghost Value = { Name };

    ghost view = { λ s. s.name };
}

impl Default for SaveName {
    /// No name, for a place where none stands.
    fn default() -> SaveName {
        SaveName {
            name: Name::of("").unwrap(),
        }
    }
}

/// At most 16 names of savepoints, which lie in the value itself. Contracts see the list of names, the newest first.
#[derive(Debug, Drop)]
pub struct SaveNames {
    names: ArrayVec<SaveName, 16>,
}

impl Model for SaveNames {
    ghost use Rattle.std.specs.Prelude.{List, ◌≤◌, length};
    ghost use Rattle.iq_base.specs.Shorts.{Name};

    ghost Value = { List Name };

    ghost view = { λ s. s.names.items };

    ghost invariant = { λ s. length s.names.items ≤ 16 };
}

impl SaveNames {
    /// No savepoint. It takes no memory.
    pub fn none() -> SaveNames
        ensures { result ≡ [] }
    {
        SaveNames {
            names: ArrayVec::new(),
        }
    }

    /// How many stand.
    pub fn len(&self) -> usize
        ensures { result ≡ length self.now }
    {
        self.names.len()
    }

    /// Whether none stands.
    pub fn is_empty(&self) -> bool
        ensures { IsTrue result ↔ (self.now ≡ []) }
    {
        self.names.is_empty()
    }

    /// Whether one of this name stands.
    pub fn has(&self, name: &Name) -> bool
        ensures { result ≡ has_save name.now self.now }
    {
        self.names.iter().any(|save| &save.name == name)
    }

    /// A savepoint comes, which hides an older one of its name. It takes no memory.
    pub fn push(&mut self, name: &Name)
        requires { length self.old < 16 }
        ensures { self.new ≡ name.now ∷ self.old }
    {
        self.names.insert(0, SaveName { name: name.again() });
    }

    /// Drops the savepoints that are newer than the newest of a name, or all where none has it.
    pub fn keep_from(&mut self, name: &Name)
        ensures { self.new ≡ names_from name.now self.old }
    {
        'newer: while let Some(save) = self.names.first() {
            if &save.name == name {
                break;
            }
            self.names.remove(0);
        }
    }

    /// Drops the newest savepoint, if one stands.
    pub fn drop_newest(&mut self)
        ensures { self.new ≡ drop 1 self.old }
    {
        if !self.names.is_empty() {
            self.names.remove(0);
        }
    }
}
