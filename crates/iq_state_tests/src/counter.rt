//! A counter with a history: a small shared state that meets the traits, and shows how notes tell passes apart.
//!
//! Contracts see a `Counter` as the list of what was added.
ghost use Rattle.std.specs.Prelude.{◌≡◌, [], ◌∷◌, ◌++◌, OnOk, OnErr, length};
ghost use Rattle.iq_state_tests.specs.Counter.{entry};

use iq_turnstile::Shared;
use std::alloc::{AllocError, Global};
use std::collections::LinkedList;
use std::marker::Model;

mod adds;

pub use adds::Adds;

/// What was added, and under which name.
#[derive(Clone, Copy, Debug, PartialEq, Eq)]
pub struct Added {
    pub by: u32,
    pub amount: u32,
}

/// Names to add under. No value of it is made.
pub enum Names {
    Nobody,
    One(u32),
    /// This and all greater names.
    From(u32),
}

/// The note of a pass: the names that it adds under, and what it added. No value of it is made.
pub struct Mine {
    pub names: Names,
    pub added: LinkedList<Added>,
}

/// A count, with all that was added to it.
#[derive(Drop)]
pub struct Counter {
    history: Vec<Added>,
}

impl Model for Counter {
    ghost use Rattle.std.specs.Prelude.{List};
    ghost use Rattle.iq_state_tests.specs.declared.counter.Added.{Added};

    ghost Value = { List Added };

    ghost view = { λ c. c.history.items };
}

impl Counter {
    pub fn new(alloc: Global) -> Counter
        ensures { result ≡ [] }
    {
        Counter {
            history: Vec::new(alloc),
        }
    }

    /// What was added so far, in order.
    pub fn history(&self) -> &[Added]
        ensures { result.now ≡ self.now }
    {
        self.history.as_slice()
    }

    /// How often was added.
    pub fn count(&self) -> usize
        ensures { result ≡ length self.now }
    {
        self.history.len()
    }

    /// Adds an amount under a name.
    pub fn add(&mut self, by: u32, amount: u32) -> Result<(), AllocError>
        ensures ok { OnOk result (self.new ≡ self.old ++ entry by amount ∷ []) }
        ensures err { OnErr result (self.new ≡ self.old) }
    {
        self.history.push(Added { by, amount })?;
        Ok(())
    }
}

impl Shared for Counter {
    ghost use Rattle.iq_state_tests.specs.Counter.{knows_all, Knows, OnlyAdds, ShareNoName, left_note, right_note};
    ghost use Rattle.iq_state_tests.specs.CounterLaws.{share_both_ways, divides_names};

    type Note = Mine;

    ghost first = { knows_all };

    ghost agrees = { Knows };

    ghost may = { OnlyAdds };

    ghost apart = { ShareNoName };

    ghost left = { left_note };

    ghost right = { right_note };

    ghost both_ways = { share_both_ways };

    ghost divides = { divides_names };
}
