//! Which calls of a memory form fail.
ghost use Rattle.std.specs.Prelude.{◌≡◌, ◌≤◌, OnOk, is_err};
ghost use Rattle.iq_outside.specs.Calls.{plan_of, is_listed, after_call, after_fault};

use crate::Failed;
use std::marker::Model;

/// The calls of a memory form, counted from 1, and the numbers of those that are to fail.
#[derive(Debug, Drop)]
pub struct Calls {
    count: u64,
    fails: Vec<u64>,
    faults: u64,
}

impl Model for Calls {
    ghost use Rattle.std.specs.Prelude.{◌≤◌, ◌-◌, ◌^◌};
    ghost use Rattle.iq_outside.specs.Calls.{Plan};

    ghost Value = { Plan };

    ghost view = { λ c. record { calls = c.count; fails = c.fails.items; faults = c.faults } };

    ghost invariant = { λ c. c.faults ≤ 2 ^ 64 - 1 };
}

impl Calls {
    pub fn new(fails: Vec<u64>) -> Calls
        ensures { result ≡ plan_of fails.items }
    {
        Calls {
            count: 0,
            fails,
            faults: 0,
        }
    }

    /// Counts one more call, which fails where its number is listed.
    pub fn call(&mut self) -> Result<(), Failed>
        ensures listed { is_err result ≡ is_listed self.old }
        ensures counted { self.new ≡ after_call self.old }
        ensures calm { OnOk result (self.new.faults ≡ self.old.faults) }
        ensures later { self.old.faults ≤ self.new.faults }
    {
        self.count = self.count.saturating_add(1);
        if self.fails.contains(&self.count) {
            self.faults = self.faults.saturating_add(1);
            return Err(Failed);
        }
        Ok(())
    }

    /// Counts a failure that no number named, as want of memory.
    pub fn fault(&mut self) -> Failed
        ensures counted { self.new ≡ after_fault self.old }
        ensures later { self.old.faults ≤ self.new.faults }
    {
        self.faults = self.faults.saturating_add(1);
        Failed
    }

    pub fn faults(&self) -> u64
        ensures { result ≡ self.now.faults }
    {
        self.faults
    }
}
