//! The act that adds to a counter.
ghost use Rattle.std.specs.Prelude.{◌≡◌, true, false};
ghost use Rattle.iq_state_tests.specs.Counter.{speaks_for, entry, grown, noted, knows_nothing};
ghost use Rattle.iq_turnstile.specs.Passes.{note_or};

use super::Counter;
use iq_turnstile::{Act, Pass};
use std::snapshot::Snapshot;

/// Adds an amount under a name that the pass speaks for.
#[derive(Drop)]
pub struct Adds {
    pub before: Snapshot<Pass<Counter>>,
    pub by: u32,
    pub amount: u32,
    /// Whether it was added: it wasn't where memory was missing.
    pub done: bool,
    ghost own: { speaks_for (note_or knows_nothing before.value).names by ≡ true },
}

impl Adds {
    pub fn new(pass: &Pass<Counter>, by: u32, amount: u32) -> Adds
        requires { speaks_for (note_or knows_nothing pass.now).names by ≡ true }
        ensures { (result.before.value ≡ pass.now) × (result.by ≡ by) × (result.amount ≡ amount) }
    {
        Adds {
            before: Snapshot::of(pass),
            by,
            amount,
            done: false,
        }
    }
}

impl Act<Counter> for Adds {
    ghost expects = { λ a. note_or knows_nothing a.before.value };

    ghost after = { λ n a b s t. noted b.done (entry a.by a.amount) n };

    ghost acts = { λ a s b t. t ≡ grown b.done (entry a.by a.amount) s };

    fn act(&mut self, state: &mut Counter) {
        self.done = state.add(self.by, self.amount).is_ok();
    }
}
