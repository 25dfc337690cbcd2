//! A count, as a shared state of which no pass knows anything.
ghost use Rattle.std.specs.Prelude.{◌≡◌};

use iq_turnstile::{Act, Shared};

#[derive(Drop)]
pub struct Tally {
    pub count: u64,
}

impl Shared for Tally {
    type Note = ();

    ghost first = { λ _. tt };

    ghost agrees = { λ _ _. Unit {0} };

    ghost may = { λ _ _ _ _. Unit {0} };

    ghost apart = { λ _ _. Unit {0} };

    ghost left = { λ n. n };

    ghost right = { λ n. n };

    ghost both_ways = { λ _ _ _. tt };

    ghost divides = { λ _ _ _. record { left_agrees = tt; right_agrees = tt; halves = tt; left_apart = λ _ _. tt; right_apart = λ _ _. tt } };
}

/// Counts one more.
#[derive(Drop)]
pub struct More;

impl Act<Tally> for More {
    ghost expects = { λ _. tt };

    ghost after = { λ n _ _ _ _. n };

    ghost acts = { λ _ _ _ _. Unit {0} };

    fn act(&mut self, state: &mut Tally) {
        state.count = state.count.wrapping_add(1);
    }
}
