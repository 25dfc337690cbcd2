//! The rule of the table: a ticket lock over one slot.
ghost use Rattle.std.specs.Prelude.{[], ◌∷◌};
ghost use Rattle.iq_turnstile.specs.Rule.{IsRuled, idle_view};

use crate::shared::Shared;
use crate::view::{About, View};
use atomic_table::TableRule;

/// The first word counts the tickets that were drawn, the second those that were served.
pub struct Turns;

impl<S: Shared> TableRule<Option<S>, View<S, S::Note>, About<S>> for Turns {
    ghost holds = { λ about st. IsRuled S.agrees S.apart about.parts st };

    ghost first = { λ about. idle_view about.parts (S.first about.state.value ∷ []) };
}
