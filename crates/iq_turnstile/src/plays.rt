//! What each kind of step tells the seat that makes it.
ghost use Rattle.std.specs.Prelude.{List, []};
ghost use Rattle.iq_turnstile.specs.Steps.{draws, looks, advances, kept_half, given_half, joined, spent};

use crate::shared::Shared;
use crate::view::View;
use atomic_table::{Join, Play, Split};
use std::marker::{Brand, PhantomData};

/// The notes that the seat of an advance is left with. The call at `Brand` picks them.
pub trait Told<N> {
    ghost told: { List N };
}

impl<N> Told<N> for Brand {
    ghost told = { [] };
}

/// Draws a ticket.
pub struct Draws;

impl<S, N> Play<Option<S>, View<S, N>> for Draws {
    ghost then = { draws };
}

/// Looks at the serving word: in vain, or at its ticket, where it takes the state's slot.
pub struct Looks;

impl<S: Shared> Play<Option<S>, View<S, S::Note>> for Looks {
    ghost then = { looks S.agrees };
}

/// Advances the serving word, and gives the slot back.
pub struct Advances<J> {
    told: PhantomData<J>,
}

impl<S, N, J: Told<N>> Play<Option<S>, View<S, N>> for Advances<J> {
    ghost then = { advances J.told };
}

/// Divides a note, with one part for the new seat.
pub struct Halves;

impl<S: Shared> Split<View<S, S::Note>> for Halves {
    ghost left = { kept_half S.left };

    ghost right = { given_half S.right };
}

/// Puts the notes and parts of two seats together.
pub struct Joins;

impl<S, N> Join<View<S, N>> for Joins {
    ghost both = { joined };

    ghost spent = { spent };
}
