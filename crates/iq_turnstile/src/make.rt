//! How a turnstile is made.
ghost use Rattle.std.specs.Prelude.{◌≡◌, ◌<◌, [], ◌∷◌, IfOk, IfErr};
ghost use Rattle.iq_turnstile.specs.Passes.{IsOf, all_parts, parts_of, notes_of};

use crate::shared::Shared;
use crate::turnstile::{Kept, Pass, Turnstile};
use crate::view::About;
use atomic_table::Table;
use std::alloc::Global;
use std::snapshot::Snapshot;

impl<S: Shared> Turnstile<S> {
    /// A turnstile over the state, and its first pass, which has all parts.
    pub fn new(alloc: Global, state: S, parts: u32) -> Result<(Turnstile<S>, Pass<S>), Kept<S>>
        requires parts { 0 < parts }
        requires agrees { S.agrees (S.first state) state }
        ensures pass { IfOk result (λ made. IsOf made.0 made.1 × (notes_of made.1 ≡ S.first state ∷ [])) }
        ensures parts { IfOk result (λ made. (all_parts made.0 ≡ parts) × (parts_of made.1 ≡ parts)) }
        ensures kept { IfErr result (λ kept. kept.value ≡ state) }
    {
        let about = About {
            parts,
            state: Snapshot::of(&state),
        };
        let Ok(mut slots) = Vec::with_capacity(alloc, 1) else {
            return Err(Kept { value: state });
        };
        slots.push_reserved(Some(state));
        match Table::new(alloc, &[0, 0], slots, &about) {
            Ok((table, seat)) => Ok((Turnstile { table, parts }, Pass { seat, parts })),
            Err(refused) => Err(Kept {
                value: state_in(refused.slots),
            }),
        }
    }
}

// The state in the one slot that came back.
fn state_in<S: Shared>(mut slots: Vec<Option<S>>) -> S
    requires { (s : S) × (slots.items ≡ Some s ∷ []) }
    ensures { slots.items ≡ Some result ∷ [] }
{
    let Some(Some(state)) = slots.pop() else {
        unreachable!()
    };
    state
}
