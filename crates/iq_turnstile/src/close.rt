//! How the state is had back.
ghost use Rattle.std.specs.Prelude.{◌≡◌, ◌≢◌, ◌<◌, ◌↔◌, All, IfOk, IfErr, IsTrue, length, [], ◌∷◌, ◌++◌};
ghost use Rattle.iq_turnstile.specs.Passes.{IsOf, AllAgree, all_parts, all_notes, sum_of_parts};

use crate::plays::Joins;
use crate::shared::Shared;
use crate::turnstile::{Pass, Returned, Turnstile};

impl<S: Shared> Turnstile<S> {
    /// The state, where the passes have all parts. Otherwise the turnstile and the passes come back.
    pub fn close(self, passes: Vec<Pass<S>>) -> Result<S, Returned<S>>
        requires { All (IsOf self) passes.items }
        ensures whole { IfOk result (λ state. sum_of_parts passes.items ≡ all_parts self) }
        ensures state { IfOk result (λ state. AllAgree S.agrees S.apart passes.items state) }
        ensures missing { IfErr result (λ back. sum_of_parts passes.items ≢ all_parts self) }
        ensures returned { IfErr result (λ back. (back.turnstile ≡ self) × (back.passes ≡ passes)) }
    {
        if self.is_whole(&passes) {
            Ok(self.into_state(passes))
        } else {
            Err(Returned {
                turnstile: self,
                passes,
            })
        }
    }

    // Whether the passes have all parts.
    fn is_whole(&self, passes: &Vec<Pass<S>>) -> bool
        ensures { IsTrue result ↔ (sum_of_parts passes.now.items ≡ all_parts self.now) }
    {
        let mut missing = self.parts;
        for pass in passes {
            if missing < pass.parts {
                return false;
            }
            missing -= pass.parts;
        }
        missing == 0
    }

    // Joins all seats, so that no other has a part, and takes the slot out.
    fn into_state(self, mut passes: Vec<Pass<S>>) -> S
        requires here { All (IsOf self) passes.items }
        requires whole { sum_of_parts passes.items ≡ all_parts self }
        ensures { AllAgree S.agrees S.apart passes.items result }
    {
        let Some(Pass { mut seat, parts: _ }) = passes.pop() else {
            unreachable!()
        };
        while let Some(
            Pass {
                seat: other,
                parts: _,
            },
        ) = passes.pop()
        {
            self.table.shared.join_seat::<Joins>(&mut seat, other);
        }
        let Turnstile { table, parts: _ } = self;
        let mut closed = table.close_with(seat);
        let slot = closed.take(0);
        closed.free();
        let Some(state) = slot else { unreachable!() };
        state
    }
}
