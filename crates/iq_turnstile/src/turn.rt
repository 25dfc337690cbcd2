//! One turn: draw a ticket, wait for it, act on the state, and let the next one go.
ghost use Rattle.std.specs.Prelude.{◌≡◌, [], ◌∷◌, MatchBool, IsTrue};
ghost use Rattle.iq_turnstile.specs.Passes.{IsOf, IsWaiting, IsHolding, MayLeave, HasTurned, parts_of, notes_of};

use crate::plays::{Advances, Draws, Looks, Told};
use crate::shared::{Act, Shared};
use crate::turnstile::{Pass, Turnstile};
use std::marker::Brand;
use std::snapshot::Snapshot;
use std::sync::Wait;
use std::thread;

const DRAWN: usize = 0;

const SERVED: usize = 1;

const STATE: usize = 0;

// What an act did, for contracts alone: the act and the state, each before and after.
#[derive(Drop)]
struct Deed<A, S> {
    before: Snapshot<A>,
    after: Snapshot<A>,
    taken: Snapshot<S>,
    given: Snapshot<S>,
}

impl<S: Shared> Turnstile<S> {
    /// Runs the act while this pass alone has the state. It waits for the turns that were asked for before.
    pub fn turn<R: Wait, A: Act<S>>(&self, rt: &R, pass: &mut Pass<S>, act: &mut A)
        requires here { IsOf self.now pass.old }
        requires expected { notes_of pass.old ≡ A.expects act.old ∷ [] }
        ensures here { IsOf self.now pass.new }
        ensures parts { parts_of pass.new ≡ parts_of pass.old }
        ensures turned { HasTurned S.agrees S.apart S.may A.acts A.after
            (A.expects act.old) act.old act.new (notes_of pass.new) }
    {
        self.enter(rt, pass);
        let Some(mut state) = self.table.shared.exchange(&mut pass.seat, STATE, None) else {
            unreachable!()
        };
        let before = Snapshot::of(&*act);
        let taken = Snapshot::of(&state);
        act.act(&mut state);
        let deed = Deed {
            before,
            after: Snapshot::of(&*act),
            taken,
            given: Snapshot::of(&state),
        };
        let _ = self
            .table
            .shared
            .exchange(&mut pass.seat, STATE, Some(state));
        self.leave::<A, Brand>(pass, &deed);
    }

    // Waits until the state's slot is this pass's.
    fn enter<R: Wait>(&self, rt: &R, pass: &mut Pass<S>)
        requires { IsOf self.now pass.old }
        ensures here { IsHolding S.agrees self.now pass.new (notes_of pass.old) }
        ensures parts { parts_of pass.new ≡ parts_of pass.old }
    {
        let ticket = self.draw(pass);
        for _ in rt.forever() {
            if self.look(pass, ticket) {
                return;
            }
            thread::yield_now();
        }
        unreachable!()
    }

    // Answers the word of the ticket.
    fn draw(&self, pass: &mut Pass<S>) -> u64
        requires { IsOf self.now pass.old }
        ensures here { IsWaiting self.now pass.new (notes_of pass.old) result }
        ensures parts { parts_of pass.new ≡ parts_of pass.old }
    {
        self.table
            .shared
            .fetch_add::<Draws>(&mut pass.seat, DRAWN, 1)
    }

    // Whether the ticket is served, and then the slot is taken.
    fn look(&self, pass: &mut Pass<S>, ticket: u64) -> bool
        requires { IsWaiting self.now pass.old (notes_of pass.old) ticket }
        ensures found { MatchBool result
            (IsHolding S.agrees self.now pass.new (notes_of pass.old))
            (IsWaiting self.now pass.new (notes_of pass.old) ticket) }
        ensures parts { parts_of pass.new ≡ parts_of pass.old }
    {
        self.table.shared.load::<Looks>(&mut pass.seat, SERVED) == ticket
    }

    // Lets the next ticket be served.
    fn leave<A: Act<S>, J: Told<S::Note>>(&self, pass: &mut Pass<S>, deed: &Deed<A, S>)
        requires held { MayLeave S.agrees S.apart S.may self.now pass.old J.told }
        ensures here { IsOf self.now pass.new }
        ensures notes { notes_of pass.new ≡ J.told }
        ensures parts { parts_of pass.new ≡ parts_of pass.old }
    {
        let _ = deed;
        let _ = self
            .table
            .shared
            .fetch_add::<Advances<J>>(&mut pass.seat, SERVED, 1);
    }
}
