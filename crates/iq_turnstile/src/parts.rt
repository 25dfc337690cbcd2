//! How the parts of a pass are told and shared out.
ghost use Rattle.std.specs.Prelude.{◌≡◌, ◌+◌, ◌<◌, map};
ghost use Rattle.iq_turnstile.specs.Passes.{IsOf, parts_of, notes_of};

use crate::plays::Halves;
use crate::shared::Shared;
use crate::turnstile::{Pass, Turnstile};

impl<S: Shared> Pass<S> {
    /// How many of the turnstile's parts the pass has.
    pub fn parts(&self) -> u32
        ensures { result ≡ parts_of self.now }
    {
        self.parts
    }
}

impl<S: Shared> Turnstile<S> {
    /// A pass with one part, which this pass has no more. Its note is divided.
    pub fn split(&self, pass: &mut Pass<S>) -> Pass<S>
        requires here { IsOf self.now pass.old }
        requires enough { 1 < parts_of pass.old }
        ensures here { IsOf self.now pass.new × IsOf self.now result }
        ensures parts { (parts_of pass.new + 1 ≡ parts_of pass.old) × (parts_of result ≡ 1) }
        ensures left { notes_of pass.new ≡ map S.left (notes_of pass.old) }
        ensures right { notes_of result ≡ map S.right (notes_of pass.old) }
    {
        let seat = self.table.shared.split_seat::<Halves>(&mut pass.seat);
        pass.parts -= 1;
        Pass { seat, parts: 1 }
    }
}
