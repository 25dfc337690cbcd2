//! What a shared state gives to the turnstile, and what is done to it in one turn.
ghost use Rattle.std.specs.Prelude.{◌≡◌};
ghost use Rattle.iq_turnstile.specs.Notes.{IsDivided, IsTurn};

/// A state that passes take turns at.
///
/// A `Note` is what a pass knows of the state. It is a value of contracts alone: a type of lists will do, of which no
/// value is made.
pub trait Shared: Drop {
    type Note;

    // What is known of a state by whoever brings it.
    ghost first: { Self → Self.Note };

    ghost agrees: { Self.Note → Self → Type 0 };
    // Of a note and the states before and after a turn, which note the turn may leave.
    ghost may: { Self.Note → Self → Self → Self.Note → Type 0 };
    // What a turn with one of the notes does leaves the other in agreement.
    ghost apart: { Self.Note → Self.Note → Type 0 };
    // The two parts of a divided note: what stays, and what the new pass gets.
    ghost left: { Self.Note → Self.Note };

    ghost right: { Self.Note → Self.Note };

    ghost both_ways: { (n m : Self.Note) → apart n m → apart m n };

    ghost divides: { (n : Self.Note) (s : Self) → agrees n s → IsDivided agrees apart n (left n) (right n) s };
}

/// What one turn does to the state. It takes no turn at the turnstile that it acts in: that would wait for ever.
pub trait Act<S: Shared> {
    // The note of the pass that the act is for.
    ghost expects: { Self → S.Note };
    // The note afterwards, of that note, the act before and after, and the state before and after.
    ghost after: { S.Note → Self → Self → S → S → S.Note };
    // What is known of the act and the state, each before and after.
    ghost acts: { Self → S → Self → S → Type 0 };

    fn act(&mut self, state: &mut S)
        requires { S.agrees (expects self.old) state.old }
        ensures acts { acts self.old state.old self.new state.new }
        ensures turn { let note = after (expects self.old) self.old self.new state.old state.new in
            IsTurn S.agrees S.apart S.may (expects self.old) note state.old state.new };
}
