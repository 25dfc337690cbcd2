//! Why a text isn't read.
ghost use Rattle.std.specs.Prelude.{◌≡◌};
ghost use Rattle.iq_grammar.specs.declared.faults.ParseFault.TheVariants.{NoMemory};

use std::alloc::{AllocError, AllocFailed};

/// The text isn't of the grammar, and the place tells where: the number of a byte of the text, from 1. Or an allocation was refused.
#[derive(Clone, Copy, Debug, PartialEq, Eq)]
pub enum ParseFault {
    Syntax { place: usize },
    NoMemory,
}

impl From<AllocError> for ParseFault {
    ghost from_gives = { λ _ e. e ≡ NoMemory };

    fn from(_: AllocError) -> ParseFault {
        ParseFault::NoMemory
    }
}

impl<T: Drop> From<AllocFailed<T>> for ParseFault {
    ghost from_gives = { λ _ e. e ≡ NoMemory };

    fn from(_: AllocFailed<T>) -> ParseFault {
        ParseFault::NoMemory
    }
}

impl From<iq_base::NoMemory> for ParseFault {
    ghost from_gives = { λ _ e. e ≡ NoMemory };

    fn from(_: iq_base::NoMemory) -> ParseFault {
        ParseFault::NoMemory
    }
}
