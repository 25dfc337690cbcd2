//! Why a script isn't read.
ghost use Rattle.std.specs.Prelude.{◌≡◌, ◌≤◌, length};
ghost use Rattle.iq_script.specs.Faults as spec;
ghost use Rattle.iq_script.specs.declared.faults.ScriptRefusal.TheVariants.{NoMemory as TheNoMemory};
ghost use Rattle.iq_script.specs.declared.faults.Flaw.TheVariants.{Fault as TheFault, NoMemory as NoRoom};

use iq_base::{Name, NoMemory};
use std::alloc::{AllocError, AllocFailed};

/// What is wrong with a line, in the order in which it is tested. The place of `Syntax` is the number of a byte of the line, from 1.
/// `Unbuilt` is no fault of the line: the whole script is right, and the line is the first that the program doesn't run today.
#[derive(Debug, Drop)]
pub enum LineFault {
    TooManyLines,
    NotUtf8,
    Syntax { place: usize },
    LateDeclaration,
    NoCoordinator,
    SecondCoordinator,
    NodeTwice { name: Name },
    TooManyNodes,
    SessionTwice { name: Name },
    UnknownNode { name: Name },
    TooManySessions,
    UnknownSession { name: Name },
    ShortLoad,
    Unbuilt,
}

/// What a fault names.
#[derive(Debug, Drop)]
pub enum FaultField {
    Nothing,
    Place(usize),
    Named(Name),
}

impl LineFault {
    /// The fault's name, as it is printed before its field.
    pub fn name(&self) -> &'static str
        ensures text { result.now ≡ spec.name_text self.now }
        ensures short { length result.now ≤ 20 }
    {
        match self {
            LineFault::TooManyLines => "TooManyLines",
            LineFault::NotUtf8 => "NotUtf8",
            LineFault::Syntax { .. } => "Syntax",
            LineFault::LateDeclaration => "LateDeclaration",
            LineFault::NoCoordinator => "NoCoordinator",
            LineFault::SecondCoordinator => "SecondCoordinator",
            LineFault::NodeTwice { .. } => "NodeTwice",
            LineFault::TooManyNodes => "TooManyNodes",
            LineFault::SessionTwice { .. } => "SessionTwice",
            LineFault::UnknownNode { .. } => "UnknownNode",
            LineFault::TooManySessions => "TooManySessions",
            LineFault::UnknownSession { .. } => "UnknownSession",
            LineFault::ShortLoad => "ShortLoad",
            LineFault::Unbuilt => "Unbuilt",
        }
    }

    /// The place or the name that the fault tells.
    pub fn field(&self) -> FaultField
        ensures { result ≡ spec.field_of self.now }
    {
        match self {
            LineFault::Syntax { place } => FaultField::Place(*place),
            LineFault::NodeTwice { name }
            | LineFault::SessionTwice { name }
            | LineFault::UnknownNode { name }
            | LineFault::UnknownSession { name } => FaultField::Named(name.again()),
            LineFault::TooManyLines
            | LineFault::NotUtf8
            | LineFault::LateDeclaration
            | LineFault::NoCoordinator
            | LineFault::SecondCoordinator
            | LineFault::TooManyNodes
            | LineFault::TooManySessions
            | LineFault::ShortLoad
            | LineFault::Unbuilt => FaultField::Nothing,
        }
    }
}

/// Why a line isn't taken: its fault, or want of memory.
#[derive(Debug, Drop)]
pub enum Flaw {
    Fault(LineFault),
    NoMemory,
}

impl From<LineFault> for Flaw {
    ghost from_gives = { λ cause e. e ≡ TheFault cause };

    fn from(cause: LineFault) -> Flaw {
        Flaw::Fault(cause)
    }
}

impl From<NoMemory> for Flaw {
    ghost from_gives = { λ _ e. e ≡ NoRoom };

    fn from(_: NoMemory) -> Flaw {
        Flaw::NoMemory
    }
}

impl From<AllocError> for Flaw {
    ghost from_gives = { λ _ e. e ≡ NoRoom };

    fn from(_: AllocError) -> Flaw {
        Flaw::NoMemory
    }
}

/// The first faulty line, by its number from 1, with what is wrong with it, or want of memory.
#[derive(Debug, Drop)]
pub enum ScriptRefusal {
    ScriptFault { line: u32, cause: LineFault },
    NoMemory,
}

impl From<NoMemory> for ScriptRefusal {
    ghost from_gives = { λ _ e. e ≡ TheNoMemory };

    fn from(_: NoMemory) -> ScriptRefusal {
        ScriptRefusal::NoMemory
    }
}

impl<T: Drop> From<AllocFailed<T>> for ScriptRefusal {
    ghost from_gives = { λ _ e. e ≡ TheNoMemory };

    fn from(_: AllocFailed<T>) -> ScriptRefusal {
        ScriptRefusal::NoMemory
    }
}
