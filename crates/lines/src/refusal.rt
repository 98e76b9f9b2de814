// Why a line is refused.
ghost use Rattle.std.specs.Prelude.{◌≡◌};
ghost use Rattle.lines.specs.Fault.{fault_of, from_words, in_line};
ghost use Rattle.lines.specs.declared.refusal.Flaw.TheVariants.{Memory as Starved};
ghost use Rattle.lines.specs.declared.refusal.LineFault.TheVariants.{Memory};

use faults::{Fault, Layer};
use std::alloc::{AllocError, AllocFailed};
use words::WordFault;

// What is wrong with a line, of which the words are right.
#[derive(Clone, Copy, Debug, PartialEq, Eq)]
pub enum Flaw {
    // the words have no form, or brackets are too deep
    NoForm,
    // a name that is undeclared, declared already, or of the wrong kind
    Name { byte: u16 },
    WrongType,
    // the 65th variable or channel
    TooMany,
    // a channel or an address placed twice, no address, or a link used in the wrong direction
    Link,
    // no memory was to be had: no fault of the line
    Memory,
}

// A flaw's cases stand here again, with the line: a case that held a `Flaw` would tell want of memory in two ways.
#[derive(Clone, Copy, Debug, PartialEq, Eq)]
pub enum LineFault {
    // the words are wrong
    Words(WordFault),
    // the words of the line have no form, or brackets are too deep
    NoForm { line: u16 },
    // a name that is undeclared, declared already, or of the wrong kind
    Name { line: u16, byte: u16 },
    WrongType { line: u16 },
    // the 65th variable or channel
    TooMany { line: u16 },
    // a channel or an address placed twice, no address, or a link used in the wrong direction
    Link { line: u16 },
    // no memory was to be had: no fault of the text
    Memory,
}

// The number, layer and place by which a refusal is told: bare numbers by a rule of the project, 0 where there is no line
// or byte.
impl From<LineFault> for Fault {
    ghost from_gives = { λ e r. r ≡ fault_of e };

    fn from(e: LineFault) -> Fault {
        let (number, layer, line, byte) = match e {
            LineFault::Words(fault) => return fault.into(),
            LineFault::NoForm { line } => (6, Layer::Lines, line, 0),
            LineFault::Name { line, byte } => (7, Layer::Lines, line, byte),
            LineFault::WrongType { line } => (8, Layer::Lines, line, 0),
            LineFault::TooMany { line } => (9, Layer::Lines, line, 0),
            LineFault::Link { line } => (10, Layer::Lines, line, 0),
            LineFault::Memory => (0, Layer::Host, 0, 0),
        };
        Fault {
            number,
            layer,
            line,
            byte,
        }
    }
}

impl Flaw {
    // The fault of a line that has the flaw: no `From`, since it takes the line.
    pub fn in_line(self, line: u16) -> LineFault
        ensures { result ≡ in_line line self }
    {
        match self {
            Flaw::NoForm => LineFault::NoForm { line },
            Flaw::Name { byte } => LineFault::Name { line, byte },
            Flaw::WrongType => LineFault::WrongType { line },
            Flaw::TooMany => LineFault::TooMany { line },
            Flaw::Link => LineFault::Link { line },
            Flaw::Memory => LineFault::Memory,
        }
    }
}

// A fault of the words passes whole; want of memory is the same for both.
impl From<WordFault> for LineFault {
    ghost from_gives = { λ e r. r ≡ from_words e };

    fn from(e: WordFault) -> LineFault {
        match e {
            WordFault::Memory => LineFault::Memory,
            _ => LineFault::Words(e),
        }
    }
}

// Want of memory is one more case of both enums by a rule of the project. Both take either error of an allocation, so that
// a `?` may stand at any of them; one impl for all would need a macro, which the gate refuses.
impl From<AllocError> for LineFault {
    ghost from_gives = { λ _ r. r ≡ Memory };

    fn from(_e: AllocError) -> LineFault {
        LineFault::Memory
    }
}

impl<T: Drop> From<AllocFailed<T>> for LineFault {
    ghost from_gives = { λ _ r. r ≡ Memory };

    fn from(_e: AllocFailed<T>) -> LineFault {
        LineFault::Memory
    }
}

impl From<AllocError> for Flaw {
    ghost from_gives = { λ _ r. r ≡ Starved };

    fn from(_e: AllocError) -> Flaw {
        Flaw::Memory
    }
}

impl<T: Drop> From<AllocFailed<T>> for Flaw {
    ghost from_gives = { λ _ r. r ≡ Starved };

    fn from(_e: AllocFailed<T>) -> Flaw {
        Flaw::Memory
    }
}
