// Why the words of a text are refused.
ghost use Rattle.std.specs.Prelude.{◌≡◌};
ghost use Rattle.words.specs.Fault.{fault_of};
ghost use Rattle.words.specs.declared.refusal.WordFault.TheVariants.{Memory};

use faults::{Fault, Layer};
use std::alloc::{AllocError, AllocFailed};

// The line and the byte stand each by itself, as a fault tells them.
#[derive(Clone, Copy, Debug, PartialEq, Eq)]
pub enum WordFault {
    // the text has more bytes than a text may have
    TextTooLong,
    // the text has more lines than a text may have
    TooManyLines,
    // a byte outside 32 to 126
    ByteOutside { line: u16, byte: u16 },
    // the line has more bytes than a line may have
    LineTooLong { line: u16 },
    // leading spaces that make no level, or one too deep
    Indentation { line: u16 },
    NameTooLong { line: u16, byte: u16 },
    NumberTooBig { line: u16, byte: u16 },
    UnknownSign { line: u16, byte: u16 },
    // no memory was to be had: no fault of the text
    Memory,
}

// The number, layer and place by which a refusal is told: bare numbers by a rule of the project, 0 where there is no line
// or byte.
impl From<WordFault> for Fault {
    ghost from_gives = { λ e r. r ≡ fault_of e };

    fn from(e: WordFault) -> Fault {
        let (number, layer, line, byte) = match e {
            WordFault::TextTooLong | WordFault::TooManyLines => (1, Layer::Words, 0, 0),
            WordFault::ByteOutside { line, byte } => (2, Layer::Words, line, byte),
            WordFault::LineTooLong { line } => (3, Layer::Words, line, 0),
            WordFault::Indentation { line } => (4, Layer::Words, line, 0),
            WordFault::NameTooLong { line, byte } => (5, Layer::Words, line, byte),
            WordFault::NumberTooBig { line, byte } => (5, Layer::Words, line, byte),
            WordFault::UnknownSign { line, byte } => (5, Layer::Words, line, byte),
            WordFault::Memory => (0, Layer::Host, 0, 0),
        };
        Fault {
            number,
            layer,
            line,
            byte,
        }
    }
}

// Want of memory is one more case of this enum by a rule of the project, and `?` asks for both of its conversions; one
// impl for all would need a macro, which the gate refuses.
impl From<AllocError> for WordFault {
    ghost from_gives = { λ _ r. r ≡ Memory };

    fn from(_e: AllocError) -> WordFault {
        WordFault::Memory
    }
}

impl<T: Drop> From<AllocFailed<T>> for WordFault {
    ghost from_gives = { λ _ r. r ≡ Memory };

    fn from(_e: AllocFailed<T>) -> WordFault {
        WordFault::Memory
    }
}
