// The variables, the channels and the processes of a program: at most 64 of each, by number.
#![tactic(auto)]

ghost use Rattle.std.specs.Prelude.{◌≡◌, ◌++◌, ◌<◌, ◌≤◌, MatchOption, Some, decimal, encode_utf8};

use std::fmt;

// A number below 64, and the letter of what it numbers: v a variable, c a channel, p a process. No model, since clauses
// read the number itself.
#[derive(Clone, Copy, Debug, PartialEq, Eq)]
pub struct Number<const LETTER: u8> {
    number: u8,
    ghost below: { number < 64 },
}

pub type Variable = Number<b'v'>;

pub type Channel = Number<b'c'>;

// Process 0 is the program.
pub type Process = Number<b'p'>;

impl<const LETTER: u8> Number<LETTER> {
    // The one of a number, if it is below 64. `new` and `number` are as in std's `NonZeroU8`; a `TryFrom` would need an
    // error type that says no more than none.
    pub fn new(number: u8) -> Option<Number<LETTER>>
        ensures { MatchOption result (64 ≤ number) (λ x. x.number ≡ number) }
    {
        if number < 64 {
            Some(Number { number })
        } else {
            None
        }
    }

    // Its number.
    pub fn number(self) -> u8
        ensures { result ≡ self.entry.number }
    {
        self.number
    }
}

impl Process {
    // The process that is the program.
    pub fn program() -> Process
        ensures { result.number ≡ 0 }
    {
        Number { number: 0 }
    }
}

impl<const LETTER: u8> fmt::Display for Number<LETTER> {
    ghost output = { λ x. Some (encode_utf8 LETTER ++ decimal x.number) };

    fn fmt<W: fmt::Write>(&self, f: &mut fmt::Formatter<W>) -> fmt::Result {
        write!(f, "{}{}", LETTER as char, self.number)
    }
}
