// The types that the rules and the engine share, what each answer and refusal holds, and the theorems.
#![tactic(auto)]

ghost use Rattle.std.specs.Prelude.{◌≡◌};
ghost use Rattle.rules.specs.Answers.{fault_of, message_of, number_of, process_of};
ghost use Rattle.rules.specs.Examples.{ExamplesStand};
ghost use Rattle.rules.specs.History.{engine};
ghost use Rattle.rules.specs.Promise.{KeepsPromise, Pinned};
ghost use Rattle.rules.specs.Wrong.{WrongShutOut};

use faults::{Fault, Layer};
pub use numbers::{Channel, Process};

// A place of the flowchart: a line of the text, or the end of the process that goes there. The end is a place to stand
// at, so this is plainer than an `Option` of a line, whose `None` would read as nowhere.
#[derive(Clone, Copy, Debug, PartialEq, Eq)]
pub enum Place {
    Line(u16),
    End,
}

// Where a process stands: nowhere, holding at the line of its PAR while the branches run, or at a place.
#[derive(Clone, Copy, Debug, PartialEq, Eq)]
pub enum Standing {
    Absent,
    Holding(u16),
    At(Place),
}

// What a channel is: internal, or a link placed at an address, to the outside or from it.
#[derive(Clone, Copy, Debug, PartialEq, Eq)]
pub enum Kind {
    Internal,
    Outgoing(u8),
    Incoming(u8),
}

// What step, offer and take answer when they are not refused. A process or channel is its bare number, since the
// definitions of the turns answer for every number; a `Process` here would need its bound proved at each of them.
#[derive(Clone, Copy, Debug, PartialEq, Eq)]
pub enum Answer {
    Halted {
        process: u8,
    },
    Moved {
        process: u8,
    },
    Slept {
        process: u8,
    },
    Passed {
        process: u8,
        channel: u8,
        value: i32,
    },
    Ended {
        process: u8,
    },
    Finished,
    Waits,
    Stuck,
    Taken {
        process: u8,
        channel: u8,
        value: i32,
    },
    Held {
        channel: u8,
        value: i32,
    },
}

// Why step, offer or take is refused, each reason with the number by which it is told.
#[derive(Clone, Copy, Debug, PartialEq, Eq)]
pub enum Refusal {
    NoProgram = 15,
    NoLink = 16,
    LinkHolds = 17,
    NoOutput = 18,
    NoRule = 20,
}

impl Answer {
    // The process that the answer names, if it names one.
    pub fn process(self) -> Option<u8>
        ensures { result ≡ process_of self }
    {
        match self {
            Answer::Halted { process }
            | Answer::Moved { process }
            | Answer::Slept { process }
            | Answer::Passed { process, .. }
            | Answer::Ended { process }
            | Answer::Taken { process, .. } => Some(process),
            Answer::Finished | Answer::Waits | Answer::Stuck | Answer::Held { .. } => None,
        }
    }

    // The channel and the value that the answer names, if it names them.
    pub fn message(self) -> Option<(u8, i32)>
        ensures { result ≡ message_of self }
    {
        match self {
            Answer::Passed { channel, value, .. }
            | Answer::Taken { channel, value, .. }
            | Answer::Held { channel, value } => Some((channel, value)),
            _ => None,
        }
    }
}

impl Refusal {
    // The refusal's number, by its own name: a `From` for `u8` would not say which number.
    pub fn number(self) -> u8
        ensures { result ≡ number_of self }
    {
        self as u8
    }
}

// The fault that a refusal is: the host's, with neither line nor byte.
impl From<Refusal> for Fault {
    ghost from_gives = { λ refusal fault. fault ≡ fault_of refusal };

    fn from(refusal: Refusal) -> Fault {
        Fault {
            number: refusal.number(),
            layer: Layer::Host,
            line: 0,
            byte: 0,
        }
    }
}

// Every history of the engine is kept the promise.
pub fn promise_stands()
    ensures { KeepsPromise engine }
{}

// A call has one answer and leaves one state, but for the number that a queue hands over.
pub fn answers_are_pinned()
    ensures { Pinned }
{}

// Three programs are well formed, and their histories are the engine's own.
pub fn examples_stand()
    ensures { ExamplesStand }
{}

// Five engines that do one thing wrong do not keep the promise.
pub fn wrong_engines_are_shut_out()
    ensures { WrongShutOut }
{}
