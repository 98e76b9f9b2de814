// A line as it is written: its names are not looked up yet.
ghost use Rattle.std.specs.Prelude.{Some};
ghost use Rattle.lines.specs.Written.{lone_text};

use expressions::Expr;
use std::fmt;

// A name where it stands, and the place of its first byte in the line, counted from 1.
#[derive(Clone, Copy, Debug, PartialEq, Eq)]
pub struct Mention<'a> {
    pub text: &'a [u8],
    pub byte: u16,
}

// The lines that are keywords alone: SKIP, STOP, SEQ, PAR, IF, ALT and PRI ALT.
#[derive(Clone, Copy, Debug, PartialEq, Eq)]
pub enum Lone {
    Skip,
    Stop,
    Seq,
    Par,
    If,
    Alt,
    PriAlt,
}

impl fmt::Display for Lone {
    ghost output = { λ lone. Some (lone_text lone) };

    fn fmt<W: fmt::Write>(&self, f: &mut fmt::Formatter<W>) -> fmt::Result {
        match self {
            Lone::Skip => write!(f, "SKIP"),
            Lone::Stop => write!(f, "STOP"),
            Lone::Seq => write!(f, "SEQ"),
            Lone::Par => write!(f, "PAR"),
            Lone::If => write!(f, "IF"),
            Lone::Alt => write!(f, "ALT"),
            Lone::PriAlt => write!(f, "PRI ALT"),
        }
    }
}

// A line as it is written. Its cases are those of `Form`; a type over both would need a parameter for each of the lists,
// variables, channels, addresses and expressions in which the two differ.
#[derive(Drop)]
pub enum Draft<'a> {
    // INT names:
    Variables(Vec<Mention<'a>>),
    // CHAN OF INT names:
    Channels(Vec<Mention<'a>>),
    // PLACE channel AT number:
    Place(Mention<'a>, i32),
    Lone(Lone),
    // variable := expression
    Assign(Mention<'a>, Expr<Mention<'a>>),
    // channel ? variable
    Input(Mention<'a>, Mention<'a>),
    // channel ! expression
    Output(Mention<'a>, Expr<Mention<'a>>),
    // WHILE condition
    While(Expr<Mention<'a>>),
    // a condition alone
    Choice(Expr<Mention<'a>>),
    // condition & channel ? variable
    Guard(Expr<Mention<'a>>, Mention<'a>, Mention<'a>),
    // condition & SKIP
    SkipGuard(Expr<Mention<'a>>),
}
