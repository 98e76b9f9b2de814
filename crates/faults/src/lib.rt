// What a refusal tells: a number, the layer that refused, and a place in the text.
#![tactic(auto)]

ghost use Rattle.std.specs.Prelude.{Some};
ghost use Rattle.faults.specs.Refusal.{layer_name, refusal_line};

use std::fmt;

// The part of the engine that refuses. The host is whoever calls it.
#[derive(Clone, Copy, Debug, PartialEq, Eq)]
pub enum Layer {
    Words,
    Lines,
    Program,
    Host,
}

// A refusal. Lines and bytes are counted from 1; byte 0 means the whole line, line 0 the whole text. By a rule of the
// project a refusal is told by these numbers, so they stand here as they are told.
#[derive(Clone, Copy, Debug, PartialEq, Eq)]
pub struct Fault {
    pub number: u8,
    pub layer: Layer,
    pub line: u16,
    pub byte: u16,
}

impl fmt::Display for Layer {
    ghost output = { λ l. Some (layer_name l) };

    fn fmt<W: fmt::Write>(&self, f: &mut fmt::Formatter<W>) -> fmt::Result {
        match self {
            Layer::Words => write!(f, "words"),
            Layer::Lines => write!(f, "lines"),
            Layer::Program => write!(f, "program"),
            Layer::Host => write!(f, "host"),
        }
    }
}

// `refused NUMBER LAYER LINE BYTE`, without an end of line.
impl fmt::Display for Fault {
    ghost output = { λ x. Some (refusal_line x) };

    fn fmt<W: fmt::Write>(&self, f: &mut fmt::Formatter<W>) -> fmt::Result {
        let Fault {
            number,
            layer,
            line,
            byte,
        } = self;
        write!(f, "refused {number} {layer} {line} {byte}")
    }
}
