// The form of a line, its names as numbers.
ghost use Rattle.std.specs.Prelude.{Some};
ghost use Rattle.lines.specs.Judgement.{formed};
ghost use Rattle.lines.specs.Written.{form_text};

use crate::syntax::Lone;
use expressions::{Expr, Variable};
use rules::Channel;
use std::fmt;

// C is what names a channel: a number below 64 in a line's form. Who asks nothing of the channel takes any, so that a
// form with another number has its answer too.
#[derive(Drop)]
pub enum Form<C = Channel> {
    // INT names: so many variables, numbered from the first; with no names the first may be 64, so it is no `Variable`
    Variables {
        first: u8,
        count: u8,
    },
    // CHAN OF INT names: so many channels, numbered in the same way
    Channels {
        first: u8,
        count: u8,
    },
    // PLACE channel AT address, 0 to 7:
    Place {
        channel: C,
        address: u8,
    },
    // SKIP, STOP, SEQ, PAR, IF, ALT or PRI ALT
    Lone(Lone),
    // variable := value
    Assign {
        variable: Variable,
        value: Expr<Variable>,
    },
    // channel ? variable
    Input {
        channel: C,
        variable: Variable,
    },
    // channel ! value
    Output {
        channel: C,
        value: Expr<Variable>,
    },
    // WHILE condition
    While {
        condition: Expr<Variable>,
    },
    // a condition alone
    Choice {
        condition: Expr<Variable>,
    },
    // condition & channel ? variable
    Guard {
        condition: Expr<Variable>,
        channel: C,
        variable: Variable,
    },
    // condition & SKIP
    SkipGuard {
        condition: Expr<Variable>,
    },
}

// The form as text, variable n as `vn` and channel n as `cn`.
impl fmt::Display for Form {
    ghost output = { λ form. Some (form_text (formed form)) };

    fn fmt<W: fmt::Write>(&self, f: &mut fmt::Formatter<W>) -> fmt::Result {
        match self {
            Form::Variables { first, count } => write!(f, "INT {count} from v{first}"),
            Form::Channels { first, count } => write!(f, "CHAN OF INT {count} from c{first}"),
            Form::Place { channel, address } => write!(f, "PLACE {channel} AT {address}"),
            Form::Lone(lone) => write!(f, "{lone}"),
            Form::Assign { variable, value } => write!(f, "{variable} := {value}"),
            Form::Input { channel, variable } => write!(f, "{channel} ? {variable}"),
            Form::Output { channel, value } => write!(f, "{channel} ! {value}"),
            Form::While { condition } => write!(f, "WHILE {condition}"),
            Form::Choice { condition } => write!(f, "{condition}"),
            Form::Guard {
                condition,
                channel,
                variable,
            } => write!(f, "{condition} & {channel} ? {variable}"),
            Form::SkipGuard { condition } => write!(f, "{condition} & SKIP"),
        }
    }
}
