// The flowchart's parts.
ghost use Rattle.std.specs.Prelude.{◌≡◌, length};

use expressions::{Expr, Variable};
use rules::{Channel, Kind, Place, Process};

mod reads;

// A guard of an ALT and the place of its process; one that is written without a condition has TRUE.
#[derive(Drop)]
pub enum Guard {
    // condition & SKIP
    Skip {
        condition: Expr<Variable>,
        to: Place,
    },
    // condition & channel ? variable
    Input {
        condition: Expr<Variable>,
        channel: Channel,
        variable: Variable,
        to: Place,
    },
}

// A branch of a PAR: its process and the place where that starts.
#[derive(Clone, Copy, Debug, PartialEq, Eq)]
pub struct Branch {
    pub process: Process,
    pub entry: Place,
}

// What stands at a line, and the place or places that it leads to.
#[derive(Drop)]
pub enum Node {
    // variable := value
    Assignment {
        variable: Variable,
        value: Expr<Variable>,
        to: Place,
    },
    Skip {
        to: Place,
    },
    // STOP; the line of an IF, which is reached when no choice is TRUE; and every line that no process comes to
    Stop,
    // channel ? variable
    Input {
        channel: Channel,
        variable: Variable,
        to: Place,
    },
    // channel ! value
    Output {
        channel: Channel,
        value: Expr<Variable>,
        to: Place,
    },
    // a choice or WHILE
    Test {
        condition: Expr<Variable>,
        on_true: Place,
        on_false: Place,
    },
    Par {
        branches: Vec<Branch>,
        to: Place,
    },
    Alt {
        guards: Vec<Guard>,
    },
}

// Where a process of a PAR comes from: the process of the PAR, and the PAR's line.
#[derive(Clone, Copy, Debug, PartialEq, Eq)]
pub struct Origin {
    pub parent: Process,
    pub home: u16,
}

// A line of a program: what stands there, the process that it belongs to, and its number in the text.
#[derive(Drop)]
pub struct Line {
    pub node: Node,
    pub owner: Process,
    pub number: u16,
}

// A program. Its lines are those of the text that have words, numbered from 0.
#[derive(Drop)]
pub struct Program {
    pub lines: Vec<Line>,
    // what each channel is: one for each `Channel`, so that it is found without a test
    pub kinds: [Kind; 64],
    // where each process but process 0 comes from: one for each `Process`, found in the same way; no list, whose length
    // would be how many there are, since it would hold fewer programs than this
    pub origins: [Origin; 64],
    // where process 0 starts
    pub entry: Place,
    // how many processes there are
    pub processes: u8,
    // how many variables there are
    pub variables: u8,
    // the lengths of the arrays, so that definitions know them too
    ghost wide: { length kinds ≡ 64 },
    ghost long: { length origins ≡ 64 },
}
