// The flowchart of a program: what stands at each line, where it leads, and the tree of processes.
#![tactic(auto)]

mod program;

pub use program::{Branch, Guard, Line, Node, Origin, Program};
