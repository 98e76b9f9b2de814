// The words of an occam text: its limits, its lines, and the words of a line.
#![tactic(auto)]

mod classes;
mod division;
mod reading;
mod refusal;
mod scan;
mod vocabulary;

pub use division::split;
pub use reading::{Line, Row, TEXT_BYTES, read_line};
pub use refusal::WordFault;
pub use vocabulary::{Keyword, Sign, Word};
