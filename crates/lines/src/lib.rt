// The lines of an occam text: the form of each, the names that are declared, and types.
#![tactic(auto)]

mod declaration;
mod drafts;
mod forms;
mod judgement;
mod name_list;
mod names;
mod phrases;
mod reading;
mod refusal;
mod resolution;
mod search;
mod syntax;
mod text;
mod types;
mod vocabulary;

pub use forms::Form;
pub use names::Names;
pub use reading::{Statement, read_form};
pub use refusal::LineFault;
pub use search::{Named, find};
pub use syntax::Lone;
pub use text::{Entry, Outline, read_text};
