// The structure of a text: which lines may stand below which.
#![tactic(auto)]

mod sorts;

pub use sorts::{Manner, Sort, sort_of};
