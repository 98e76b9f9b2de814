// Ready queues: which of the numbers 0 to 63 are to be served, and which comes next.
#![tactic(auto)]

mod bits;
mod draining;
mod joined;
mod lowest;
mod oldest;
mod queue;

pub use draining::drain;
pub use joined::Pair;
pub use lowest::LowestFirst;
pub use oldest::Ring;
pub use queue::ReadyQueue;
