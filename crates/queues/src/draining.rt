ghost use Rattle.std.specs.Prelude.{◌≤◌, vec_len, vec_capacity, MatchResult};
ghost use Rattle.queues.specs.Meaning.{Empty};
ghost use Rattle.queues.specs.Takings.{Moves, NoneLost};

use crate::queue::ReadyQueue;
use std::alloc::AllocError;

// Appends all that a queue holds to a list, in the order handed over. A number is taken only
// when its place is there, so want of memory, once the list's own room is full, loses none.
pub fn drain<Q: ReadyQueue>(queue: &mut Q, list: &mut Vec<u8>) -> Result<(), AllocError>
    ensures moves { Moves (Q.held queue.old) list.old.items (Q.held queue.new) list.new.items }
    ensures lost { NoneLost (Q.held queue.old) list.old.items (Q.held queue.new) list.new.items }
    ensures done { MatchResult result (λ _. Empty (Q.held queue.new)) (λ _. vec_capacity list.old ≤ vec_len list.new) }
{
    loop {
        list.reserve(1)?;
        let Some(n) = queue.take() else {
            return Ok(());
        };
        list.push_reserved(n);
    }
}
