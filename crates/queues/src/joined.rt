ghost use Rattle.std.specs.Prelude.{◌≡◌};
ghost use Rattle.queues.specs.Meaning.{Empty, Puts, Takes};
ghost use Rattle.queues.specs.Pair.{FirstBeforeSecond, Routes, joint};

use crate::bits::is_set;
use crate::queue::ReadyQueue;

// Two queues joined: numbers whose bit in the mask is set go to the first, which is emptied before the second.
#[derive(Drop)]
pub struct Pair<F, S> {
    first: F,
    second: S,
    mask: u64,
}

impl<F, S> Pair<F, S> {
    // Joins two queues as they are.
    pub fn new(first: F, second: S, mask: u64) -> Pair<F, S>
        ensures first { result.first ≡ first }
        ensures second { result.second ≡ second }
        ensures mask { result.mask ≡ mask }
    {
        Pair {
            first,
            second,
            mask,
        }
    }
}

impl<F: ReadyQueue, S: ReadyQueue> ReadyQueue for Pair<F, S> {
    ghost held = { joint F.held S.held };

    fn put(&mut self, n: u8)
        ensures puts { Puts (joint F.held S.held self.old) n (joint F.held S.held self.new) }
        ensures route { Routes F.held S.held self.old n self.new }
    {
        if n < 64 && !self.holds(n) {
            if is_set(self.mask, n) {
                self.first.put(n);
            } else {
                self.second.put(n);
            }
        }
    }

    fn take(&mut self) -> Option<u8>
        ensures takes { Takes (joint F.held S.held self.old) result (joint F.held S.held self.new) }
        ensures order { FirstBeforeSecond F.held S.held self.old result self.new }
    {
        // Not by or_else: after it a proof knows nothing of the second, which its closure changes.
        if let Some(n) = self.first.take() {
            return Some(n);
        }
        self.second.take()
    }

    fn clear(&mut self)
        ensures empty { Empty (joint F.held S.held self.new) }
        ensures mask { self.new.mask ≡ self.old.mask }
    {
        self.first.clear();
        self.second.clear();
    }

    fn holds(&self, n: u8) -> bool {
        self.first.holds(n) || self.second.holds(n)
    }

    fn count(&self) -> u8 {
        (0..64).filter(|n| self.holds(*n)).count() as u8
    }
}
