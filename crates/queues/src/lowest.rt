ghost use Rattle.queues.specs.Lowest.{GivesLowest, marked};
ghost use Rattle.queues.specs.Meaning.{Empty, Takes};

use crate::bits::is_set;
use crate::queue::ReadyQueue;

// A queue that hands over the lowest number it holds: by a rule of the project one word with a bit for each number, so
// that a take counts trailing zeros and a count ones.
#[derive(Drop)]
pub struct LowestFirst {
    word: u64,
}

impl LowestFirst {
    // An empty queue.
    pub fn new() -> LowestFirst
        ensures { Empty (marked result) }
    {
        LowestFirst { word: 0 }
    }
}

impl ReadyQueue for LowestFirst {
    ghost held = { marked };

    fn put(&mut self, n: u8) {
        if n < 64 {
            self.word |= 1 << n;
        }
    }

    fn take(&mut self) -> Option<u8>
        ensures takes { Takes (marked self.old) result (marked self.new) }
        ensures order { GivesLowest (marked self.old) result }
    {
        if self.word == 0 {
            return None;
        }
        let lowest = self.word.trailing_zeros() as u8;
        self.word ^= 1 << lowest;
        Some(lowest)
    }

    fn clear(&mut self) {
        self.word = 0;
    }

    fn holds(&self, n: u8) -> bool {
        // Read also where n is above 63, so that the proof knows there that the word fits.
        let word = self.word;
        n < 64 && is_set(word, n)
    }

    fn count(&self) -> u8 {
        self.word.count_ones() as u8
    }
}
