ghost use Rattle.std.specs.Prelude.{◌≡◌, ◌<◌, ◌≤◌, []};
ghost use Rattle.queues.specs.Lists.{Once, times};
ghost use Rattle.queues.specs.Meaning.{Empty, Puts, Takes};
ghost use Rattle.queues.specs.Round.{around};

use crate::queue::ReadyQueue;

// A queue that hands over the number it has held longest: 64 places in a circle. Its memory is
// fixed, for no put may be refused: an array with a length beside it, and not a VecDeque.
#[derive(Drop)]
pub struct Ring {
    places: [u8; 64],
    // The place of the oldest number.
    head: usize,
    // How many numbers stand in line, from the head on.
    len: usize,
    ghost turned: { head < 64 },
    ghost short: { len ≤ 64 },
    ghost once: { Once (around places head len) },
}

impl Ring {
    ghost use Rattle.queues.specs.Ring.{line};

    // An empty ring.
    pub fn new() -> Ring
        ensures empty { Empty (times (line result)) }
        ensures order { line result ≡ [] }
    {
        Ring {
            places: [0; 64],
            head: 0,
            len: 0,
        }
    }
}

impl ReadyQueue for Ring {
    ghost use Rattle.queues.specs.Ring.{Appends, GivesHead, line};

    ghost held = { λ ring. times (line ring) };

    fn put(&mut self, n: u8)
        ensures puts { Puts (times (line self.old)) n (times (line self.new)) }
        ensures order { Appends (line self.old) n (line self.new) }
    {
        if n < 64 && !self.holds(n) {
            let end = (self.head + self.len) % 64;
            self.places[end] = n;
            self.len += 1;
        }
    }

    fn take(&mut self) -> Option<u8>
        ensures takes { Takes (times (line self.old)) result (times (line self.new)) }
        ensures order { GivesHead (line self.old) result (line self.new) }
    {
        if self.len == 0 {
            return None;
        }
        let oldest = self.places[self.head];
        self.head = (self.head + 1) % 64;
        self.len -= 1;
        Some(oldest)
    }

    fn clear(&mut self)
        ensures empty { Empty (times (line self.new)) }
        ensures order { line self.new ≡ [] }
    {
        self.head = 0;
        self.len = 0;
    }

    fn holds(&self, n: u8) -> bool {
        (0..self.len).any(|i| self.places[(self.head + i) % 64] == n)
    }

    fn count(&self) -> u8 {
        self.len as u8
    }
}
