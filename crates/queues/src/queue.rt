ghost use Rattle.std.specs.Prelude.{◌≡◌, ℕ, nat_lt};
ghost use Rattle.queues.specs.Meaning.{Empty, Puts, Takes, different};

// A queue of the numbers 0 to 63. It means how often it holds each of them, by `held` and not by an `impl Model`: a pair
// promises that a member is untouched as a whole, and a model would let it say so of the view alone. A number is any
// `u8`, for a put takes every number there can be; a type for those below 64 would ask more of callers.
pub trait ReadyQueue {
    ghost held: { Self → ℕ → ℕ };

    // Makes an unheld number up to 63 held once, and changes nothing at any other.
    fn put(&mut self, n: u8)
        ensures { Puts (held self.old) n (held self.new) };

    // Hands over a held number, which is then held once less, and nothing exactly when nothing is held.
    fn take(&mut self) -> Option<u8>
        ensures { Takes (held self.old) result (held self.new) };

    // Empties the queue.
    fn clear(&mut self)
        ensures { Empty (held self.new) };

    // Whether a number is held.
    fn holds(&self, n: u8) -> bool
        ensures { result ≡ nat_lt 0 (held self.now n) };

    // How many different numbers are held.
    fn count(&self) -> u8
        ensures { result ≡ different (held self.now) 64 };
}
