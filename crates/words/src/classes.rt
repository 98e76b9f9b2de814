// The classes of a byte.
ghost use Rattle.std.specs.Prelude.{◌≡◌};
ghost use Rattle.std.specs.List.{prefix_len};
ghost use Rattle.words.specs.Bytes.{belongs};

// A value and no closure, so that `front` is one function and its contract names the class.
#[derive(Clone, Copy, Debug, PartialEq, Eq)]
pub enum Class {
    // what a line may hold
    Printable,
    Space,
    Letter,
    Digit,
    // what a name goes on with
    InName,
}

impl Class {
    // Whether the byte is of the class.
    pub fn has(self, b: u8) -> bool
        ensures { result ≡ belongs self b }
    {
        match self {
            Class::Printable => matches!(b, b' '..=b'~'),
            Class::Space => b == b' ',
            Class::Letter => b.is_ascii_alphabetic(),
            Class::Digit => b.is_ascii_digit(),
            Class::InName => b.is_ascii_alphanumeric() || b == b'.',
        }
    }

    // How many bytes at the front of `s` are of the class.
    pub fn front(self, s: &[u8]) -> usize
        ensures { result ≡ prefix_len (belongs self) s.now }
    {
        s.iter().take_while(|b| self.has(**b)).count()
    }
}
