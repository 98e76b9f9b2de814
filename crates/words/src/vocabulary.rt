// The vocabulary of the language: what a word can be.
ghost use Rattle.std.specs.Prelude.{◌≡◌};
ghost use Rattle.words.specs.Token.{token, text_of, place_of};

#[derive(Clone, Copy, Debug, PartialEq, Eq)]
pub enum Keyword {
    After,
    Alt,
    And,
    At,
    Chan,
    False,
    If,
    Int,
    Minus,
    Not,
    Of,
    Or,
    Par,
    Place,
    Plus,
    Pri,
    Seq,
    Skip,
    Stop,
    Timer,
    Times,
    True,
    While,
}

#[derive(Clone, Copy, Debug, PartialEq, Eq)]
pub enum Sign {
    Becomes,
    Differ,
    AtMost,
    AtLeast,
    Input,
    Output,
    Guard,
    Colon,
    Comma,
    Open,
    Close,
    Add,
    Subtract,
    Multiply,
    Divide,
    Remainder,
    Equal,
    Less,
    More,
}

// A word of a line: the part of the line that it was read from, and the place of its first byte, counted from 1.
// By a rule of the project each kind of word is a case with its own part and place, which `text` and `byte` read of any.
#[derive(Clone, Copy, Debug, PartialEq, Eq)]
pub enum Word<'a> {
    Name {
        text: &'a [u8],
        byte: u16,
    },
    Keyword {
        keyword: Keyword,
        text: &'a [u8],
        byte: u16,
    },
    Number {
        value: i32,
        text: &'a [u8],
        byte: u16,
    },
    Sign {
        sign: Sign,
        text: &'a [u8],
        byte: u16,
    },
}

impl<'a> Word<'a> {
    // The bytes of the word, as they stand in the line.
    pub fn text(&self) -> &'a [u8]
        ensures { result.now ≡ text_of (token self.now) }
    {
        match self {
            Word::Name { text, .. }
            | Word::Keyword { text, .. }
            | Word::Number { text, .. }
            | Word::Sign { text, .. } => text,
        }
    }

    // The place of the word's first byte in its line, counted from 1.
    pub fn byte(&self) -> u16
        ensures { result ≡ place_of (token self.now) }
    {
        match self {
            Word::Name { byte, .. }
            | Word::Keyword { byte, .. }
            | Word::Number { byte, .. }
            | Word::Sign { byte, .. } => *byte,
        }
    }
}
