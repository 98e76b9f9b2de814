// What a single word can be to the grammar. Each role is an enum of its own, so that a match on it has no arm for other words.
ghost use Rattle.std.specs.Prelude.{◌≡◌, option_map};
ghost use Rattle.lines.specs.Roles.{leaf, leaf_of, naming_of, number_of, operator_of, opening_of, keyword_opening, sign_operator, is_fixed, prefix_of, separator_of, verb_of};
ghost use Rattle.lines.specs.Syntax.{naming};
ghost use Rattle.words.specs.Token.{token};

use crate::syntax::{Lone, Mention};
use expressions::Dyadic;
use integers::{Comparison, Operator};
use words::{Keyword, Sign, Word};

// What an operand can begin with.
#[derive(Clone, Copy, Debug, PartialEq, Eq)]
pub enum Leaf<'a> {
    Name(Mention<'a>),
    Number(i32),
    Truth(bool),
    Open,
}

// What can stand before an operand.
#[derive(Clone, Copy, Debug, PartialEq, Eq)]
pub enum Prefix {
    Minus,
    Not,
}

// What a line can begin with. A role of its own, so that a match on it has no arm for other words.
#[derive(Clone, Copy, Debug, PartialEq, Eq)]
pub enum Opening {
    Int,
    Chan,
    Place,
    While,
    Pri,
    Lone(Lone),
}

// What can follow the name that a process begins with. A role of its own, so that a match on it has no arm for other words.
#[derive(Clone, Copy, Debug, PartialEq, Eq)]
pub enum Verb {
    Becomes,
    Input,
    Output,
}

// What can follow a name in a list.
#[derive(Clone, Copy, Debug, PartialEq, Eq)]
pub enum Separator {
    Comma,
    Colon,
}

// A word that a form has at a fixed place.
#[derive(Clone, Copy, Debug, PartialEq, Eq)]
pub enum Fixed {
    Keyword(Keyword),
    Sign(Sign),
}

impl Fixed {
    // Whether the word is that one.
    pub fn is(self, word: Word<'_>) -> bool
        ensures { result ≡ is_fixed self (token word.entry) }
    {
        match (self, word) {
            (Fixed::Keyword(fixed), Word::Keyword { keyword, .. }) => keyword == fixed,
            (Fixed::Sign(fixed), Word::Sign { sign, .. }) => sign == fixed,
            _ => false,
        }
    }
}

pub fn leaf_of<'a>(word: Word<'a>) -> Option<Leaf<'a>>
    ensures { option_map leaf result ≡ leaf_of (token word.entry) }
{
    match word {
        Word::Name { text, byte } => Some(Leaf::Name(Mention { text, byte })),
        Word::Number { value, .. } => Some(Leaf::Number(value)),
        Word::Keyword {
            keyword: Keyword::True,
            ..
        } => Some(Leaf::Truth(true)),
        Word::Keyword {
            keyword: Keyword::False,
            ..
        } => Some(Leaf::Truth(false)),
        Word::Sign {
            sign: Sign::Open,
            ..
        } => Some(Leaf::Open),
        _ => None,
    }
}

// A role of its own, so that a match on it has no arm for other words.
pub fn prefix_of(word: Word<'_>) -> Option<Prefix>
    ensures { result ≡ prefix_of (token word.entry) }
{
    match word {
        Word::Sign {
            sign: Sign::Subtract,
            ..
        } => Some(Prefix::Minus),
        Word::Keyword {
            keyword: Keyword::Not,
            ..
        } => Some(Prefix::Not),
        _ => None,
    }
}

fn sign_operator(sign: Sign) -> Option<Dyadic>
    ensures { result ≡ sign_operator sign }
{
    match sign {
        Sign::Add => Some(Dyadic::Arithmetic(Operator::Add)),
        Sign::Subtract => Some(Dyadic::Arithmetic(Operator::Subtract)),
        Sign::Multiply => Some(Dyadic::Arithmetic(Operator::Multiply)),
        Sign::Divide => Some(Dyadic::Arithmetic(Operator::Divide)),
        Sign::Remainder => Some(Dyadic::Arithmetic(Operator::Remainder)),
        Sign::Equal => Some(Dyadic::Compare(Comparison::Equal)),
        Sign::Differ => Some(Dyadic::Compare(Comparison::Differ)),
        Sign::Less => Some(Dyadic::Compare(Comparison::Less)),
        Sign::More => Some(Dyadic::Compare(Comparison::More)),
        Sign::AtMost => Some(Dyadic::Compare(Comparison::AtMost)),
        Sign::AtLeast => Some(Dyadic::Compare(Comparison::AtLeast)),
        _ => None,
    }
}

// What can stand between two operands.
pub fn operator_of(word: Word<'_>) -> Option<Dyadic>
    ensures { result ≡ operator_of (token word.entry) }
{
    match word {
        Word::Sign { sign, .. } => sign_operator(sign),
        Word::Keyword {
            keyword: Keyword::Plus,
            ..
        } => Some(Dyadic::Arithmetic(Operator::Plus)),
        Word::Keyword {
            keyword: Keyword::Minus,
            ..
        } => Some(Dyadic::Arithmetic(Operator::Minus)),
        Word::Keyword {
            keyword: Keyword::Times,
            ..
        } => Some(Dyadic::Arithmetic(Operator::Times)),
        Word::Keyword {
            keyword: Keyword::And,
            ..
        } => Some(Dyadic::And),
        Word::Keyword {
            keyword: Keyword::Or,
            ..
        } => Some(Dyadic::Or),
        _ => None,
    }
}

fn keyword_opening(keyword: Keyword) -> Option<Opening>
    ensures { result ≡ keyword_opening keyword }
{
    match keyword {
        Keyword::Int => Some(Opening::Int),
        Keyword::Chan => Some(Opening::Chan),
        Keyword::Place => Some(Opening::Place),
        Keyword::While => Some(Opening::While),
        Keyword::Pri => Some(Opening::Pri),
        Keyword::Skip => Some(Opening::Lone(Lone::Skip)),
        Keyword::Stop => Some(Opening::Lone(Lone::Stop)),
        Keyword::Seq => Some(Opening::Lone(Lone::Seq)),
        Keyword::Par => Some(Opening::Lone(Lone::Par)),
        Keyword::If => Some(Opening::Lone(Lone::If)),
        Keyword::Alt => Some(Opening::Lone(Lone::Alt)),
        _ => None,
    }
}

pub fn opening_of(word: Word<'_>) -> Option<Opening>
    ensures { result ≡ opening_of (token word.entry) }
{
    match word {
        Word::Keyword { keyword, .. } => keyword_opening(keyword),
        _ => None,
    }
}

pub fn mention_of<'a>(word: Word<'a>) -> Option<Mention<'a>>
    ensures { option_map naming result ≡ naming_of (token word.entry) }
{
    match word {
        Word::Name { text, byte } => Some(Mention { text, byte }),
        _ => None,
    }
}

pub fn number_of(word: Word<'_>) -> Option<i32>
    ensures { result ≡ number_of (token word.entry) }
{
    match word {
        Word::Number { value, .. } => Some(value),
        _ => None,
    }
}

pub fn verb_of(word: Word<'_>) -> Option<Verb>
    ensures { result ≡ verb_of (token word.entry) }
{
    match word {
        Word::Sign {
            sign: Sign::Becomes,
            ..
        } => Some(Verb::Becomes),
        Word::Sign {
            sign: Sign::Input,
            ..
        } => Some(Verb::Input),
        Word::Sign {
            sign: Sign::Output,
            ..
        } => Some(Verb::Output),
        _ => None,
    }
}

// A role of its own, so that a match on it has no arm for other words.
pub fn separator_of(word: Word<'_>) -> Option<Separator>
    ensures { result ≡ separator_of (token word.entry) }
{
    match word {
        Word::Sign {
            sign: Sign::Comma,
            ..
        } => Some(Separator::Comma),
        Word::Sign {
            sign: Sign::Colon,
            ..
        } => Some(Separator::Colon),
        _ => None,
    }
}
