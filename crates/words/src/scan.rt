// The word at the front of some bytes.
ghost use Rattle.std.specs.Prelude.{◌≡◌, ◌<◌, length, take};
ghost use Rattle.std.specs.List.{prefix_len};
ghost use Rattle.words.specs.Bytes.{belongs};
ghost use Rattle.words.specs.Scan.{listed, rows, keyword_of, sign_of, number_of, word_at};
ghost use Rattle.words.specs.Token.{token_or};

use crate::classes::Class;
use crate::refusal::WordFault;
use crate::vocabulary::{Keyword, Sign, Word};

// The keywords, each with its bytes.
static KEYWORDS: [(&[u8], Keyword); 23] = [
    (b"AFTER", Keyword::After),
    (b"ALT", Keyword::Alt),
    (b"AND", Keyword::And),
    (b"AT", Keyword::At),
    (b"CHAN", Keyword::Chan),
    (b"FALSE", Keyword::False),
    (b"IF", Keyword::If),
    (b"INT", Keyword::Int),
    (b"MINUS", Keyword::Minus),
    (b"NOT", Keyword::Not),
    (b"OF", Keyword::Of),
    (b"OR", Keyword::Or),
    (b"PAR", Keyword::Par),
    (b"PLACE", Keyword::Place),
    (b"PLUS", Keyword::Plus),
    (b"PRI", Keyword::Pri),
    (b"SEQ", Keyword::Seq),
    (b"SKIP", Keyword::Skip),
    (b"STOP", Keyword::Stop),
    (b"TIMER", Keyword::Timer),
    (b"TIMES", Keyword::Times),
    (b"TRUE", Keyword::True),
    (b"WHILE", Keyword::While),
];

// The longest name in occam that we take, in bytes.
const NAME_BYTES: usize = 16;

// What a table says of a name: any table, since the proof goes by its rows.
fn listed_in(table: &[(&[u8], Keyword)], name: &[u8]) -> Option<Keyword>
    ensures { result ≡ listed (rows table.now) name.now }
{
    table
        .iter()
        .find(|(text, _)| *text == name)
        .map(|(_, keyword)| *keyword)
}

fn keyword_of(name: &[u8]) -> Option<Keyword>
    ensures { result ≡ keyword_of name.now }
{
    listed_in(&KEYWORDS, name)
}

// The sign at the front of `s`, and how many bytes it has: the longer signs first.
fn sign_at(s: &[u8]) -> Option<(Sign, usize)>
    ensures { result ≡ sign_of s.now }
{
    match s {
        [b':', b'=', ..] => Some((Sign::Becomes, 2)),
        [b'<', b'>', ..] => Some((Sign::Differ, 2)),
        [b'<', b'=', ..] => Some((Sign::AtMost, 2)),
        [b'>', b'=', ..] => Some((Sign::AtLeast, 2)),
        [b'?', ..] => Some((Sign::Input, 1)),
        [b'!', ..] => Some((Sign::Output, 1)),
        [b'&', ..] => Some((Sign::Guard, 1)),
        [b':', ..] => Some((Sign::Colon, 1)),
        [b',', ..] => Some((Sign::Comma, 1)),
        [b'(', ..] => Some((Sign::Open, 1)),
        [b')', ..] => Some((Sign::Close, 1)),
        [b'+', ..] => Some((Sign::Add, 1)),
        [b'-', ..] => Some((Sign::Subtract, 1)),
        [b'*', ..] => Some((Sign::Multiply, 1)),
        [b'/', ..] => Some((Sign::Divide, 1)),
        [b'\\', ..] => Some((Sign::Remainder, 1)),
        [b'=', ..] => Some((Sign::Equal, 1)),
        [b'<', ..] => Some((Sign::Less, 1)),
        [b'>', ..] => Some((Sign::More, 1)),
        _ => None,
    }
}

// The value of a run of digits, where INT has it. For `parse` the bytes would have to be tested to be text first.
fn number_of(digits: &[u8]) -> Option<i32>
    ensures { result ≡ number_of digits.now }
{
    let mut n = 0u32;
    for d in digits {
        n = n
            .checked_mul(10)?
            .checked_add(u32::from(d.saturating_sub(b'0')))?;
    }
    i32::try_from(n).ok()
}

// The longest front of `s` that is of the class.
fn run(class: Class, s: &[u8]) -> &[u8]
    ensures { result.now ≡ take (prefix_len (belongs class) s.now) s.now }
{
    &s[..class.front(s)]
}

// The word at the front of `rest`, which begins at `byte` of `line`. A place stays two numbers, as a fault tells it:
// `fault_of` and the rules speak of the line and the byte each by itself.
pub fn word_at<'a>(rest: &'a [u8], line: u16, byte: u16) -> Result<Word<'a>, WordFault>
    requires { 0 < length rest.now }
    ensures { token_or result ≡ word_at line byte rest.now }
{
    if Class::Letter.has(rest[0]) {
        let text = run(Class::InName, rest);
        if text.len() > NAME_BYTES {
            return Err(WordFault::NameTooLong { line, byte });
        }
        Ok(match keyword_of(text) {
            Some(keyword) => Word::Keyword {
                keyword,
                text,
                byte,
            },
            None => Word::Name { text, byte },
        })
    } else if Class::Digit.has(rest[0]) {
        let text = run(Class::Digit, rest);
        let value = number_of(text).ok_or(WordFault::NumberTooBig { line, byte })?;
        Ok(Word::Number { value, text, byte })
    } else {
        let (sign, length) = sign_at(rest).ok_or(WordFault::UnknownSign { line, byte })?;
        Ok(Word::Sign {
            sign,
            text: &rest[..length],
            byte,
        })
    }
}
