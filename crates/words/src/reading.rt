// The words of a line.
ghost use Rattle.std.specs.Prelude.{◌≡◌, ◌≤◌, length, IfOk, vec_len};
ghost use Rattle.words.specs.Reading.{code_of, words_of, tokens_of, line_of, reading_of, UnlessMemory};
ghost use Rattle.words.specs.Spelling.{Right};

use crate::classes::Class;
use crate::refusal::WordFault;
use crate::scan::word_at;
use crate::vocabulary::Word;
use std::alloc::Global;

// The most bytes that a text may have.
pub const TEXT_BYTES: usize = 33024;

// The most bytes that a line may have, its end not counted.
const LINE_BYTES: usize = 128;

// The most leading spaces that a line with words may have.
const INDENTATION: usize = 32;

// A line of a text, and its number, counted from 1.
#[derive(Clone, Copy, Debug, PartialEq, Eq)]
pub struct Line<'a> {
    pub number: u16,
    pub bytes: &'a [u8],
}

// The words of a line, and the level that its leading spaces make.
#[derive(Drop)]
pub struct Row<'a> {
    pub level: u8,
    pub words: Vec<Word<'a>>,
}

// What stands before the comment, which the first `--` begins.
fn code_of(bytes: &[u8]) -> &[u8]
    ensures { result.now ≡ code_of bytes.now }
{
    let length = bytes
        .windows(2)
        .position(|pair| pair == b"--".as_slice())
        .unwrap_or(bytes.len());
    &bytes[..length]
}

// The words of a line's code.
fn words_of<'a>(heap: Global, code: &'a [u8], line: u16) -> Result<Vec<Word<'a>>, WordFault>
    requires { length code.now ≤ 128 }
    ensures reads { UnlessMemory (tokens_of result) (words_of line code.now) }
    ensures few { IfOk result (λ v. vec_len v ≤ length code.now) }
{
    let mut words = Vec::new(heap);
    let mut rest = code;
    while let [first, after @ ..] = rest {
        if *first == b' ' {
            rest = after;
        } else {
            let place = code.len() - rest.len() + 1;
            let word = word_at(rest, line, place as u16)?;
            rest = &rest[word.text().len()..];
            words.push(word)?;
        }
    }
    Ok(words)
}

// The words of a line, or what is wrong with it.
pub fn read_line<'a>(heap: Global, line: Line<'a>) -> Result<Row<'a>, WordFault>
    ensures reads { UnlessMemory (reading_of result) (line_of line.entry.number line.entry.bytes.now) }
    ensures right { Right line.entry.number line.entry.bytes.now (reading_of result) }
    ensures few { IfOk result (λ row. vec_len row.words ≤ 128) }
{
    let number = line.number;
    let bytes = line.bytes;
    if bytes.len() > TEXT_BYTES {
        return Err(WordFault::TextTooLong);
    }
    let printable = Class::Printable.front(bytes);
    if printable < bytes.len() {
        return Err(WordFault::ByteOutside {
            line: number,
            byte: (printable + 1) as u16,
        });
    }
    if bytes.len() > LINE_BYTES {
        return Err(WordFault::LineTooLong { line: number });
    }
    let code = code_of(bytes);
    let spaces = Class::Space.front(code);
    if spaces < code.len() && (spaces % 2 == 1 || spaces > INDENTATION) {
        return Err(WordFault::Indentation { line: number });
    }
    let words = words_of(heap, code, number)?;
    Ok(Row {
        level: (spaces / 2) as u8,
        words,
    })
}
