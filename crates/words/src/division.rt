// The lines of a text.
ghost use Rattle.std.specs.Prelude.{◌≤◌, IfOk, vec_len};
ghost use Rattle.words.specs.Division.{lines_of, division_of};
ghost use Rattle.words.specs.Limits.{RightLines};
ghost use Rattle.words.specs.Reading.{UnlessMemory};

use crate::reading::{Line, TEXT_BYTES};
use crate::refusal::WordFault;
use std::alloc::Global;

// The most lines that a text may have.
const TEXT_LINES: usize = 256;

// The lines of a text, numbered from 1, or a refusal where it is over a limit.
pub fn split<'a>(heap: Global, text: &'a [u8]) -> Result<Vec<Line<'a>>, WordFault>
    ensures splits { UnlessMemory (division_of result) (lines_of text.now) }
    ensures right { RightLines text.now (division_of result) }
    ensures few { IfOk result (λ v. vec_len v ≤ 256) }
{
    if text.len() > TEXT_BYTES {
        return Err(WordFault::TextTooLong);
    }
    let mut lines = Vec::new(heap);
    for piece in text.split_inclusive(|b| *b == b'\n') {
        let count = lines.len();
        if count == TEXT_LINES {
            return Err(WordFault::TooManyLines);
        }
        lines.push(Line {
            number: (count + 1) as u16,
            bytes: piece.strip_suffix(b"\n").unwrap_or(piece),
        })?;
    }
    Ok(lines)
}
