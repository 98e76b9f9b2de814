// What occlist prints, as bytes.
#![tactic(auto)]

ghost use Rattle.std.specs.Prelude.{◌≡◌, ◌≤◌, ◌++◌, map, length, IfOk, OnOk};
ghost use Rattle.listing.specs.Listing.{kind_name, row_of, rows_of, lines_rows, Shows, listing_of, bytes_of};
ghost use Rattle.listing.specs.Printed.{Tells, fault_line, printed};
ghost use Rattle.words.specs.Division.{numbered_line};
ghost use Rattle.words.specs.Reading.{UnlessMemory};
ghost use Rattle.words.specs.Token.{token};

mod forms;

use faults::Fault;
use forms::push_forms;
use lines::{LineFault, read_text};
use std::alloc::{AllocError, Global};
use words::{Line, Row, Word, WordFault, read_line, split};

// The name of the kind that a word is of. A `Display` of `Word` would be the word itself.
fn kind_of(word: Word<'_>) -> &'static str
    ensures { result.now ≡ kind_name (token word.entry) }
{
    match word {
        Word::Name { .. } => "name",
        Word::Keyword { .. } => "keyword",
        Word::Number { .. } => "number",
        Word::Sign { .. } => "sign",
    }
}

// Appends the row of one word: its line, level, place and kind, and the word itself. The allocator is passed beside the
// bytes, as the language has it for all code that allocates.
fn push_row(
    heap: Global,
    out: &mut Vec<u8>,
    line: u16,
    level: u8,
    word: Word<'_>,
) -> Result<(), AllocError>
    ensures { OnOk result (out.new.items ≡ out.old.items ++ row_of line level (token word.entry)) }
{
    let byte = word.byte();
    let kind = kind_of(word);
    let front = format!(in heap; "{line} {level} {byte} {kind} ")?;
    out.extend_from_slice(front.as_bytes())?;
    out.extend_from_slice(word.text())?;
    out.push(b'\n')?;
    Ok(())
}

// Appends the rows of one line's words.
fn push_rows(heap: Global, out: &mut Vec<u8>, line: u16, row: &Row<'_>) -> Result<(), AllocError>
    ensures { OnOk result (out.new.items ≡ out.old.items ++ rows_of line row.now.level (map token row.now.words.items)) }
{
    for word in row.words.as_slice() {
        push_row(heap, out, line, row.level, *word)?;
    }
    Ok(())
}

// Appends the rows of some lines, and counts their words.
fn push_lines(heap: Global, out: &mut Vec<u8>, lines: &[Line<'_>]) -> Result<usize, WordFault>
    requires { length lines.now ≤ 256 }
    ensures { Shows out.old.items out.new.items (lines_rows (map numbered_line lines.now)) result }
{
    let mut count = 0;
    for line in lines {
        let row = read_line(heap, *line)?;
        push_rows(heap, out, line.number, &row)?;
        count += row.words.len();
    }
    Ok(count)
}

// The listing of a text's words, or the first fault of the text.
pub fn listing(heap: Global, text: &[u8]) -> Result<Vec<u8>, WordFault>
    ensures { UnlessMemory (bytes_of result) (listing_of text.now) }
{
    let lines = split(heap, text)?;
    let mut out = Vec::new(heap);
    out.extend_from_slice(b"line level byte kind word\n")?;
    let words = push_lines(heap, &mut out, lines.as_slice())?;
    let count = lines.len();
    let end = format!(in heap; "{count} lines, {words} words\n")?;
    out.extend_from_slice(end.as_bytes())?;
    Ok(out)
}

// The line of a refusal.
fn refusal_line(heap: Global, fault: Fault) -> Result<Vec<u8>, AllocError>
    ensures { IfOk result (λ v. v.items ≡ fault_line fault) }
{
    let line = format!(in heap; "{fault}\n")?;
    Ok(line.into_bytes())
}

// The listing of a text's words, and after it that of its forms; or the first fault of the text.
fn listings(heap: Global, text: &[u8]) -> Result<Vec<u8>, LineFault>
    ensures { Tells text.now result }
{
    let outline = read_text(heap, text)?;
    let mut out = listing(heap, text)?;
    out.extend_from_slice(b"line level form\n")?;
    push_forms(heap, &mut out, outline.entries.as_slice())?;
    Ok(out)
}

// What occlist prints of any text: its listings, or the line of its first fault.
pub fn printout(heap: Global, text: &[u8]) -> Result<Vec<u8>, AllocError>
    ensures { IfOk result (λ v. v.items ≡ printed text.now) }
{
    match listings(heap, text) {
        Ok(out) => Ok(out),
        Err(LineFault::Memory) => Err(AllocError),
        Err(refusal) => refusal_line(heap, refusal.into()),
    }
}
