// A line of the text, read under the names that are declared.
ghost use Rattle.std.specs.Prelude.{◌≡◌, map, OnErr};
ghost use Rattle.words.specs.Token.{token};
ghost use Rattle.lines.specs.Answer.{answered, UnlessMemory};
ghost use Rattle.lines.specs.Judgement.{formed_with};
ghost use Rattle.lines.specs.Law.{Lawful};
ghost use Rattle.lines.specs.Lines.{form_of, given, line_form_of, stated_of, stated_with, UnlessStarved};
ghost use Rattle.lines.specs.Table.{table};

use crate::drafts::draft_of;
use crate::forms::Form;
use crate::judgement::judge;
use crate::names::Names;
use crate::refusal::{Flaw, LineFault};
use std::alloc::Global;
use words::{Line, Row, Word};

// The level and the form of a line. The two stand in `Entry` again, since who lists a line reads all three parts of it.
#[derive(Drop)]
pub struct Statement {
    pub level: u8,
    pub form: Form,
}

// The form that words have, and the names that they declare or place.
fn form_of<'a>(heap: Global, names: &mut Names<'a>, words: &[Word<'a>]) -> Result<Form, Flaw>
    ensures form { UnlessMemory (answered (formed_with names.new) result) (form_of (table names.old) (map token words.now)) }
    ensures kept { OnErr result (table names.new ≡ table names.old) }
{
    let draft = draft_of(heap, words)?;
    judge(heap, names, draft)
}

// The level and form of line `number`, which has the words; a line with no words has no form.
fn statement_of<'a>(
    heap: Global,
    names: &mut Names<'a>,
    number: u16,
    row: &Row<'a>,
) -> Result<Option<Statement>, LineFault>
    ensures reads { UnlessStarved (given (stated_with names.new) result) (stated_of (table names.old) number row.now.level (map token row.now.words.items)) }
    ensures kept { OnErr result (table names.new ≡ table names.old) }
{
    if row.words.is_empty() {
        return Ok(None);
    }
    // No plainer by map_err and `?`: the closure would stand in place of one arm, and the proof needs a file for it.
    match form_of(heap, names, row.words.as_slice()) {
        Ok(form) => Ok(Some(Statement {
            level: row.level,
            form,
        })),
        Err(flaw) => Err(flaw.in_line(number)),
    }
}

// The level and form of a line, and the names after it; or what is wrong with it. A refusal leaves the names as they were.
pub fn read_form<'a>(
    heap: Global,
    names: &mut Names<'a>,
    line: Line<'a>,
) -> Result<Option<Statement>, LineFault>
    ensures reads { UnlessStarved (given (stated_with names.new) result) (line_form_of (table names.old) line.entry.number line.entry.bytes.now) }
    ensures law { Lawful (table names.old) line.entry.number line.entry.bytes.now (given (stated_with names.new) result) }
    ensures kept { OnErr result (table names.new ≡ table names.old) }
{
    let row = words::read_line(heap, line)?;
    statement_of(heap, names, line.number, &row)
}
