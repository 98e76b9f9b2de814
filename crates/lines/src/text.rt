// The forms of a whole text.
ghost use Rattle.std.specs.Prelude.{map};
ghost use Rattle.words.specs.Division.{numbered_line};
ghost use Rattle.lines.specs.Lines.{given, UnlessStarved};
ghost use Rattle.lines.specs.Table.{table};
ghost use Rattle.lines.specs.Text.{entries_with, forms_from, outline, text_forms};

use crate::forms::Form;
use crate::names::Names;
use crate::reading::read_form;
use crate::refusal::LineFault;
use std::alloc::Global;
use words::Line;

// A line with a form: its number, its level and its form. It is plainer than a `Statement` with a number, since who lists
// a line reads all three.
#[derive(Drop)]
pub struct Entry {
    pub line: u16,
    pub level: u8,
    pub form: Form,
}

// The lines of a text that have a form, in order, and the names that it declares.
#[derive(Drop)]
pub struct Outline<'a> {
    pub names: Names<'a>,
    pub entries: Vec<Entry>,
}

// The forms of some lines, each read under the names that those before it declare.
fn read_forms<'a>(
    heap: Global,
    names: &mut Names<'a>,
    lines: &[Line<'a>],
) -> Result<Vec<Entry>, LineFault>
    ensures { UnlessStarved (given (entries_with names.new) result) (forms_from (table names.old) (map numbered_line lines.now)) }
{
    let mut entries = Vec::new(heap);
    for line in lines {
        let Some(statement) = read_form(heap, names, *line)? else {
            continue;
        };
        entries.push(Entry {
            line: line.number,
            level: statement.level,
            form: statement.form,
        })?;
    }
    Ok(entries)
}

// The forms of a text and the names that it declares, or its first fault.
pub fn read_text<'a>(heap: Global, text: &'a [u8]) -> Result<Outline<'a>, LineFault>
    ensures { UnlessStarved (given outline result) (text_forms text.now) }
{
    let lines = words::split(heap, text)?;
    let mut names = Names::new(heap);
    let entries = read_forms(heap, &mut names, lines.as_slice())?;
    Ok(Outline { names, entries })
}
