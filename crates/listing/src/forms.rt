// The rows of the lines that have a form.
ghost use Rattle.std.specs.Prelude.{◌≡◌, ◌++◌, map, OnOk};
ghost use Rattle.lines.specs.Text.{entry as entered};
ghost use Rattle.listing.specs.Forms.{entry_row, form_rows};

use lines::Entry;
use std::alloc::{AllocError, Global};

// Appends the row of one line: its number, its level and its form.
fn push_form(heap: Global, out: &mut Vec<u8>, entry: &Entry) -> Result<(), AllocError>
    ensures { OnOk result (out.new.items ≡ out.old.items ++ entry_row (entered entry.now)) }
{
    let Entry { line, level, form } = entry;
    let row = format!(in heap; "{line} {level} {form}\n")?;
    out.extend_from_slice(row.as_bytes())
}

// Appends the rows of the lines that have a form.
pub fn push_forms(heap: Global, out: &mut Vec<u8>, entries: &[Entry]) -> Result<(), AllocError>
    ensures { OnOk result (out.new.items ≡ out.old.items ++ form_rows (map entered entries.now)) }
{
    for entry in entries {
        push_form(heap, out, entry)?;
    }
    Ok(())
}
