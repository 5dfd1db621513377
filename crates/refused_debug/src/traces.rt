//! Clauses of `lsl_marks`.

ghost use Rattle.std.specs.Prelude.{◌≡◌, ◌∷◌, ◌++◌, [], OnOk};
ghost use Rattle.std.specs.List.{flat_map};
ghost use Rattle.lsl_marks.specs.Lines.{line_of};

use lsl_marks::{Entry, push_entries};
use lsl_text::NoMemory;

/// As `push_entries`, of an entry and a value that is told there.
pub fn value_told(out: &mut Vec<u8>, entry: Entry<'_>, value: Entry<'_>) -> Result<(), NoMemory>
    ensures { OnOk result (out.new.items ≡ out.old.items ++ flat_map line_of (entry.entry ∷ value.entry ∷ [])) }
{
    push_entries(out, &[entry, value])
}
