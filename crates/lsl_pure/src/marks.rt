//! The texts at which a text is parsed.

ghost use Rattle.std.specs.Prelude.{◌≡◌, ◌<◌, ◌++◌, length, take, IfOk, OnOk};
ghost use Rattle.std.specs.List.{All};
ghost use Rattle.std.specs.Str.{IsUtf8, encode_utf8_all};
ghost use Rattle.lsl_pure.specs.Parsing.{marks_of, marks_from};

use lsl_text::NoMemory;
use lsl_value::{Atom, Items, Text};
use std::alloc::Global;

/// How many separators and how many spacers are used.
const MOST_MARKS: usize = 8;

/// A text that ends a piece: a separator, or a spacer, which is an element itself.
#[derive(Drop)]
pub struct Mark {
    pub text: Text,
    pub spacer: bool,
}

/// The first eight separators and behind them the first eight spacers, without the empty ones.
pub fn marks(alloc: Global, separators: &Items, spacers: &Items) -> Result<Vec<Mark>, NoMemory>
    ensures { IfOk result (λ marks. marks.items ≡ marks_of separators.now spacers.now) }
{
    let mut marks = Vec::with_capacity(alloc, 2 * MOST_MARKS)?;
    push_marks(alloc, &mut marks, separators, false)?;
    push_marks(alloc, &mut marks, spacers, true)?;
    Ok(marks)
}

fn push_marks(
    alloc: Global,
    marks: &mut Vec<Mark>,
    listed: &Items,
    spacer: bool,
) -> Result<(), NoMemory>
    ensures { OnOk result (marks.new.items ≡ marks.old.items ++ marks_from spacer listed.now) }
{
    'atoms: for atom in first_eight(listed) {
        let text = atom.text(alloc)?;
        if !text.bytes().is_empty() {
            marks.push(Mark { text, spacer })?;
        }
    }
    Ok(())
}

fn first_eight(listed: &Items) -> &[Atom]
    ensures { result.now ≡ take 8 listed.now }
{
    let atoms = listed.as_slice();
    &atoms[..atoms.len().min(MOST_MARKS)]
}
