//! The lines of a generated world. After an `Err` a prefix of the line may have been added.

ghost use Rattle.std.specs.Prelude.{◌≡◌, ◌++◌, decimal, OnOk};
ghost use Rattle.lsl_made.specs.Lines.{line, object_words, script_words};

use crate::step::{Region, Step};
use lsl_text::{NoMemory, push_decimal};

impl Step {
    ghost use Rattle.lsl_made.specs.Lines.{line, step_words};

    /// Adds the step's line.
    pub(crate) fn push_line(&self, out: &mut Vec<u8>) -> Result<(), NoMemory>
        ensures { OnOk result (out.new.items ≡ out.old.items ++ line (step_words self.now)) }
    {
        match *self {
            Step::Touch(object) => push_between(
                out,
                b"touch ",
                object,
                b" 0 00000000-0000-0000-0000-0000000000aa \"Ann\"\n",
            ),
            Step::Clock(reading) => push_between(out, b"clock ", reading, b"\n"),
            Step::Go(script, ticks) => {
                push_between(out, b"go ", script, b" ")?;
                push_between(out, b"", ticks, b"\n")
            }
            Step::Run(ticks) => push_between(out, b"run ", ticks, b"\n"),
            Step::Cross(object, Region::A) => push_between(out, b"cross ", object, b" \"A\"\n"),
            Step::Cross(object, Region::B) => push_between(out, b"cross ", object, b" \"B\"\n"),
            Step::Pause(gap) => push_between(out, b"pause ", gap, b"\n"),
            Step::Say(said) => push_between(
                out,
                b"say 9 \"Ann\" 00000000-0000-0000-0000-0000000000aa \"",
                said,
                b"\"\n",
            ),
        }
    }
}

/// Adds the lines of an object and its script.
pub(crate) fn push_object(out: &mut Vec<u8>, object: u32) -> Result<(), NoMemory>
    ensures { OnOk result (out.new.items ≡ out.old.items ++ (line (object_words object) ++ line script_words)) }
{
    push_between(
        out,
        b"object 00000000-0000-0000-0000-00000000000",
        object,
        b" \"O",
    )?;
    push_between(
        out,
        b"",
        object,
        b"\" 00000000-0000-0000-0000-000000000099 \"A\"\nscript \"w\" \"walker\"\n",
    )
}

// Adds a number in decimal, between two texts.
fn push_between(
    out: &mut Vec<u8>,
    before: &[u8],
    number: u32,
    behind: &[u8],
) -> Result<(), NoMemory>
    ensures { OnOk result (out.new.items ≡ out.old.items ++ (before.now ++ (decimal number ++ behind.now))) }
{
    out.extend_from_slice(before)?;
    push_decimal(out, i64::from(number))?;
    out.extend_from_slice(behind)
}
