//! Scripts, appended as lines.

ghost use Rattle.std.specs.Prelude.{◌≡◌, ◌+◌, ◌≤◌, ◌++◌, length, map, OnOk, Some};
ghost use Rattle.std.specs.List.{AllByRecursion, flat_map};
ghost use Rattle.lsl_image.specs.Valid.{HasUnit};
ghost use Rattle.lsl_post.specs.Fitting.{FitsUnit};
ghost use Rattle.lsl_view.specs.Calls.{IsAt, shown_frame};
ghost use Rattle.lsl_view.specs.Lines.{call_line, lines_behind, script_lines};
ghost use Rattle.lsl_view.specs.Parts.{frames_in, rest_word, shown_behind, shown_in};

use crate::calls::push_calls;
use crate::words::{push_number, push_text, push_word};
use lsl_code::{Library, Woven};
use lsl_post::{Rest, ScriptParts};
use lsl_table::event_name;
use lsl_text::NoMemory;
use lsl_value::Text;

/// Appends the lines of these scripts, which follow `before` others; `names` has the names of all.
pub fn push_scripts(
    out: &mut Vec<u8>,
    before: usize,
    scripts: &[ScriptParts],
    names: &[Text],
    library: &Library,
) -> Result<(), NoMemory>
    requires units { AllByRecursion (HasUnit library.now) scripts.now }
    requires names { before + length scripts.now ≤ length names.now }
    ensures { OnOk result (out.new.items
        ≡ out.old.items ++ lines_behind before (shown_behind library.now names.now before scripts.now)) }
{
    let mut place = before;
    for script in scripts {
        push_script(
            out,
            place + 1,
            &names[place],
            script,
            library.unit(script.unit),
        )?;
        place += 1;
    }
    Ok(())
}

// The lines of the script of this number and name.
fn push_script(
    out: &mut Vec<u8>,
    number: usize,
    name: &Text,
    script: &ScriptParts,
    unit: &Woven,
) -> Result<(), NoMemory>
    requires { FitsUnit unit.now script.now }
    ensures { OnOk result (out.new.items
        ≡ out.old.items ++ script_lines number (shown_in (Some unit.now) name.now script.now)) }
{
    out.extend_from_slice(b"script")?;
    push_number(out, number as u64)?;
    push_text(out, name)?;
    push_word(out, unit.state_name(script.state))?;
    push_word(out, rest_word(&script.rest))?;
    push_number(out, u64::from(script.queue.count()))?;
    out.push(b'\n')?;
    push_calls_of(out, &script.rest, unit)
}

// The lines of the saved calls, and none where no handler is in flight.
fn push_calls_of(out: &mut Vec<u8>, rest: &Rest, unit: &Woven) -> Result<(), NoMemory>
    requires { AllByRecursion (IsAt unit.now.functions) (frames_in rest.now) }
    ensures { OnOk result (out.new.items
        ≡ out.old.items ++ flat_map call_line (map (shown_frame unit.now.functions) (frames_in rest.now))) }
{
    match rest {
        Rest::Saved(_, sack) => push_calls(out, sack, unit),
        Rest::Idle | Rest::Dead(_) => Ok(()),
    }
}

/// What a script rests in, as a word.
pub fn rest_word(rest: &Rest) -> &'static str
    ensures { result.now ≡ rest_word rest.now }
{
    match rest {
        Rest::Idle => "idle",
        Rest::Saved(event, _) => event_name(event.id),
        Rest::Dead(_) => "dead",
    }
}
