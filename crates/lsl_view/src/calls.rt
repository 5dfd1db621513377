//! Saved calls, appended as lines.

ghost use Rattle.std.specs.Prelude.{◌≡◌, ◌++◌, drop, length, map, take, OnOk};
ghost use Rattle.std.specs.List.{AllByRecursion, flat_map};
ghost use Rattle.lsl_code.specs.Laid.{frame_laid};
ghost use Rattle.lsl_code.specs.Naming.{HasPoint};
ghost use Rattle.lsl_view.specs.Calls.{IsAt, shown_frame, slot_count};
ghost use Rattle.lsl_view.specs.Lines.{call_line};
ghost use Rattle.lsl_view.specs.Parts.{frames_in};
ghost use Rattle.lsl_view.specs.State.{held_lines, line_of, took_words, waits_line};
ghost use Rattle.lsl_view.specs.StateParts.{event_in, held_frame};

use crate::mailbox::push_event;
use crate::values::push_values;
use crate::words::{end_line, push_number, push_word};
use lsl_code::{Laid, Sack, Woven};
use lsl_post::Rest;
use lsl_text::NoMemory;
use lsl_value::Value;

/// Appends the line of each saved call, which is at a point of the unit.
pub fn push_calls(out: &mut Vec<u8>, sack: &Sack, unit: &Woven) -> Result<(), NoMemory>
    requires { AllByRecursion (IsAt unit.now.functions) sack.now }
    ensures { OnOk result (out.new.items
        ≡ out.old.items ++ flat_map call_line (map (shown_frame unit.now.functions) sack.now)) }
{
    for i in 0..sack.len() {
        push_call(out, &sack.call(i), unit)?;
    }
    Ok(())
}

/// Appends the lines of the handler in flight, if there is one: of each saved call, with a line for the operands that
/// wait in it, and of the current event.
pub fn push_flight(out: &mut Vec<u8>, rest: &Rest, unit: &Woven) -> Result<(), NoMemory>
    requires { AllByRecursion (IsAt unit.now.functions) (frames_in rest.now) }
    ensures { OnOk result (out.new.items
        ≡ out.old.items ++ (flat_map held_lines (map (held_frame unit.now.functions) (frames_in rest.now))
        ++ line_of took_words (event_in rest.now))) }
{
    match rest {
        Rest::Saved(event, sack) => {
            push_held_calls(out, sack, unit)?;
            push_event(out, "took", event)
        }
        Rest::Idle | Rest::Dead(_) => Ok(()),
    }
}

fn push_held_calls(out: &mut Vec<u8>, sack: &Sack, unit: &Woven) -> Result<(), NoMemory>
    requires { AllByRecursion (IsAt unit.now.functions) sack.now }
    ensures { OnOk result (out.new.items
        ≡ out.old.items ++ flat_map held_lines (map (held_frame unit.now.functions) sack.now)) }
{
    for i in 0..sack.len() {
        push_held_call(out, &sack.call(i), unit)?;
    }
    Ok(())
}

// The line of a call, and that of the operands that wait in it.
fn push_held_call(out: &mut Vec<u8>, call: &Laid<'_>, unit: &Woven) -> Result<(), NoMemory>
    requires { IsAt unit.now.functions (frame_laid call.now) }
    ensures { OnOk result (out.new.items
        ≡ out.old.items ++ held_lines (held_frame unit.now.functions (frame_laid call.now))) }
{
    push_call(out, call, unit)?;
    push_waits(out, operands(call, unit))
}

fn push_waits(out: &mut Vec<u8>, values: &[Value]) -> Result<(), NoMemory>
    ensures { OnOk result (out.new.items ≡ out.old.items ++ waits_line values.now) }
{
    match values {
        [] => Ok(()),
        [..] => {
            out.extend_from_slice(b"waits")?;
            push_values(out, values)?;
            end_line(out)
        }
    }
}

fn push_call(out: &mut Vec<u8>, call: &Laid<'_>, unit: &Woven) -> Result<(), NoMemory>
    requires { IsAt unit.now.functions (frame_laid call.now) }
    ensures { OnOk result (out.new.items
        ≡ out.old.items ++ call_line (shown_frame unit.now.functions (frame_laid call.now))) }
{
    out.extend_from_slice(b"call")?;
    push_word(out, unit.function_name(call.function))?;
    push_number(out, u64::from(unit.line(call.function, call.point)))?;
    push_values(out, slots(call, unit))?;
    out.push(b'\n')?;
    Ok(())
}

// The operands that wait after the slots of a call.
fn operands<'s>(call: &Laid<'s>, unit: &Woven) -> &'s [Value]
    requires { IsAt unit.now.functions (frame_laid call.now) }
    ensures { result.now ≡ drop (slot_count unit.now.functions call.now.function) (frame_laid call.now).slots }
{
    let function = &unit.functions.as_slice()[usize::from(call.function)];
    let values = call.values;
    &values[function.slots.len().min(values.len())..]
}

// The slots of a call, without the operands after them.
fn slots<'s>(call: &Laid<'s>, unit: &Woven) -> &'s [Value]
    requires { IsAt unit.now.functions (frame_laid call.now) }
    ensures { result.now ≡ take (slot_count unit.now.functions call.now.function) (frame_laid call.now).slots }
{
    let function = &unit.functions.as_slice()[usize::from(call.function)];
    let values = call.values;
    &values[..function.slots.len().min(values.len())]
}
