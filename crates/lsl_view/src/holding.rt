//! What scripts hold, appended as lines.

ghost use Rattle.std.specs.Prelude.{◌≡◌, ◌++◌, ◌+◌, ◌<◌, ◌≤◌, ◌∷◌, [], codes, decimal, get_or, length, option_map, suc, sum_by, IfOk, IfSome, OnOk, Some};
ghost use Rattle.std.specs.List.{AllByRecursion, flat_map};
ghost use Rattle.std.specs.Str.{encode_utf8_all};
ghost use Rattle.lsl_code.specs.Frames.{frame_charge};
ghost use Rattle.lsl_code.specs.Naming.{state_name};
ghost use Rattle.lsl_image.specs.Valid.{HasUnit};
ghost use Rattle.lsl_lines.specs.Journal.{spaced, text_word};
ghost use Rattle.lsl_post.specs.Fitting.{FitsUnit};
ghost use Rattle.lsl_running.specs.Charging.{charged_with};
ghost use Rattle.lsl_view.specs.Parts.{rest_word};
ghost use Rattle.lsl_view.specs.State.{fault_words, global_line, leaving_words, line, line_of, state_lines, states_behind};
ghost use Rattle.lsl_view.specs.StateParts.{charge_in, fault_in, globals_shown, most_scripts, script_state, state_in, states_shown};

use crate::calls::push_flight;
use crate::known::Names;
use crate::mailbox::push_mailbox;
use crate::scripts::rest_word;
use crate::values::push_value;
use crate::words::{end_line, push_fault, push_number, push_text, push_word};
use lsl_code::{Library, Sack, Woven};
use lsl_post::{Rest, ScriptParts};
use lsl_running::{CALL_CHARGE, SCRIPT_CHARGE, charged_with_values};
use lsl_text::NoMemory;
use lsl_value::{Text, Value};

/// What is needed to show scripts: the reading of the clock, the names, and the units.
#[derive(Clone, Copy)]
pub struct Scene<'a> {
    pub clock: u64,
    pub names: &'a Names,
    pub library: &'a Library,
}

impl Scene<'_> {
    /// Appends the lines of these scripts, which follow the first `before`. Returns the place after the last of them.
    pub fn push_scripts(
        &self,
        out: &mut Vec<u8>,
        before: usize,
        scripts: &[ScriptParts],
    ) -> Result<usize, NoMemory>
        requires units { AllByRecursion (HasUnit self.now.library.now) scripts.now }
        requires few { before + length scripts.now ≤ most_scripts }
        ensures lines { OnOk result (out.new.items ≡ out.old.items ++ states_behind before
            (states_shown self.now.library.now self.now.names.now self.now.clock before scripts.now)) }
        ensures next { IfOk result (λ next. next ≡ before + length scripts.now) }
    {
        let mut place = before;
        for script in scripts {
            self.push_script(out, place, script)?;
            place += 1;
        }
        Ok(place)
    }

    // The lines of the script at this place. A script without a name is shown with an empty one.
    fn push_script(
        &self,
        out: &mut Vec<u8>,
        place: usize,
        script: &ScriptParts,
    ) -> Result<(), NoMemory>
        requires unit { HasUnit self.now.library.now script.now }
        requires few { place < most_scripts }
        ensures { OnOk result (out.new.items ≡ out.old.items ++ state_lines (suc place)
            (script_state self.now.library.now self.now.names.now self.now.clock
            (get_or self.now.names.now.scripts place []) script.now)) }
    {
        let unit = self.library.unit(script.unit);
        match self.names.scripts.get(place) {
            Some(name) => self.push_state(out, place + 1, name, script, unit),
            None => self.push_state(out, place + 1, &Text::new(), script, unit),
        }
    }

    // The lines of the script of this number, name and unit.
    fn push_state(
        &self,
        out: &mut Vec<u8>,
        number: usize,
        name: &Text,
        script: &ScriptParts,
        unit: &Woven,
    ) -> Result<(), NoMemory>
        requires { FitsUnit unit.now script.now }
        ensures { OnOk result (out.new.items ≡ out.old.items ++ state_lines number
            (state_in (Some unit.now) self.now.clock name.now
            (get_or self.now.names.now.globals script.now.unit []) script.now)) }
    {
        push_head(out, number, name, script, unit)?;
        self.push_standing(out, script, unit)?;
        push_flight(out, &script.rest, unit)?;
        push_mailbox(out, script, self.clock)
    }

    // The lines of where a script is in its life, and of its globals.
    fn push_standing(
        &self,
        out: &mut Vec<u8>,
        script: &ScriptParts,
        unit: &Woven,
    ) -> Result<(), NoMemory>
        requires { FitsUnit unit.now script.now }
        ensures { OnOk result (out.new.items ≡ out.old.items
            ++ (line_of leaving_words (option_map (state_name unit.now.states) script.now.leaving)
            ++ line_of fault_words (fault_in script.now.rest)
            ++ flat_map global_line (globals_shown (get_or self.now.names.now.globals script.now.unit [])
            script.now.globals))) }
    {
        push_leaving(out, script.leaving, unit)?;
        push_fault_of(out, &script.rest)?;
        self.push_globals(out, script)
    }

    // The line of each global.
    fn push_globals(&self, out: &mut Vec<u8>, script: &ScriptParts) -> Result<(), NoMemory>
        ensures { OnOk result (out.new.items ≡ out.old.items ++ flat_map global_line
            (globals_shown (get_or self.now.names.now.globals script.now.unit []) script.now.globals)) }
    {
        match self.names.globals.get(script.unit as usize) {
            Some(names) => push_globals(out, names.as_slice(), script.globals.as_slice()),
            None => Ok(()),
        }
    }
}

// The line of the script of this number and name.
fn push_head(
    out: &mut Vec<u8>,
    number: usize,
    name: &Text,
    script: &ScriptParts,
    unit: &Woven,
) -> Result<(), NoMemory>
    requires { FitsUnit unit.now script.now }
    ensures { OnOk result (out.new.items ≡ out.old.items ++ line (codes "script" ∷ decimal number ∷ text_word name.now
        ∷ encode_utf8_all (state_name unit.now.states script.now.state) ∷ rest_word script.now.rest
        ∷ decimal (length script.now.queue) ∷ decimal (charge_in script.now) ∷ decimal script.now.limit ∷ [])) }
{
    out.extend_from_slice(b"script")?;
    push_number(out, number as u64)?;
    push_text(out, name)?;
    push_word(out, unit.state_name(script.state))?;
    push_figures(out, script)
}

// What a script rests in and its numbers, as the last words of its line.
fn push_figures(out: &mut Vec<u8>, script: &ScriptParts) -> Result<(), NoMemory>
    ensures { OnOk result (out.new.items ≡ out.old.items ++ (flat_map spaced (rest_word script.now.rest
        ∷ decimal (length script.now.queue) ∷ decimal (charge_in script.now) ∷ decimal script.now.limit ∷ [])
        ++ 10 ∷ [])) }
{
    push_word(out, rest_word(&script.rest))?;
    push_number(out, u64::from(script.queue.count()))?;
    push_number(out, charge_of(script))?;
    push_number(out, u64::from(script.limit))?;
    end_line(out)
}

fn push_leaving(out: &mut Vec<u8>, leaving: Option<u16>, unit: &Woven) -> Result<(), NoMemory>
    requires { IfSome leaving (λ to. to < length unit.now.states) }
    ensures { OnOk result (out.new.items ≡ out.old.items
        ++ line_of leaving_words (option_map (state_name unit.now.states) leaving)) }
{
    let Some(state) = leaving else {
        return Ok(());
    };
    out.extend_from_slice(b"leaving")?;
    push_word(out, unit.state_name(state))?;
    end_line(out)
}

fn push_fault_of(out: &mut Vec<u8>, rest: &Rest) -> Result<(), NoMemory>
    ensures { OnOk result (out.new.items ≡ out.old.items ++ line_of fault_words (fault_in rest.now)) }
{
    match rest {
        Rest::Dead(fault) => push_fault(out, *fault),
        Rest::Idle | Rest::Saved(_, _) => Ok(()),
    }
}

fn push_globals(out: &mut Vec<u8>, names: &[Text], values: &[Value]) -> Result<(), NoMemory>
    ensures { OnOk result
        (out.new.items ≡ out.old.items ++ flat_map global_line (globals_shown names.now values.now)) }
{
    let count = names.len().min(values.len());
    for i in 0..count {
        push_global(out, &names[i], &values[i])?;
    }
    Ok(())
}

fn push_global(out: &mut Vec<u8>, name: &Text, value: &Value) -> Result<(), NoMemory>
    ensures { OnOk result
        (out.new.items ≡ out.old.items ++ global_line (record { name = name.now; value = value.now })) }
{
    out.extend_from_slice(b"global")?;
    push_word(out, name.as_str())?;
    out.push(b' ')?;
    push_value(out, value)?;
    end_line(out)
}

// What a script is charged.
fn charge_of(script: &ScriptParts) -> u64
    ensures { result ≡ charge_in script.now }
{
    let own = charged_with_values(SCRIPT_CHARGE, script.globals.as_slice());
    match &script.rest {
        Rest::Saved(_, sack) => charged_with_calls(own, sack),
        Rest::Idle | Rest::Dead(_) => own,
    }
}

// What is charged so far and for these calls, saturated at 64 bits.
fn charged_with_calls(charged: u64, sack: &Sack) -> u64
    ensures { result ≡ charged_with charged (sum_by frame_charge sack.now) }
{
    let mut sum = charged;
    for i in 0..sack.len() {
        sum = charged_with_values(sum.saturating_add(CALL_CHARGE), sack.call(i).values);
    }
    sum
}
