//! A script that is taken by hand from step to step: what it does, and its parts at rest.

ghost use Rattle.std.specs.Prelude.{◌≡◌, ◌≤◌, false, IfOk};
ghost use Rattle.lsl_code.specs.Weaves.{Weaves};
ghost use Rattle.lsl_post.specs.Timing.{latest_clock};
ghost use Rattle.lsl_script.specs.Fitting.{FitsUnit, is_exit};

use crate::events::{number, timer, touch};
use crate::frames::tell_slots;
use crate::hosting::{first_of, segment, unit_of};
use lsl_code::Woven;
use lsl_post::{Event, Posted, Rest};
use lsl_script::Script;
use lsl_text::NoMemory;
use std::alloc::Global;
use std::process::Abort;

/// A script of this text does these steps. The result of each and the script's parts after it are as its line says.
pub(crate) fn plays(
    rt: &impl Abort,
    alloc: Global,
    text: &str,
    steps: &str,
) -> Result<(), NoMemory> {
    let unit = unit_of(rt, alloc, text);
    let mut script = Script::new(alloc, 0, &unit)?;
    for line in steps.split('\n') {
        if let Some((step, want)) = line.split_once(" -> ") {
            let mut told = String::new(alloc);
            script = stepped(alloc, &unit, script, step, &mut told)?;
            tell_parts(&script, &mut told)?;
            assert!(rt; told.as_str() == want, "{step} -> {told}");
        }
    }
    Ok(())
}

/// The script after a step: `touches N` posts N touches, `ring` a timer event, `go C` is one segment at this reading of
/// the clock, `run C` segments at it while the script is ready, and `frames N` N of them, with the frames then.
fn stepped(
    alloc: Global,
    unit: &Woven,
    script: Script,
    step: &str,
    told: &mut String,
) -> Result<Script, NoMemory>
    requires fits { FitsUnit unit.now script }
    requires weaves { Weaves unit.now }
    ensures { IfOk result (FitsUnit unit.now) }
{
    let (word, number) = step.split_once(' ').unwrap_or((step, ""));
    let number = number.parse::<u16>().unwrap_or(0);
    match word {
        "touches" => touched(alloc, unit, script, number, told),
        "ring" => posted(alloc, unit, script, timer(alloc), told),
        "go" => segment(alloc, unit, script, number as u64, told),
        "frames" => framed(alloc, unit, script, number as u32, told),
        _ => segments(alloc, unit, script, number as u64, 1_000, told),
    }
}

/// Runs this many segments, and then shows the saved frames.
fn framed(
    alloc: Global,
    unit: &Woven,
    script: Script,
    most: u32,
    told: &mut String,
) -> Result<Script, NoMemory>
    requires fits { FitsUnit unit.now script }
    requires weaves { Weaves unit.now }
    ensures { IfOk result (FitsUnit unit.now) }
{
    let script = segments(alloc, unit, script, 0, most, told)?;
    tell_rest(&script.parts().rest, told)?;
    Ok(script)
}

fn tell_rest(rest: &Rest, told: &mut String) -> Result<(), NoMemory> {
    match rest {
        Rest::Saved(_, sack) => tell_slots(told, sack),
        _ => Ok(()),
    }
}

/// Posts touches, numbered from 1, and shows the last one's answer.
fn touched(
    alloc: Global,
    unit: &Woven,
    script: Script,
    count: u16,
    told: &mut String,
) -> Result<Script, NoMemory>
    requires { FitsUnit unit.now script }
    ensures { IfOk result (FitsUnit unit.now) }
{
    let mut script = script;
    for at in 0..count {
        told.clear();
        script = posted(alloc, unit, script, touch(alloc, at as i32 + 1)?, told)?;
    }
    Ok(script)
}

/// Posts an event.
fn posted(
    alloc: Global,
    unit: &Woven,
    mut script: Script,
    event: Event,
    told: &mut String,
) -> Result<Script, NoMemory>
    requires fits { FitsUnit unit.now script }
    requires other { is_exit event ≡ false }
    ensures { IfOk result (FitsUnit unit.now) }
{
    match script.post(unit, event) {
        Posted::Queued => told.push_str("queued")?,
        Posted::Dropped(event) => {
            write!(told, "dropped {}", number(&event))?;
        }
        Posted::Unheard => told.push_str("unheard")?,
    }
    Ok(script)
}

/// Runs segments of the script while it is ready, at most this many, and shows the last one.
fn segments(
    alloc: Global,
    unit: &Woven,
    script: Script,
    clock: u64,
    most: u32,
    told: &mut String,
) -> Result<Script, NoMemory>
    requires fits { FitsUnit unit.now script }
    requires weaves { Weaves unit.now }
    requires clock { clock ≤ latest_clock }
    ensures { IfOk result (FitsUnit unit.now) }
{
    let mut script = script;
    for at in 0..most {
        if !script.ready(clock) {
            return Ok(script);
        }
        told.clear();
        script = segment(alloc, unit, script, clock, told)?;
    }
    Ok(script)
}

/// Shows a script's state, the one that it is leaving for, the number of events that wait, the number of its next
/// listen and of its listens, its timer's period and due time, when it wakes, how it rests, and its first global if
/// that is an integer.
fn tell_parts(script: &Script, told: &mut String) -> Result<(), NoMemory> {
    let parts = script.parts();
    write!(
        told,
        "; {} {:?} {}",
        parts.state,
        parts.leaving,
        parts.queue.count()
    )?;
    write!(told, " {} {}", parts.listens.next(), parts.listens.count())?;
    write!(
        told,
        " {} {} {}",
        parts.timer.period, parts.timer.due, parts.wake
    )?;
    write!(
        told,
        " {} {}",
        rest_of(&parts.rest),
        first_of(parts.globals.as_slice())
    )
}

fn rest_of(rest: &Rest) -> &'static str {
    match rest {
        Rest::Idle => "Idle",
        Rest::Saved(_, _) => "Saved",
        Rest::Dead(_) => "Dead",
    }
}
