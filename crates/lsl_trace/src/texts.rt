//! The text of a trace.

ghost use Rattle.std.specs.Prelude.{◌≡◌, ◌++◌, List, IfOk, IfSome, OnOk};
ghost use Rattle.std.specs.List.{flat_map};
ghost use Rattle.lsl_marks.specs.Lines.{line_of};
ghost use Rattle.lsl_marks.specs.Said.{said_in};
ghost use Rattle.lsl_marks.specs.declared.entries.Entry.{Entry as AnEntry};
ghost use Rattle.lsl_trace.specs.Texts.{AreAsked, Traces};

use crate::ended::Request;
use crate::fallback::{Held, World};
use crate::script::Script;
use lsl_marks::{
    Entry, Tier, Told, Unit, push_entries, push_files, push_globals, push_marks, push_number,
    push_text, read_plain,
};
use lsl_text::NoMemory;
use std::alloc::Global;

/// The tables of a world, and the entries of the steps that are asked for; none if the plain journal isn't lines.
pub fn whole_text(
    alloc: Global,
    request: &Request<'_>,
    units: &[Unit],
    world: &World<'_>,
    held: &Held,
) -> Result<Option<Vec<u8>>, NoMemory>
    ensures { IfOk result (λ found. IfSome found
        (λ text. Traces request.now.first request.now.last world.now.plain.now text.items)) }
{
    match world.read(alloc, held)? {
        Told::Entries(entries) => {
            let mut out = Vec::new(alloc);
            push_scripts(&mut out, units, world.scripts)?;
            push_marks(&mut out, units, held.markers.as_slice())?;
            push_asked(alloc, &mut out, request, entries.as_slice())?;
            Ok(Some(out))
        }
        Told::Differs(_) => bare_text(alloc, request, units, world),
    }
}

/// The tables of a world without runnable copies, and its plain journal; none if this isn't lines.
pub fn bare_text(
    alloc: Global,
    request: &Request<'_>,
    units: &[Unit],
    world: &World<'_>,
) -> Result<Option<Vec<u8>>, NoMemory>
    ensures { IfOk result (λ found. IfSome found
        (λ text. Traces request.now.first request.now.last world.now.plain.now text.items)) }
{
    match read_plain(alloc, world.plain)? {
        Told::Entries(entries) => {
            let mut out = Vec::new(alloc);
            push_scripts(&mut out, units, world.scripts)?;
            push_entries(&mut out, entries.as_slice())?;
            Ok(Some(out))
        }
        Told::Differs(_) => Ok(None),
    }
}

/// Appends the lines of the entries in the steps that are asked for.
fn push_asked(
    alloc: Global,
    out: &mut Vec<u8>,
    request: &Request<'_>,
    entries: &[Entry<'_>],
) -> Result<(), NoMemory>
    ensures { OnOk result ((asked : List AnEntry) × AreAsked request.now.first request.now.last entries.now asked
        × (out.new.items ≡ out.old.items ++ flat_map line_of asked)) }
{
    let asked = asked_of(alloc, request, entries)?;
    push_entries(out, asked.as_slice())
}

/// The entries in the steps that are asked for.
fn asked_of<'a>(
    alloc: Global,
    request: &Request<'_>,
    entries: &[Entry<'a>],
) -> Result<Vec<Entry<'a>>, NoMemory>
    ensures { IfOk result (λ asked. AreAsked request.now.first request.now.last entries.now asked.items) }
{
    let mut asked = Vec::new(alloc);
    for entry in entries {
        if request.asks_for(entry.step) {
            asked.push(*entry)?;
        }
    }
    Ok(asked)
}

/// The lines of files, scripts and globals.
fn push_scripts(out: &mut Vec<u8>, units: &[Unit], scripts: &[Script]) -> Result<(), NoMemory> {
    push_files(out, units)?;
    for (place, script) in scripts.iter().enumerate() {
        out.extend_from_slice(b"script")?;
        push_number(out, place.saturating_add(1) as u64)?;
        push_number(out, script.unit.saturating_add(1) as u64)?;
        push_text(out, script.name.as_slice())?;
        out.push(b'\n')?;
    }
    for (place, unit) in units.iter().enumerate() {
        if unit.tier != Tier::Nothing {
            push_globals(out, place, unit)?;
        }
    }
    Ok(())
}
