//! The copies' journal as entries, each at its step and segment, and the check that without the markers it is the plain
//! journal.

ghost use Rattle.std.specs.Prelude.{◌≡◌, ◌++◌, ◌∷◌, IfOk, IfSome};
ghost use Rattle.lsl_marks.specs.Said.{AreNowhere, Has, Says, said_in, said_of};

use crate::calls::idle;
use crate::entries::{Entry, Guilty, Told, What};
use crate::journal_lines::Line;
use crate::reader::{Played, Reader};
use crate::tokens::Part;
use lsl_text::NoMemory;
use std::alloc::Global;

/// Reads the journal of copies, beside the plain one.
pub fn read_told<'a>(
    alloc: Global,
    played: Played<'a>,
    journal: &'a [u8],
    plain: &[u8],
) -> Result<Told<'a>, NoMemory>
    // The entries' own lines are those of the plain journal.
    ensures { IfOk result (λ told. Says told plain.now) }
{
    let mut reader = Reader {
        played,
        running: idle(alloc, played.scripts)?,
        entries: Vec::new(alloc),
        step: 0,
        segment: 0,
        serial: 0,
        awaited: None,
    };
    let mut from = 0;
    for (at, byte) in journal.iter().enumerate() {
        if *byte == b'\n' {
            let line = Part { from, to: at }.of(journal);
            if let Some(guilty) = reader.read(line)? {
                return Ok(Told::Differs(guilty));
            }
            from = at.saturating_add(1);
        }
    }
    if let Some(awaited) = reader.awaited {
        return Ok(Told::Differs(Guilty::Script(awaited.script)));
    }
    Ok(checked(reader.entries, plain))
}

/// The lines of a plain journal as entries, at no step.
pub fn read_plain<'a>(alloc: Global, plain: &'a [u8]) -> Result<Told<'a>, NoMemory>
    ensures says { IfOk result (λ told. Says told plain.now) }
    ensures nowhere { IfOk result AreNowhere }
{
    let mut entries = Vec::new(alloc);
    let mut from = 0;
    for (at, byte) in plain.iter().enumerate() {
        if *byte == b'\n' {
            let line = Part { from, to: at }.of(plain);
            entries.push(Entry {
                step: 0,
                segment: 0,
                what: What::Said(line),
            })?;
            from = at.saturating_add(1);
        }
    }
    Ok(checked(entries, plain))
}

/// These entries, if they say the plain journal.
fn checked<'a>(entries: Vec<Entry<'a>>, plain: &[u8]) -> Told<'a>
    ensures says { Says result plain.now }
    ensures same { Has result entries.entry.items }
{
    match difference(entries.as_slice(), plain) {
        Some(guilty) => Told::Differs(guilty),
        None => Told::Entries(entries),
    }
}

/// What printed something else than the plain journal has.
fn difference(entries: &[Entry<'_>], plain: &[u8]) -> Option<Guilty>
    ensures { result ≡ None → said_in entries.now ≡ plain.now }
{
    let mut rest = plain;
    for entry in entries {
        match rest_after(rest, &entry.what) {
            Some(more) => rest = more,
            None => return Some(guilty_of(&entry.what)),
        }
    }
    if rest.is_empty() {
        None
    } else {
        Some(Guilty::Unknown)
    }
}

/// What follows in a journal after what was printed.
fn rest_after<'a>(journal: &'a [u8], what: &What<'_>) -> Option<&'a [u8]>
    ensures { IfSome result (λ rest. said_of what.now ++ rest.now ≡ journal.now) }
{
    match what {
        What::Said(line) => after_line(journal, line),
        _ => Some(journal),
    }
}

/// What follows in a journal after a line and its end.
fn after_line<'a>(journal: &'a [u8], line: &[u8]) -> Option<&'a [u8]>
    ensures { IfSome result (λ rest. line.now ++ 10 ∷ rest.now ≡ journal.now) }
{
    match journal.strip_prefix(line)? {
        [b'\n', rest @ ..] => Some(rest),
        _ => None,
    }
}

fn guilty_of(what: &What<'_>) -> Guilty {
    match what {
        What::Said(line) => match Line::of(line).number {
            0 => Guilty::Unknown,
            number => Guilty::Script(number),
        },
        _ => Guilty::Unknown,
    }
}
