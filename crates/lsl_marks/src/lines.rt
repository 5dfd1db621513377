//! The lines of a trace.

ghost use Rattle.std.specs.Prelude.{◌≡◌, ◌++◌, OnOk, decimal, nat_lt};
ghost use Rattle.std.specs.List.{flat_map};
ghost use Rattle.lsl_text.specs.Quoted.{quoted};
ghost use Rattle.lsl_marks.specs.Lines.{at_words, cut_of, elements_of, line_of, number_after, parted, said_words, set_words, slot_word, after_byte, spaced, told_length, value_word, within_quotes};

use crate::entries::{Arrival, Entry, Value, What};
use crate::markers::{Marker, Moment, kind_word};
use crate::statements::Routine;
use crate::tokens::name_at;
use crate::units::Unit;
use crate::variables::{Slot, Variable};
use itoa::Buffer;
use lsl_text::{NoMemory, push_quoted};
use lsl_value::Kind;

/// A reported text of this many bytes may have been truncated.
const MAYBE_CUT: usize = 1021;

/// Appends a word after a space.
pub fn push_word(out: &mut Vec<u8>, word: &[u8]) -> Result<(), NoMemory>
    ensures { OnOk result (out.new.items ≡ out.old.items ++ spaced word.now) }
{
    out.push(b' ')?;
    out.extend_from_slice(word)
}

/// Appends a number after a space.
pub fn push_number(out: &mut Vec<u8>, n: u64) -> Result<(), NoMemory>
    ensures { OnOk result (out.new.items ≡ out.old.items ++ spaced (decimal n)) }
{
    let mut buffer = Buffer::new();
    push_word(out, buffer.format(n).as_bytes())
}

/// Appends a text in quotes after a space.
pub fn push_text(out: &mut Vec<u8>, text: &[u8]) -> Result<(), NoMemory>
    ensures { OnOk result (out.new.items ≡ out.old.items ++ spaced (quoted text.now)) }
{
    out.push(b' ')?;
    push_quoted(out, text)
}

/// Appends the lines of the scripts' files, whose numbers begin at 1.
pub fn push_files(out: &mut Vec<u8>, units: &[Unit]) -> Result<(), NoMemory> {
    for (place, unit) in units.iter().enumerate() {
        out.extend_from_slice(b"file")?;
        push_number(out, number_after(place))?;
        push_text(out, unit.name.as_slice())?;
        push_number(out, u64::from(unit.tier.number()))?;
        out.push(b'\n')?;
    }
    Ok(())
}

/// The number of what is at a place: they begin at 1.
fn number_after(place: usize) -> u64
    ensures { result ≡ number_after place }
{
    place.saturating_add(1) as u64
}

/// Appends the lines of a file's globals.
pub fn push_globals(out: &mut Vec<u8>, place: usize, unit: &Unit) -> Result<(), NoMemory> {
    for (slot, declared) in unit.outline.globals.iter().enumerate() {
        out.extend_from_slice(b"global")?;
        push_number(out, number_after(place))?;
        push_number(out, slot as u64)?;
        push_word(out, kind_word(declared.kind).as_bytes())?;
        push_word(out, name_at(unit.tokens(), declared.name))?;
        out.push(b'\n')?;
    }
    Ok(())
}

/// Appends the lines of the markers.
pub fn push_marks(out: &mut Vec<u8>, units: &[Unit], markers: &[Marker]) -> Result<(), NoMemory> {
    for (place, marker) in markers.iter().enumerate() {
        if let Some(unit) = units.get(marker.unit) {
            push_mark(out, place, unit, marker)?;
        }
    }
    Ok(())
}

fn push_mark(
    out: &mut Vec<u8>,
    place: usize,
    unit: &Unit,
    marker: &Marker,
) -> Result<(), NoMemory> {
    out.extend_from_slice(b"mark")?;
    push_number(out, number_after(place))?;
    push_number(out, number_after(marker.unit))?;
    out.push(b' ')?;
    if let Some(routine) = unit.outline.routines.get(marker.routine) {
        push_routine(out, unit, routine)?;
    }
    push_word(out, moment_word(marker.moment))?;
    push_number(out, u64::from(marker.first))?;
    push_number(out, u64::from(marker.last))?;
    out.push(b'\n')?;
    for variable in &marker.names {
        push_name(out, place, variable, name_at(unit.tokens(), variable.name))?;
    }
    for variable in &marker.says {
        if variable.slot == Slot::Result {
            push_name(out, place, variable, b"(result)")?;
        }
    }
    Ok(())
}

fn push_routine(out: &mut Vec<u8>, unit: &Unit, routine: &Routine) -> Result<(), NoMemory> {
    if let Some(state) = routine.state {
        out.extend_from_slice(name_at(unit.tokens(), state))?;
        out.push(b'.')?;
    }
    out.extend_from_slice(name_at(unit.tokens(), routine.name))
}

fn moment_word(moment: Moment) -> &'static [u8] {
    match moment {
        Moment::Enter => b"enter",
        Moment::Statement => b"stmt",
        Moment::Again => b"again",
        Moment::Body | Moment::Note => b"note",
        Moment::Leave => b"leave",
    }
}

fn push_name(
    out: &mut Vec<u8>,
    place: usize,
    variable: &Variable,
    name: &[u8],
) -> Result<(), NoMemory> {
    out.extend_from_slice(b"name")?;
    push_number(out, number_after(place))?;
    push_slot(out, variable.slot)?;
    push_word(out, kind_word(variable.kind).as_bytes())?;
    push_word(out, name)?;
    out.push(b'\n')?;
    Ok(())
}

fn push_slot(out: &mut Vec<u8>, slot: Slot) -> Result<(), NoMemory>
    ensures { OnOk result (out.new.items ≡ out.old.items ++ spaced (slot_word slot)) }
{
    match slot {
        Slot::Local(place) | Slot::Global(place) => push_number(out, place as u64),
        Slot::Result => push_word(out, b"result"),
    }
}

/// Appends the lines of entries.
pub fn push_entries(out: &mut Vec<u8>, entries: &[Entry<'_>]) -> Result<(), NoMemory>
    ensures { OnOk result (out.new.items ≡ out.old.items ++ flat_map line_of entries.now) }
{
    for entry in entries {
        push_entry(out, entry)?;
    }
    Ok(())
}

/// Appends the line of an entry.
fn push_entry(out: &mut Vec<u8>, entry: &Entry<'_>) -> Result<(), NoMemory>
    ensures { OnOk result (out.new.items ≡ out.old.items ++ line_of entry.now) }
{
    match &entry.what {
        What::At(arrival) => push_arrival(out, entry, arrival)?,
        What::Set(value) => push_set(out, value)?,
        What::Said(line) => push_said(out, entry, line)?,
    }
    out.push(b'\n')?;
    Ok(())
}

fn push_arrival(out: &mut Vec<u8>, entry: &Entry<'_>, arrival: &Arrival) -> Result<(), NoMemory>
    ensures { OnOk result (out.new.items ≡ out.old.items ++ at_words entry.now.step entry.now.segment arrival.now) }
{
    out.extend_from_slice(b"at")?;
    push_number(out, entry.step)?;
    push_number(out, entry.segment)?;
    push_number(out, arrival.script as u64)?;
    push_number(out, number_after(arrival.marker))?;
    push_number(out, arrival.serial)?;
    push_number(out, arrival.outer)
}

fn push_set(out: &mut Vec<u8>, value: &Value<'_>) -> Result<(), NoMemory>
    ensures { OnOk result (out.new.items ≡ out.old.items ++ set_words value.now) }
{
    out.extend_from_slice(b"set")?;
    push_number(out, value.serial)?;
    push_slot(out, value.variable.slot)?;
    push_value(out, value.variable.kind, value.told)
}

fn push_said(out: &mut Vec<u8>, entry: &Entry<'_>, line: &[u8]) -> Result<(), NoMemory>
    ensures { OnOk result (out.new.items ≡ out.old.items ++ said_words entry.now.step entry.now.segment line.now) }
{
    out.extend_from_slice(b"said")?;
    push_number(out, entry.step)?;
    push_number(out, entry.segment)?;
    push_word(out, line)
}

/// Appends a reported value after a space. It was reported in quotes.
fn push_value(out: &mut Vec<u8>, kind: Kind, told: &[u8]) -> Result<(), NoMemory>
    ensures { OnOk result (out.new.items ≡ out.old.items ++ spaced (value_word kind told.now)) }
{
    let inner = within_quotes(told);
    match kind {
        Kind::Int => push_word(out, inner),
        Kind::Str | Kind::Key => {
            push_word(out, told)?;
            push_cut(out, inner)
        }
        Kind::List => {
            push_word(out, b"[")?;
            push_elements(out, inner)?;
            push_cut(out, inner)?;
            out.push(b']')?;
            Ok(())
        }
    }
}

/// Appends two dots if the text may have been truncated.
fn push_cut(out: &mut Vec<u8>, inner: &[u8]) -> Result<(), NoMemory>
    ensures { OnOk result (out.new.items ≡ out.old.items ++ cut_of inner.now) }
{
    if is_short(inner) {
        Ok(())
    } else {
        out.extend_from_slice(b"..")
    }
}

fn within_quotes(told: &[u8]) -> &[u8]
    ensures { result.now ≡ within_quotes told.now }
{
    if told.len() < 2 {
        told
    } else {
        &told[1..told.len() - 1]
    }
}

/// Whether a text with this quoted form can't have been truncated.
#[tactic(auto, using(crate::proofs::Lengths::length_first))]
fn is_short(inner: &[u8]) -> bool
    ensures { result ≡ nat_lt (told_length inner.now) 1021 }
{
    let mut count = 0;
    let mut rest = inner;
    'bytes: while let [b, more @ ..] = rest {
        count += 1;
        if count == MAYBE_CUT {
            return false;
        }
        rest = after_byte(*b, more);
    }
    true
}

/// What follows a byte, and the byte that it escapes.
fn after_byte(b: u8, more: &[u8]) -> &[u8]
    ensures { result.now ≡ after_byte b more.now }
{
    match more {
        [_, after @ ..] if b == b'\\' => after,
        _ => more,
    }
}

/// Appends the elements of a list, which was reported with broken bars between them.
fn push_elements(out: &mut Vec<u8>, inner: &[u8]) -> Result<(), NoMemory>
    ensures { OnOk result (out.new.items ≡ out.old.items ++ elements_of inner.now) }
{
    if inner.is_empty() {
        return Ok(());
    }
    out.push(b'"')?;
    push_parted(out, inner)?;
    out.push(b'"')?;
    Ok(())
}

/// Appends bytes, with a closing and an opening quote in place of each broken bar.
fn push_parted(out: &mut Vec<u8>, inner: &[u8]) -> Result<(), NoMemory>
    ensures { OnOk result (out.new.items ≡ out.old.items ++ parted inner.now) }
{
    let mut rest = inner;
    'bytes: while let [b, more @ ..] = rest {
        match more {
            [0xa6, after @ ..] if *b == 0xc2 => {
                out.extend_from_slice(b"\", \"")?;
                rest = after;
            }
            _ => {
                out.push(*b)?;
                rest = more;
            }
        }
    }
    Ok(())
}
