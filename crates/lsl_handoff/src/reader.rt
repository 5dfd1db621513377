//! Notes, read from bytes.

ghost use Rattle.std.specs.Prelude.{◌≡◌, ◌≤◌, ◌+◌, length, Option, Some, None, slice_index, true, false, IfErr, IfOk, MatchBool, MatchOption, MatchResult};
ghost use Rattle.lsl_text.specs.declared.Refusal.TheVariants.{Fault};
ghost use Rattle.lsl_handoff.specs.declared.faults.NoteFault.{NoteFault as AFault};
ghost use Rattle.lsl_handoff.specs.declared.faults.NoteFault.TheVariants.{Body};
ghost use Rattle.lsl_handoff.specs.declared.note.Note.{Note as ANote};
ghost use Rattle.lsl_handoff.specs.NoteBytes.{IsNoteOf};
ghost use Rattle.lsl_handoff.specs.NoteFaults.{GivesThat, IsRefusedBy, RefusesWith, end_fault, first_fault, head_fault, is_kind, is_one_of, kind_of, u32_at};
ghost use Rattle.lsl_handoff.specs.Reading.{head_in, note_in, parcel_in};

use crate::faults::{NoteFault, wrong};
use crate::note::{Note, NoteKind};
use crate::parcel::Parcel;
use crate::seal::{open, part_at};
use lsl_text::Refusal;
use std::alloc::Global;

/// The letters that a note begins with.
const LETTERS: [u8; 4] = *b"LSLN";

/// The version of notes.
const VERSION: u16 = 1;

/// The fields of a note, without its parcel.
#[derive(Clone, Copy)]
struct Head {
    kind: NoteKind,
    object: u32,
    trip: u64,
    from: u32,
    to: u32,
}

/// The note of these bytes, about one of `objects` objects and among `regions` regions, or the first fault of the
/// bytes.
///
/// Walks the bytes once, and once more for their digest; takes memory for an offer's parcel alone, which is copied.
pub fn read_note(
    alloc: Global,
    bytes: &[u8],
    objects: u32,
    regions: u32,
) -> Result<Note, Refusal<NoteFault>>
    ensures found { IfOk result (λ note. IsNoteOf objects regions bytes.now note) }
    ensures every { (note : ANote) → IsNoteOf objects regions bytes.now note → GivesThat result note }
    ensures first { IfErr result (IsRefusedBy (λ fault. first_fault bytes.now objects regions ≡ Some fault)) }
    ensures only { (fault : AFault) → first_fault bytes.now objects regions ≡ Some fault → RefusesWith result fault }
{
    parse(alloc, bytes, objects, regions)
}

// The note in the bytes, if nothing is wrong with them.
fn parse(
    alloc: Global,
    bytes: &[u8],
    objects: u32,
    regions: u32,
) -> Result<Note, Refusal<NoteFault>>
    ensures { MatchResult result
        (λ note. (first_fault bytes.now objects regions ≡ None) × (note ≡ note_in bytes.now))
        (IsRefusedBy (λ fault. first_fault bytes.now objects regions ≡ Some fault)) }
{
    let fields = open(bytes)?;
    let head = read_head(fields, objects, regions)?;
    let parcel = read_parcel(alloc, fields, head.kind)?;
    Ok(Note {
        kind: head.kind,
        object: head.object,
        trip: head.trip,
        from: head.from,
        to: head.to,
        parcel,
    })
}

// The fields up to the parcel.
fn read_head(fields: &[u8], objects: u32, regions: u32) -> Result<Head, Refusal<NoteFault>>
    requires { 35 ≤ length fields.now }
    ensures { MatchResult result
        (λ head. (head ≡ head_in fields.now)
        × ((next : Option AFault) → head_fault fields.now objects regions next ≡ next))
        (IsRefusedBy (λ fault. (next : Option AFault) → head_fault fields.now objects regions next ≡ Some fault)) }
{
    if part_at(fields, 0) != LETTERS {
        return Err(wrong(0));
    }
    let version = u16::from_be_bytes(part_at(fields, 4));
    if version != VERSION {
        return Err(Refusal::Fault(NoteFault::Version(version)));
    }
    let Some(kind) = kind_of(fields[14]) else {
        return Err(wrong(14));
    };
    Ok(Head {
        kind,
        object: read_number(fields, 15, objects)?,
        trip: u64::from_be_bytes(part_at(fields, 19)),
        from: read_number(fields, 27, regions)?,
        to: read_number(fields, 31, regions)?,
    })
}

// The kind of this number.
fn kind_of(n: u8) -> Option<NoteKind>
    ensures { MatchOption result (is_kind n ≡ false) (λ kind. (is_kind n ≡ true) × (kind ≡ kind_of n)) }
{
    match n {
        1 => Some(NoteKind::Offer),
        2 => Some(NoteKind::Taken),
        3 => Some(NoteKind::Cancel),
        4 => Some(NoteKind::Refused),
        _ => None,
    }
}

// A number from 1 to `most`.
fn read_number(fields: &[u8], place: usize, most: u32) -> Result<u32, Refusal<NoteFault>>
    requires { place + 4 ≤ length fields.now }
    ensures { MatchResult result (λ n. (n ≡ u32_at fields.now place) × (is_one_of most n ≡ true))
        (λ refusal. (refusal ≡ Fault (Body place)) × (is_one_of most (u32_at fields.now place) ≡ false)) }
{
    let n = u32::from_be_bytes(part_at(fields, place));
    if n == 0 || n > most {
        return Err(wrong(place as u64));
    }
    Ok(n)
}

// The parcel of an offer, up to the end of the fields. Of another note they end before it.
fn read_parcel(alloc: Global, fields: &[u8], kind: NoteKind) -> Result<Parcel, Refusal<NoteFault>>
    requires { 35 ≤ length fields.now }
    ensures { MatchResult result
        (λ parcel. (end_fault kind fields.now ≡ None) × (parcel ≡ parcel_in kind fields.now))
        (IsRefusedBy (λ fault. end_fault kind fields.now ≡ Some fault)) }
{
    if !ends_well(fields, kind) {
        return Err(wrong(35));
    }
    match kind {
        NoteKind::Offer => Ok(Parcel::from_vec(Vec::from_slice(alloc, &fields[43..])?)),
        NoteKind::Taken | NoteKind::Cancel | NoteKind::Refused => Ok(Parcel::empty()),
    }
}

// Whether an offer's count is that of the bytes after it, and another note ends where it should.
fn ends_well(fields: &[u8], kind: NoteKind) -> bool
    requires { 35 ≤ length fields.now }
    ensures { MatchBool result (end_fault kind fields.now ≡ None) (end_fault kind fields.now ≡ Some (Body 35)) }
{
    match kind {
        NoteKind::Offer => {
            fields.len() >= 43
                && u64::from_be_bytes(part_at(fields, 35)) == fields.len() as u64 - 43
        }
        NoteKind::Taken | NoteKind::Cancel | NoteKind::Refused => fields.len() == 35,
    }
}
