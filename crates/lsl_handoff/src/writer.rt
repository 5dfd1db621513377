//! Notes, written as bytes.

ghost use Rattle.std.specs.Prelude.{◌≡◌, ◌<◌, ◌+◌, ◌^◌, ◌++◌, length, IfOk, OnOk};
ghost use Rattle.lsl_handoff.specs.NoteBytes.{fields_bytes, head_bytes, kind_number, note_bytes, parcel_bytes};

use crate::note::{Note, NoteKind};
use crate::seal::{DIGEST_BYTES, digest_of};
use lsl_bytes::{push_u8, push_u16, push_u32, push_u64};
use lsl_text::NoMemory;
use std::alloc::Global;

/// The version of the notes that are written.
const VERSION: u16 = 1;

/// The number of bytes before the parcel.
const FIXED_BYTES: u64 = 35;

/// The number of bytes of an offer's count.
const COUNT_BYTES: u64 = 8;

/// The bytes of a note: 67, and for an offer 8 and its parcel's more. Walks the note once, and its bytes once for
/// their digest. A parcel of another note than an offer isn't written.
pub fn write_note(alloc: Global, note: &Note) -> Result<Vec<u8>, NoMemory>
    ensures { IfOk result (λ bytes. bytes.items ≡ note_bytes note.now) }
{
    let size = size_of(note);
    let mut out = Vec::with_capacity(alloc, size as usize)?;
    write_head(&mut out, size)?;
    write_fields(&mut out, note)?;
    let digest = digest_of(out.as_slice());
    out.extend_from_slice(digest.as_slice())?;
    Ok(out)
}

// How many bytes the note has.
fn size_of(note: &Note) -> u64
    ensures { result ≡ 14 + length (fields_bytes note.now) + 32 }
{
    FIXED_BYTES + parcel_size(note) + DIGEST_BYTES as u64
}

// How many bytes the parcel of an offer has, with its count.
fn parcel_size(note: &Note) -> u64
    ensures size { result ≡ length (parcel_bytes note.now.kind note.now.parcel) }
    ensures within { result < 2 ^ 63 + 8 }
{
    match note.kind {
        NoteKind::Offer => COUNT_BYTES + note.parcel.bytes().len() as u64,
        NoteKind::Taken | NoteKind::Cancel | NoteKind::Refused => 0,
    }
}

// Appends the letters, the version and the size of the whole.
#[tactic(auto, unfolding(crate::specs::NoteBytes::head_bytes))]
fn write_head(out: &mut Vec<u8>, size: u64) -> Result<(), NoMemory>
    ensures { OnOk result (out.new.items ≡ out.old.items ++ head_bytes size) }
{
    out.extend_from_slice(b"LSLN")?;
    push_u16(out, VERSION)?;
    push_u64(out, size)
}

// Appends the fields.
#[tactic(auto, unfolding(crate::specs::NoteBytes::fields_bytes))]
fn write_fields(out: &mut Vec<u8>, note: &Note) -> Result<(), NoMemory>
    ensures { OnOk result (out.new.items ≡ out.old.items ++ fields_bytes note.now) }
{
    push_u8(out, number_of(note.kind))?;
    push_u32(out, note.object)?;
    push_u64(out, note.trip)?;
    push_u32(out, note.from)?;
    push_u32(out, note.to)?;
    write_parcel(out, note)
}

// The number of a kind.
fn number_of(kind: NoteKind) -> u8
    ensures { result ≡ kind_number kind }
{
    match kind {
        NoteKind::Offer => 1,
        NoteKind::Taken => 2,
        NoteKind::Cancel => 3,
        NoteKind::Refused => 4,
    }
}

// Appends the count of an offer's parcel, and its bytes.
fn write_parcel(out: &mut Vec<u8>, note: &Note) -> Result<(), NoMemory>
    ensures { OnOk result (out.new.items ≡ out.old.items ++ parcel_bytes note.now.kind note.now.parcel) }
{
    match note.kind {
        NoteKind::Offer => {
            let parcel = note.parcel.bytes();
            push_u64(out, parcel.len() as u64)?;
            out.extend_from_slice(parcel)
        }
        NoteKind::Taken | NoteKind::Cancel | NoteKind::Refused => Ok(()),
    }
}
