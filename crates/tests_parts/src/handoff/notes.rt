//! Notes as bytes: their bytes as they were written elsewhere, each prefix of them, each byte raised, and fields that
//! can't be.

use crate::shown::Shown;
use crate::words::{byte, parted, short};
use lsl_handoff::{Note, NoteFault, NoteKind, Parcel, read_note, write_note};
use lsl_text::Refusal;
use sha2::{Digest, Sha256};
use std::alloc::{AllocError, Global};

/// How many objects and regions there are.
const OBJECTS: u32 = 2;

const REGIONS: u32 = 3;

type Answer = Result<Note, Refusal<NoteFault>>;

pub fn tell(told: &mut Shown, word: &str, rest: &str) -> Result<(), AllocError> {
    match word {
        "hex" => there_and_back(told, rest),
        "length" => length(told, rest),
        "prefix" => prefix(told, rest),
        "raised" => raised(told, rest),
        kind => changed(told, kind, rest),
    }
}

fn read(alloc: Global, bytes: &[u8]) -> Answer {
    read_note(alloc, bytes, OBJECTS, REGIONS)
}

/// What is read: the note in words, or the fault.
fn tell_answer(told: &mut Shown, answer: Answer) -> Result<(), AllocError> {
    match answer {
        Ok(note) => tell_note(told, &note),
        Err(Refusal::Fault(fault)) => told.debug(&fault),
        Err(Refusal::NoMemory) => return Err(AllocError),
    }
    Ok(())
}

fn tell_note(told: &mut Shown, note: &Note) {
    told.debug(&note.kind);
    told.add(" ");
    told.put(&note.object);
    told.add(" ");
    told.put(&note.trip);
    told.add(" ");
    told.put(&note.from);
    told.add(" ");
    told.put(&note.to);
    told.add(" ");
    told.debug(&note.parcel.bytes());
}

/// The note of these bytes in hexadecimal, and whether it is written as they are.
fn there_and_back(told: &mut Shown, hexed: &str) -> Result<(), AllocError> {
    let bytes = hex::decode(told.alloc(), hexed).unwrap_or(Vec::new(told.alloc()));
    match read(told.alloc(), bytes.as_slice()) {
        Ok(note) => tell_written(told, &note, bytes.as_slice()),
        answer => tell_answer(told, answer),
    }
}

fn tell_written(told: &mut Shown, note: &Note, bytes: &[u8]) -> Result<(), AllocError> {
    tell_note(told, note);
    let written = write_note(told.alloc(), note)?;
    if written.as_slice() != bytes {
        told.add(" written otherwise");
    }
    Ok(())
}

/// The bytes of a note of this kind with a parcel of this many bytes.
fn made(alloc: Global, kind: &str, count: usize) -> Result<Vec<u8>, AllocError> {
    let mut parcel = Vec::new(alloc);
    for i in 0..count {
        parcel.push((i % 256) as u8)?;
    }
    let note = Note {
        kind: kind_of(kind),
        object: 1,
        trip: 1,
        from: 1,
        to: 2,
        parcel: Parcel::from_vec(parcel),
    };
    write_note(alloc, &note)
}

fn kind_of(word: &str) -> NoteKind {
    match word {
        "offer" => NoteKind::Offer,
        "cancel" => NoteKind::Cancel,
        _ => NoteKind::Taken,
    }
}

/// How many bytes a note has: `KIND COUNT`.
fn length(told: &mut Shown, asked: &str) -> Result<(), AllocError> {
    let (kind, count) = parted(asked, " ");
    let bytes = made(told.alloc(), kind, short(count))?;
    told.put(&bytes.len());
    Ok(())
}

/// What is read of the first bytes of an offer of 238.
fn prefix(told: &mut Shown, count: &str) -> Result<(), AllocError> {
    let bytes = made(told.alloc(), "offer", 238)?;
    let end = short(count).min(bytes.len());
    let answer = read(told.alloc(), &bytes[..end]);
    tell_answer(told, answer)
}

/// Which fault an offer of 238 has where a byte is one more.
fn raised(told: &mut Shown, place: &str) -> Result<(), AllocError> {
    let mut bytes = made(told.alloc(), "offer", 238)?;
    if let Some(byte) = bytes.get_mut(short(place)) {
        *byte = byte.wrapping_add(1);
    }
    let answer = read(told.alloc(), bytes.as_slice());
    tell_fault(told, answer)
}

/// The word of a fault.
fn tell_fault(told: &mut Shown, answer: Answer) -> Result<(), AllocError> {
    let mut whole = Shown::new(told.alloc());
    tell_answer(&mut whole, answer)?;
    let text = whole.into_text()?;
    let (word, _rest) = parted(text.as_str(), " ");
    told.add(word);
    Ok(())
}

/// An offer of three bytes or an answer with another byte at a place, and the digest made right: `PLACE BYTE`.
fn changed(told: &mut Shown, kind: &str, asked: &str) -> Result<(), AllocError> {
    let (place, other) = parted(asked, " ");
    let count = if kind == "offer" { 3 } else { 0 };
    let mut bytes = made(told.alloc(), kind, count)?;
    change(bytes.as_mut_slice(), short(place), byte(other));
    let answer = read(told.alloc(), bytes.as_slice());
    tell_answer(told, answer)
}

/// Puts another byte at a place, and the digest of that.
fn change(bytes: &mut [u8], place: usize, byte: u8) {
    if place >= bytes.len() || bytes.len() < 32 {
        return;
    }
    bytes[place] = byte;
    let end = bytes.len() - 32;
    let mut hasher = Sha256::new();
    hasher.update(&bytes[..end]);
    let digest = hasher.finalize();
    bytes[end..].copy_from_slice(&digest);
}
