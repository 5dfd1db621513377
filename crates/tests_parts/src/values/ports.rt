//! The outside in memory: files read, bytes written, and calls that fail.

use crate::shown::Shown;
use crate::words::{byte, long, parted, short};
use lsl_ports::{
    Damage, Link, MemoryLink, MemoryShelf, MemorySink, Replacement, Shelf, Sink, StoredFile,
    StoredTrip, read_all, write_all,
};
use std::alloc::{AllocError, Global};

pub fn tell(told: &mut Shown, word: &str, rest: &str) -> Result<(), AllocError> {
    match word {
        "shelf" => shelf(told, rest)?,
        "write" => write_text(told, rest)?,
        "sink" => sink(told, rest)?,
        "link" => link(told, rest)?,
        _ => told.add("no such row"),
    }
    Ok(())
}

/// The calls that are to fail, by their numbers.
fn numbers(alloc: Global, words: &str) -> Result<Vec<u64>, AllocError> {
    let mut numbers = Vec::new(alloc);
    for word in words.split_whitespace() {
        numbers.push(long(word))?;
    }
    Ok(numbers)
}

/// A file `a` of this many letters, a file `b`, and another one of the name `a`.
fn files(alloc: Global, size: usize) -> Result<Vec<StoredFile>, AllocError> {
    let mut files = Vec::new(alloc);
    add_files(alloc, &mut files, size)?;
    Ok(files)
}

fn add_files(alloc: Global, files: &mut Vec<StoredFile>, size: usize) -> Result<(), AllocError> {
    let letters = vec![in alloc; b'x'; size]?;
    files.push(StoredFile::new(alloc, "a", letters.as_slice())?)?;
    files.push(StoredFile::new(alloc, "b", b"second")?)?;
    files.push(StoredFile::new(alloc, "a", b"hidden")?)?;
    Ok(())
}

/// Reads files, and then shows their faults: `SIZE FAILING: NAME LIMIT, NAME LIMIT`.
fn shelf(told: &mut Shown, asked: &str) -> Result<(), AllocError> {
    let alloc = told.alloc();
    let (made, reads) = parted(asked, ": ");
    let (size, failing) = parted(made, " ");
    let mut shelf = MemoryShelf::new(alloc, files(alloc, short(size))?, numbers(alloc, failing)?)?;
    let read = tell_reads(told, &mut shelf, reads);
    tell_faults(told, &shelf);
    read
}

fn tell_reads(told: &mut Shown, shelf: &mut MemoryShelf, reads: &str) -> Result<(), AllocError> {
    for read in reads.split(", ") {
        tell_read(told, shelf, read)?;
    }
    Ok(())
}

fn tell_faults(told: &mut Shown, shelf: &MemoryShelf) {
    told.put(&shelf.fault_count("a"));
    told.add(" ");
    told.put(&shelf.fault_count("b"));
    told.add(" ");
    told.put(&shelf.fault_count("c"));
}

/// What is found of a file to a limit, or the result of a single read into no room: `NAME LIMIT` or `NAME @PLACE`.
fn tell_read(told: &mut Shown, shelf: &mut MemoryShelf, read: &str) -> Result<(), AllocError> {
    let (name, limit) = parted(read, " ");
    if let Some(place) = limit.strip_prefix('@') {
        told.debug(&shelf.read(name, long(place), &mut []));
        told.add("; ");
        return Ok(());
    }
    match read_all(told.alloc(), shelf, name, long(limit)) {
        Ok(found) => tell_found(told, found.as_slice()),
        Err(fault) => told.debug(&fault),
    }
    told.add("; ");
    Ok(())
}

/// Shows how many bytes were found, and the first of them.
fn tell_found(told: &mut Shown, found: &[u8]) {
    let text = std::str::from_utf8(found).unwrap_or("no text");
    let (prefix, _rest) = text.split_at_checked(6).unwrap_or((text, ""));
    told.put(&found.len());
    told.add(" ");
    told.add(prefix);
}

/// Whether all of a text is written, what was, and how many calls failed: `ROOM FAILING: TEXT`.
fn write_text(told: &mut Shown, asked: &str) -> Result<(), AllocError> {
    let (made, text) = parted(asked, ": ");
    let mut sink = sink_of(told.alloc(), made)?;
    told.put(&write_all(&mut sink, text.as_bytes()).is_ok());
    told.add(" ");
    tell_sunk(told, &sink);
    Ok(())
}

/// What each write answers, what was written, and how many calls failed: `ROOM FAILING: TEXT,TEXT`.
fn sink(told: &mut Shown, asked: &str) -> Result<(), AllocError> {
    let (made, pieces) = parted(asked, ": ");
    let mut sink = sink_of(told.alloc(), made)?;
    for piece in pieces.split(',') {
        told.debug(&sink.write(piece.as_bytes()));
        told.add(" ");
    }
    tell_sunk(told, &sink);
    Ok(())
}

/// A sink: its room, after a sign the most that one call takes, and the calls that fail.
fn sink_of(alloc: Global, made: &str) -> Result<MemorySink, AllocError> {
    let (room, failing) = parted(made, " ");
    let failing = numbers(alloc, failing)?;
    match room.split_once('/') {
        Some((room, most)) => {
            MemorySink::with_most(alloc, short(room), short(most).max(1), failing)
        }
        None => MemorySink::new(alloc, short(room), failing),
    }
}

fn tell_sunk(told: &mut Shown, sink: &MemorySink) {
    told.add(std::str::from_utf8(sink.as_bytes()).unwrap_or("no text"));
    told.add(" ");
    told.put(&sink.fault_count());
}

/// What each carrying brings back, then what each trip keeps, and how many calls failed: `FAILING: TEXT,TEXT`. After
/// the calls that fail there may be `| damages | replacements`.
fn link(told: &mut Shown, asked: &str) -> Result<(), AllocError> {
    let (made, pieces) = parted(asked, ": ");
    let mut link = link_of(told.alloc(), made)?;
    for piece in pieces.split(',') {
        tell_carried(told, &mut link, piece.as_bytes());
    }
    for trip in link.trips() {
        tell_trip(told, trip);
    }
    told.put(&link.fault_count());
    Ok(())
}

fn tell_carried(told: &mut Shown, link: &mut MemoryLink, piece: &[u8]) {
    match link.carry(told.alloc(), piece) {
        Ok(back) => tell_found(told, back.as_slice()),
        Err(fault) => told.debug(&fault),
    }
    told.add("; ");
}

fn link_of(alloc: Global, made: &str) -> Result<MemoryLink, AllocError> {
    match made.split_once(" | ") {
        Some((failing, lists)) => {
            let (damages, replacements) = parted(lists, " | ");
            let damages = damages_of(alloc, damages)?;
            let replacements = replacements_of(alloc, replacements)?;
            let failing = numbers(alloc, failing)?;
            Ok(MemoryLink::with_lists(alloc, failing, damages, replacements))
        }
        None => Ok(MemoryLink::new(alloc, numbers(alloc, made)?)),
    }
}

/// Damages, each as `CALL.PLACE.BYTE`.
fn damages_of(alloc: Global, words: &str) -> Result<Vec<Damage>, AllocError> {
    let mut damages = Vec::new(alloc);
    for word in words.split_whitespace() {
        let (call, rest) = parted(word, ".");
        let (place, changed) = parted(rest, ".");
        damages.push(Damage::new(long(call), short(place), byte(changed)))?;
    }
    Ok(damages)
}

/// Replacements, each as `CALL.TEXT`.
fn replacements_of(alloc: Global, words: &str) -> Result<Vec<Replacement>, AllocError> {
    let mut replacements = Vec::new(alloc);
    for word in words.split_whitespace() {
        let (call, text) = parted(word, ".");
        let bytes = text.as_bytes().to_vec(alloc)?;
        replacements.push(Replacement::new(long(call), bytes))?;
    }
    Ok(replacements)
}

/// What was sent, and what came back of it.
fn tell_trip(told: &mut Shown, trip: &StoredTrip) {
    tell_found(told, trip.sent());
    told.add("; ");
    match trip.back() {
        Some(back) => tell_found(told, back),
        None => told.add("nothing"),
    }
    told.add("; ");
}
