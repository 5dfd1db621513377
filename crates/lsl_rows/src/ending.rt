//! How the command of a case ends.
ghost use Rattle.std.specs.Prelude.{◌<◌};

use lsl_cases::{Case, Ending, Player, bytes_of};
use lsl_ports::{Damage, MemoryLink, MemoryShelf, MemorySink, Replacement, StoredFile, StoredTrip};
use lsl_top::lsl;
use std::alloc::{AllocError, Global};
use std::io;
use std::rt::Files;

/// The faults of a case that names none: no read or write fails, and the sink has room.
const CALM: &str = "0 0 1000000";

/// Plays a command over a shelf, a sink and a link in memory.
#[derive(Clone, Copy)]
pub struct Memory;

impl<R: Files + AllocGlobal> Player<R> for Memory {
    fn ending(&self, rt: &R, case: Case<'_>) -> io::Result<Ending> {
        let (words, troubles) = case
            .command
            .split_once(" ! ")
            .unwrap_or((case.command, CALM));
        let words = words_of(rt.alloc(), words)?;
        let files = files_of(rt, case.files)?;
        Ok(played(rt.alloc(), words, files, troubles)?)
    }
}

/// The words of a command, with blanks between. `""` is the empty word, and `\s` is a blank in a word.
fn words_of(alloc: Global, text: &str) -> Result<Vec<String>, AllocError> {
    let mut words = Vec::new(alloc);
    for word in text.split(' ') {
        if word == "\"\"" {
            words.push(String::new(alloc))?;
        } else if !word.is_empty() {
            words.push(word.replace(alloc, "\\s", " ")?)?;
        }
    }
    Ok(words)
}

/// The files of a case: the name of each, and the lines of its bytes.
fn files_of<R: Files + AllocGlobal>(rt: &R, text: &str) -> io::Result<Vec<StoredFile>> {
    let mut files = Vec::new(rt.alloc());
    if !text.is_empty() {
        for file in text.split("\n@ ") {
            let (name, lines) = file.split_once('\n').unwrap_or((file, ""));
            let bytes = bytes_of(rt, lines)?;
            files.push(StoredFile::new(rt.alloc(), name, bytes.as_slice())?)?;
        }
    }
    Ok(files)
}

/// Plays a command over files. The troubles are the read and the write that fail, counted from 1, the sink's room, and
/// what else a case says of the sink and the link.
fn played(
    alloc: Global,
    words: Vec<String>,
    files: Vec<StoredFile>,
    troubles: &str,
) -> Result<Ending, AllocError> {
    let mut numbers = troubles.split(' ');
    let failing_reads = vec![in alloc; number(numbers.next())]?;
    let failing_writes = vec![in alloc; number(numbers.next())]?;
    let room = number(numbers.next()) as usize;
    let most = most_of(troubles);
    let mut shelf = MemoryShelf::new(alloc, files, failing_reads)?;
    let mut sink = MemorySink::with_most(alloc, room, most, failing_writes)?;
    let mut link = link_of(alloc, troubles)?;
    let status = lsl(alloc, words.as_slice(), &mut shelf, &mut sink, &mut link);
    let mut told = match (named_faults(words.as_slice(), &shelf), sink.fault_count()) {
        (0, 0) => format!(in alloc; "{}", status.number())?,
        // that a file isn't there is said by the status
        (_, 0) if troubles == CALM => format!(in alloc; "{}", status.number())?,
        (reads, writes) => format!(in alloc; "{} {reads} {writes}", status.number())?,
    };
    if troubles.contains(" link") {
        for trip in link.trips() {
            tell_trip(trip, &mut told)?;
        }
    }
    Ok(Ending {
        status: told,
        written: Vec::from_slice(alloc, sink.as_bytes())?,
    })
}

/// The greatest count of bytes that one write takes: the one after `most:`, or any.
fn most_of(troubles: &str) -> usize
    ensures { 0 < result }
{
    match troubles.split_once(" most:") {
        Some((_, rest)) => (number(rest.split(' ').next()) as usize).max(1),
        None => usize::MAX,
    }
}

/// The link of a case: after `link` come the numbers of the calls that fail, damages as `CALL.PLACE.BYTE`, and
/// replacements as `CALL=HEX`.
fn link_of(alloc: Global, troubles: &str) -> Result<MemoryLink, AllocError> {
    let mut failing = Vec::new(alloc);
    let mut damages = Vec::new(alloc);
    let mut replacements = Vec::new(alloc);
    if let Some((_, told)) = troubles.split_once(" link ") {
        for word in told.split(' ') {
            if let Some((call, bytes)) = word.split_once('=') {
                let bytes = hex::decode(alloc, bytes.as_bytes()).unwrap_or(Vec::new(alloc));
                replacements.push(Replacement::new(number(Some(call)), bytes))?;
            } else if let Some((call, place)) = word.split_once('.') {
                damages.push(damage_of(call, place))?;
            } else {
                failing.push(number(Some(word)))?;
            }
        }
    }
    Ok(MemoryLink::with_lists(alloc, failing, damages, replacements))
}

/// The damage that `PLACE.BYTE` says, of that call.
fn damage_of(call: &str, place: &str) -> Damage {
    let (place, byte) = place.split_once('.').unwrap_or((place, ""));
    let byte = byte.parse::<u8>().unwrap_or(0);
    Damage::new(number(Some(call)), number(Some(place)) as usize, byte)
}

/// Writes the number of bytes sent, and whether the same came back (`=`), others (`/`) or nothing (`-`).
fn tell_trip(trip: &StoredTrip, told: &mut String) -> Result<(), AllocError> {
    let sign = match trip.back() {
        Some(back) if back == trip.sent() => '=',
        Some(_) => '/',
        None => '-',
    };
    write!(told, " {}{sign}", trip.sent().len())
}

/// How many reads failed of the file that is named last.
fn named_faults(words: &[String], shelf: &MemoryShelf) -> u64 {
    match words.last() {
        Some(name) => shelf.fault_count(name.as_str()),
        None => 0,
    }
}

/// The number that a word means. A word that isn't a number is 0, and its case fails by what it says.
fn number(word: Option<&str>) -> u64 {
    word.unwrap_or("0").parse::<u64>().unwrap_or(0)
}
