//! Where the lines of a text begin.

ghost use Rattle.std.specs.Prelude.{◌≡◌, ◌⊎◌, ◌+◌, ◌-◌, ◌∷◌, ◌≤◌, ◌<◌, List, ℕ, length, drop, slice_index, IfOk, OnOk};
ghost use Rattle.std.specs.Str.Lines.{lines};
ghost use Rattle.lsl_notes.specs.Places.{ArePlaces, HavePlaces, IsPlace};

use lsl_text::NoMemory;
use std::alloc::Global;

/// How many lines a text has, and where lines 0, 8, 16 and so on begin: a quarter of a byte for each line.
#[derive(Drop)]
pub(crate) struct Places {
    pub(crate) eighths: Vec<u16>,
    pub(crate) count: u32,
}

/// The places of this text's lines. Walks it once.
pub(crate) fn places_of(alloc: Global, text: &str) -> Result<Places, NoMemory>
    requires { length text.now ≤ 65536 }
    ensures { IfOk result (λ places. ArePlaces text.now places.eighths.items places.count) }
{
    let bytes = text.as_bytes();
    let mut eighths = Vec::new(alloc);
    let mut count = 0;
    let mut place = 0;
    while place < bytes.len() {
        add(&mut eighths, count, place)?;
        place += line_length(&bytes[place..]);
        count += 1;
    }
    Ok(Places { eighths, count })
}

// Adds the place of this line, if it is one of each eight.
fn add(eighths: &mut Vec<u16>, line: u32, place: usize) -> Result<(), NoMemory>
    requires { place < 65536 }
    ensures { OnOk result ((text : List ℕ) → IsPlace text line place → HavePlaces text eighths.old.items line
        → HavePlaces text eighths.new.items (line + 1)) }
{
    if line % 8 == 0 {
        eighths.push(place as u16)?;
    }
    Ok(())
}

// How many bytes the first line has, with its line feed.
fn line_length(bytes: &[u8]) -> usize
    requires { 0 < length bytes.now }
    ensures some { 0 < result }
    ensures within { result ≤ length bytes.now }
    ensures first { (line : List ℕ) × (lines bytes.now ≡ line ∷ lines (drop result bytes.now)) }
    ensures ends { (result ≡ length bytes.now) ⊎ (slice_index bytes.now (result - 1) ≡ 10) }
{
    match bytes.iter().position(|b| *b == b'\n') {
        Some(feed) => feed + 1,
        None => bytes.len(),
    }
}
