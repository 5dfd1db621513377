//! The pairs of an object's store.

ghost use Rattle.std.specs.Prelude.{◌≡◌, ◌+◌, ◌≤◌, ◌<◌, ◌&&◌, [], nat_le, nat_lt, not, length, sum_by, IfOk};
ghost use Rattle.std.specs.Cmp.Lexicographic.{slice_cmp};
ghost use Rattle.std.specs.Ordering.{is_lt, nat_cmp};
ghost use Rattle.std.specs.Str.{encode_utf8_all};
ghost use Rattle.lsl_image.specs.Layout.{grown};
ghost use Rattle.lsl_image.specs.Object.{is_above, pair_behind, pair_bytes, store};
ghost use Rattle.lsl_image.specs.Reading.{Reads};

use crate::faults::wrong;
use crate::fields::{Read, read_text, read_u16};
use crate::parts::Pairs;
use lsl_post::Pair;
use lsl_value::Text;
use std::alloc::Global;

/// How many bytes the texts of a store have at most.
const MOST_STORE_BYTES: usize = 65_536;

/// The pairs of an object's store, with names in byte order: version 1 has none.
pub fn read_store(alloc: Global, bytes: &[u8], place: usize, version: u16) -> Read<Pairs>
    ensures { Reads bytes.now (store version) place result }
{
    if version == 1 {
        return Ok((Pairs::new(alloc), place));
    }
    let (count, next) = read_u16(bytes, place)?;
    read_pairs(alloc, bytes, next, count)
}

// Pairs, `count` of them, each after those before it.
fn read_pairs(alloc: Global, bytes: &[u8], place: usize, count: u16) -> Read<Pairs>
    ensures { Reads bytes.now (grown count pair_behind []) place result }
{
    let mut pairs = Pairs::new(alloc);
    let mut room = MOST_STORE_BYTES;
    let mut next = place;
    for i in 0..count {
        let (pair, behind) = read_pair(alloc, bytes, next, pairs.as_slice(), room)?;
        room -= length_of(&pair);
        pairs.push(pair)?;
        next = behind;
    }
    Ok((pairs, next))
}

// A pair after these, which leave `room` bytes: its name is above the last one.
fn read_pair(alloc: Global, bytes: &[u8], place: usize, before: &[Pair], room: usize) -> Read<Pair>
    requires { sum_by pair_bytes before.now + room ≡ 65536 }
    ensures read { Reads bytes.now (pair_behind before.now) place result }
    ensures room { IfOk result (λ read. pair_bytes read.0 ≤ room) }
{
    let (name, middle) = read_text(alloc, bytes, place)?;
    if !is_new_name(&name, before) {
        return Err(wrong(place));
    }
    let (value, next) = read_text(alloc, bytes, middle)?;
    let pair = Pair { name, value };
    if !fits(&pair, room) {
        return Err(wrong(place));
    }
    Ok((pair, next))
}

// Whether the value isn't empty, and the pair fits in `room` bytes.
fn fits(pair: &Pair, room: usize) -> bool
    ensures { result ≡ (nat_lt 0 (length pair.now.value) && nat_le (pair_bytes pair.now) room) }
{
    !is_empty(&pair.value) && length_of(pair) <= room
}

// How many bytes the texts of the pair have.
fn length_of(pair: &Pair) -> usize
    ensures value { result ≡ pair_bytes pair.now }
    ensures within { result ≤ 2097152 }
{
    pair.name.bytes().len() + pair.value.bytes().len()
}

// Whether the name isn't empty, and is above the last of these.
fn is_new_name(name: &Text, before: &[Pair]) -> bool
    ensures { result ≡ (nat_lt 0 (length name.now) && is_above name.now before.now) }
{
    !is_empty(name) && is_above_last(name, before)
}

fn is_above_last(name: &Text, before: &[Pair]) -> bool
    ensures { result ≡ is_above name.now before.now }
{
    match before.last() {
        Some(last) => is_below(&last.name, name),
        None => true,
    }
}

// Whether a text comes before another in the order of their bytes.
fn is_below(low: &Text, high: &Text) -> bool
    ensures { result ≡ is_lt (slice_cmp nat_cmp (encode_utf8_all low.now) (encode_utf8_all high.now)) }
{
    low.bytes().cmp(high.bytes()).is_lt()
}

fn is_empty(text: &Text) -> bool
    ensures { result ≡ not (nat_lt 0 (length text.now)) }
{
    text.bytes().is_empty()
}
