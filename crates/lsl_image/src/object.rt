//! Objects, after the head of an image.

ghost use Rattle.std.specs.Prelude.{◌≡◌, ◌==◌, [], length, slice_get};
ghost use Rattle.lsl_image.specs.Layout.{Bytes, TextForm, U16, U8, each, field, field_that, repeated};
ghost use Rattle.lsl_image.specs.Object.{are_these, body, key_bytes, script_of};
ghost use Rattle.lsl_image.specs.Reading.{Reads};

use crate::faults::wrong;
use crate::fields::{Read, read_array, read_text, read_u8, read_u16};
use crate::parts::{ObjectParts, Shape};
use crate::script::read_script;
use crate::store::read_store;
use lsl_code::{Library, Sequence};
use lsl_post::ScriptParts;
use lsl_value::Text;
use std::alloc::Global;
use uuid::Uuid;

/// An object of this shape: its key, the names of its prims, its scripts and its store.
pub fn read_body(
    alloc: Global,
    bytes: &[u8],
    place: usize,
    version: u16,
    shape: &Shape,
    library: &Library,
) -> Read<ObjectParts>
    ensures { Reads bytes.now (body version shape.now library.now) place result }
{
    let (_found, next) = read_key(bytes, place, &shape.key)?;
    let (_prims, next) = read_prims(bytes, next, shape.prims)?;
    let (names, next) = read_names(alloc, bytes, next, shape.prims)?;
    let (_count, next) = read_scripts_count(bytes, next, shape)?;
    let (scripts, next) = read_scripts(
        alloc,
        bytes,
        next,
        version,
        shape.units.as_slice(),
        library,
    )?;
    let (store, next) = read_store(alloc, bytes, next, version)?;
    let parts = ObjectParts {
        key: shape.key.copy()?,
        names,
        scripts,
        store,
    };
    Ok((parts, next))
}

// The 16 bytes of this key.
#[tactic(auto, unfolding(crate::specs::Layout::field, crate::specs::Layout::field_that))]
fn read_key(bytes: &[u8], place: usize, key: &Text) -> Read<[u8; 16]>
    ensures { Reads bytes.now (field_that (Bytes 16) (are_these (key_bytes key.now))) place result }
{
    let (found, next) = read_array(bytes, place)?;
    if !is_key(key, &found) {
        return Err(wrong(place));
    }
    Ok((found, next))
}

// Whether these are the bytes of the key.
fn is_key(key: &Text, found: &[u8; 16]) -> bool
    ensures { result ≡ are_these (key_bytes key.now) found.now }
{
    match Uuid::try_parse(key.as_str()) {
        Ok(id) => found == id.as_bytes(),
        Err(_) => false,
    }
}

// How many prims there are, which is this number.
#[tactic(auto, unfolding(crate::specs::Layout::field, crate::specs::Layout::field_that))]
fn read_prims(bytes: &[u8], place: usize, prims: u32) -> Read<u8>
    ensures { Reads bytes.now (field_that U8 (λ n. n == prims)) place result }
{
    let (found, next) = read_u8(bytes, place)?;
    if u32::from(found) != prims {
        return Err(wrong(place));
    }
    Ok((found, next))
}

// How many scripts there are, as the shape says.
#[tactic(auto, unfolding(crate::specs::Layout::field, crate::specs::Layout::field_that))]
fn read_scripts_count(bytes: &[u8], place: usize, shape: &Shape) -> Read<u16>
    ensures { Reads bytes.now (field_that U16 (λ n. n == length shape.now.units)) place result }
{
    let (found, next) = read_u16(bytes, place)?;
    if usize::from(found) != shape.units.len() {
        return Err(wrong(place));
    }
    Ok((found, next))
}

// Texts, `count` of them.
fn read_names(alloc: Global, bytes: &[u8], place: usize, count: u32) -> Read<Sequence<Text>>
    ensures { Reads bytes.now (repeated count (field TextForm)) place result }
{
    let mut names = Sequence::new(alloc);
    let mut next = place;
    for i in 0..count {
        let (name, behind) = read_text(alloc, bytes, next)?;
        names.push(name)?;
        next = behind;
    }
    Ok((names, next))
}

// A script of each of these units.
fn read_scripts(
    alloc: Global,
    bytes: &[u8],
    place: usize,
    version: u16,
    units: &[u32],
    library: &Library,
) -> Read<Sequence<ScriptParts>>
    ensures { Reads bytes.now
        (each (λ number. script_of version number (slice_get library.now number)) units.now) place result }
{
    let mut scripts = Sequence::new(alloc);
    let mut next = place;
    for number in units {
        let (script, behind) = read_script_of(alloc, bytes, next, version, *number, library)?;
        scripts.push(script)?;
        next = behind;
    }
    Ok((scripts, next))
}

// A script of the unit of this number.
fn read_script_of(
    alloc: Global,
    bytes: &[u8],
    place: usize,
    version: u16,
    number: u32,
    library: &Library,
) -> Read<ScriptParts>
    ensures { Reads bytes.now (script_of version number (slice_get library.now number)) place result }
{
    if number as usize >= library.len() {
        return Err(wrong(place));
    }
    read_script(alloc, bytes, place, version, number, library.unit(number))
}
