//! What an image begins with, and what is around its fields.

ghost use Rattle.std.specs.Prelude.{◌≡◌, ◌&&◌, length, nat_le};
ghost use Rattle.std.specs.Str.{bytes_eq};
ghost use Rattle.lsl_image.specs.Layout.{Bytes, field_that};
ghost use Rattle.lsl_image.specs.Object.{ends_at, head, known_version, sender};
ghost use Rattle.lsl_image.specs.Reading.{Reads};

use crate::faults::{ImageFault, wrong};
use crate::fields::{Read, read_array, read_text, read_u16, read_u64};
use lsl_text::Refusal;
use lsl_value::Text;
use std::alloc::Global;

/// The letters, the version and the size that an image begins with: its version.
pub fn read_head(bytes: &[u8], letters: &[u8; 4]) -> Read<u16>
    ensures { Reads bytes.now (head letters.now) 0 result }
{
    let (_magic, next) = read_letters(bytes, 0, letters)?;
    let (version, next) = read_version(bytes, next)?;
    let (_size, next) = read_u64(bytes, next)?;
    Ok((version, next))
}

// These letters.
#[tactic(auto, unfolding(crate::specs::Layout::field, crate::specs::Layout::field_that))]
fn read_letters(bytes: &[u8], place: usize, letters: &[u8; 4]) -> Read<[u8; 4]>
    ensures { Reads bytes.now (field_that (Bytes 4) (λ found. bytes_eq found letters.now)) place result }
{
    let (found, next) = read_array(bytes, place)?;
    if found != *letters {
        return Err(wrong(place));
    }
    Ok((found, next))
}

// A known version.
fn read_version(bytes: &[u8], place: usize) -> Read<u16>
    ensures { Reads bytes.now known_version place result }
{
    let (version, next) = read_u16(bytes, place)?;
    if !is_known(version) {
        return Err(Refusal::Fault(ImageFault::Version(version)));
    }
    Ok((version, next))
}

// Whether there are images of this version.
fn is_known(version: u16) -> bool
    ensures { result ≡ (nat_le 1 version && nat_le version 2) }
{
    version >= 1 && version <= 2
}

/// The region that sent the object, which is this one. Version 1 doesn't name it.
#[tactic(auto, unfolding(crate::specs::Layout::field, crate::specs::Layout::field_that, crate::specs::Object::sender))]
pub fn read_sender(
    alloc: Global,
    bytes: &[u8],
    place: usize,
    version: u16,
    region: &Text,
) -> Read<Text>
    ensures { Reads bytes.now (sender version region.now) place result }
{
    if version == 1 {
        return Ok((region.copy()?, place));
    }
    let (found, next) = read_text(alloc, bytes, place)?;
    if found != *region {
        return Err(wrong(place));
    }
    Ok((found, next))
}

/// The fields of an image end here, where the digest begins.
#[tactic(auto, unfolding(crate::specs::Object::ends_at, crate::specs::Layout::here))]
pub fn read_end(bytes: &[u8], place: usize) -> Read<usize>
    ensures { Reads bytes.now (ends_at (length bytes.now)) place result }
{
    if place != bytes.len() {
        return Err(wrong(place));
    }
    Ok((place, place))
}
