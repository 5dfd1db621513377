//! Fields of an image, read at a place of its bytes.
#![tactic(auto, unfolding(crate::specs::Layout::field, crate::specs::Layout::field_that))]

ghost use Rattle.std.specs.Prelude.{◌≤◌, nat_le, IfOk};
ghost use Rattle.lsl_image.specs.Layout.{Bytes, I32, TextForm, U16, U32, U64, U8, ValueForm, field, field_that};
ghost use Rattle.lsl_image.specs.Reading.{Reads};
ghost use Rattle.lsl_image.specs.Script.{flag};

use crate::faults::{ImageFault, wrong};
use lsl_bytes::{
    take_array, take_i32, take_text, take_u8, take_u16, take_u32, take_u64, take_value,
};
use lsl_text::Refusal;
use lsl_value::{Text, Value};
use std::alloc::Global;

/// What is read at a place, with the place after it.
pub type Read<T> = Result<(T, usize), Refusal<ImageFault>>;

/// A byte.
pub fn read_u8(bytes: &[u8], place: usize) -> Read<u8>
    ensures { Reads bytes.now (field U8) place result }
{
    match take_u8(bytes, place) {
        Some(read) => Ok(read),
        None => Err(wrong(place)),
    }
}

/// Two bytes.
pub fn read_u16(bytes: &[u8], place: usize) -> Read<u16>
    ensures { Reads bytes.now (field U16) place result }
{
    match take_u16(bytes, place) {
        Some(read) => Ok(read),
        None => Err(wrong(place)),
    }
}

/// Four bytes.
pub fn read_u32(bytes: &[u8], place: usize) -> Read<u32>
    ensures { Reads bytes.now (field U32) place result }
{
    match take_u32(bytes, place) {
        Some(read) => Ok(read),
        None => Err(wrong(place)),
    }
}

/// Eight bytes.
pub fn read_u64(bytes: &[u8], place: usize) -> Read<u64>
    ensures { Reads bytes.now (field U64) place result }
{
    match take_u64(bytes, place) {
        Some(read) => Ok(read),
        None => Err(wrong(place)),
    }
}

/// Four bytes, a negative number as its two's complement.
pub fn read_i32(bytes: &[u8], place: usize) -> Read<i32>
    ensures { Reads bytes.now (field I32) place result }
{
    match take_i32(bytes, place) {
        Some(read) => Ok(read),
        None => Err(wrong(place)),
    }
}

/// Bytes as they are, `N` of them.
pub fn read_array<const N: usize>(bytes: &[u8], place: usize) -> Read<[u8; N]>
    ensures { Reads bytes.now (field (Bytes N)) place result }
{
    match take_array(bytes, place) {
        Some(read) => Ok(read),
        None => Err(wrong(place)),
    }
}

/// A text.
pub fn read_text(alloc: Global, bytes: &[u8], place: usize) -> Read<Text>
    ensures { Reads bytes.now (field TextForm) place result }
{
    match take_text(alloc, bytes, place)? {
        Some(read) => Ok(read),
        None => Err(wrong(place)),
    }
}

/// A value.
pub fn read_value(alloc: Global, bytes: &[u8], place: usize) -> Read<Value>
    ensures { Reads bytes.now (field ValueForm) place result }
{
    match take_value(alloc, bytes, place)? {
        Some(read) => Ok(read),
        None => Err(wrong(place)),
    }
}

/// A byte of at most this number.
pub fn read_u8_within(bytes: &[u8], place: usize, most: u8) -> Read<u8>
    ensures read { Reads bytes.now (field_that U8 (λ n. nat_le n most)) place result }
    ensures within { IfOk result (λ read. read.0 ≤ most) }
{
    let (n, next) = read_u8(bytes, place)?;
    if n > most {
        return Err(wrong(place));
    }
    Ok((n, next))
}

/// Four bytes, a number of at most this.
pub fn read_u32_within(bytes: &[u8], place: usize, most: u32) -> Read<u32>
    ensures read { Reads bytes.now (field_that U32 (λ n. nat_le n most)) place result }
    ensures within { IfOk result (λ read. read.0 ≤ most) }
{
    let (n, next) = read_u32(bytes, place)?;
    if n > most {
        return Err(wrong(place));
    }
    Ok((n, next))
}

/// A flag: 0 or 1.
#[tactic(auto, unfolding(crate::specs::Script::flag))]
pub fn read_flag(bytes: &[u8], place: usize) -> Read<u8>
    ensures { Reads bytes.now flag place result }
{
    read_u8_within(bytes, place, 1)
}
