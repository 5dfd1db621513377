//! Fields as bytes: what is appended, what is read back, and what isn't a field.

use crate::shown::Shown;
use crate::values::words;
use crate::values::words::tell_value;
use crate::words::{byte, long, number, parted, signed};
use lsl_bytes::{
    push_i32, push_text, push_u8, push_u16, push_u32, push_u64, push_value, take_array, take_i32,
    take_int, take_text, take_u8, take_u16, take_u32, take_u64, take_value,
};
use std::alloc::{AllocError, Global};

const NUMBERS: [u8; 19] = [
    171, 1, 2, 1, 2, 3, 4, 255, 255, 255, 255, 255, 255, 255, 255, 255, 255, 255, 254,
];

/// An integer after its tag at place 1.
const TAGGED: [u8; 15] = [9, 1, 255, 255, 255, 254, 3, 0, 0, 0, 0, 1, 0, 0, 0];

pub fn tell(told: &mut Shown, word: &str, rest: &str) -> Result<(), AllocError> {
    match word {
        "push" => tell_pushed(told, rest)?,
        "take" => tell_number(told, rest),
        "bytes" => there_and_back(told, rest)?,
        "read" => read(told, rest)?,
        "text" => longest_text(told, number(rest))?,
        "list" => longest_list(told, number(rest))?,
        _ => told.add("no such row"),
    }
    Ok(())
}

fn push(out: &mut Vec<u8>, kind: &str, number: &str) -> Result<(), AllocError> {
    match kind {
        "u8" => push_u8(out, byte(number)),
        "u16" => push_u16(out, number.parse::<u16>().unwrap_or(0)),
        "u32" => push_u32(out, crate::words::number(number)),
        "u64" => push_u64(out, long(number)),
        _ => push_i32(out, signed(number)),
    }
}

/// The bytes of numbers, one after the other: `KIND NUMBER`, with commas between.
fn tell_pushed(told: &mut Shown, numbers: &str) -> Result<(), AllocError> {
    let mut out = Vec::new(told.alloc());
    push_all(&mut out, numbers)?;
    told.debug(&out.as_slice());
    Ok(())
}

fn push_all(out: &mut Vec<u8>, numbers: &str) -> Result<(), AllocError> {
    for number in numbers.split(", ") {
        let (kind, number) = parted(number, " ");
        push(out, kind, number)?;
    }
    Ok(())
}

/// A number at a place of the bytes above, and where it ends: `KIND PLACE`. `int` is one after a tag.
fn tell_number(told: &mut Shown, asked: &str) {
    let (kind, place) = parted(asked, " ");
    let place = place.parse::<usize>().unwrap_or(0);
    match kind {
        "u8" => told.debug(&take_u8(&NUMBERS, place)),
        "u16" => told.debug(&take_u16(&NUMBERS, place)),
        "u32" => told.debug(&take_u32(&NUMBERS, place)),
        "u64" => told.debug(&take_u64(&NUMBERS, place)),
        "i32" => told.debug(&take_i32(&NUMBERS, place)),
        "4" => told.debug(&take_array::<4>(&NUMBERS, place)),
        "19" => told.debug(&take_array::<19>(&NUMBERS, place)),
        "20" => told.debug(&take_array::<20>(&NUMBERS, place)),
        _ => told.debug(&take_int(&TAGGED, place)),
    }
}

/// The value that bytes begin with, and where it ends.
fn tell_taken(told: &mut Shown, bytes: &[u8], place: usize) -> Result<(), AllocError> {
    match take_value(told.alloc(), bytes, place)? {
        Some((value, next)) => {
            tell_value(told, &value);
            told.add(" ");
            told.put(&next);
        }
        None => told.add("none"),
    }
    Ok(())
}

/// A value's bytes, what is read of them, with another byte after them too, and whether a prefix of them is a value.
fn there_and_back(told: &mut Shown, word: &str) -> Result<(), AllocError> {
    let mut out = bytes_of(told.alloc(), word)?;
    tell_bytes(told, out.as_slice())?;
    out.push(9)?;
    tell_taken(told, out.as_slice(), 0)
}

fn tell_bytes(told: &mut Shown, bytes: &[u8]) -> Result<(), AllocError> {
    told.debug(&bytes);
    told.add(" = ");
    tell_taken(told, bytes, 0)?;
    tell_prefixes(told, bytes)?;
    told.add(" = ");
    Ok(())
}

fn bytes_of(alloc: Global, word: &str) -> Result<Vec<u8>, AllocError> {
    let mut out = Vec::new(alloc);
    push_value(&mut out, &words::value(alloc, word)?)?;
    Ok(out)
}

fn tell_prefixes(told: &mut Shown, bytes: &[u8]) -> Result<(), AllocError> {
    for end in 0..bytes.len() {
        if take_value(told.alloc(), &bytes[..end], 0)?.is_some() {
            told.add(", bytes ");
            told.put(&end);
        }
    }
    Ok(())
}

/// What is read of bytes at their start, and after their end.
fn read(told: &mut Shown, numbers: &str) -> Result<(), AllocError> {
    let bytes = numbered(told.alloc(), numbers)?;
    told_twice(told, bytes.as_slice())
}

fn told_twice(told: &mut Shown, bytes: &[u8]) -> Result<(), AllocError> {
    tell_taken(told, bytes, 0)?;
    told.add(" ");
    tell_taken(told, bytes, 99)
}

fn numbered(alloc: Global, numbers: &str) -> Result<Vec<u8>, AllocError> {
    let mut bytes = Vec::new(alloc);
    for number in numbers.split(", ") {
        if !number.is_empty() {
            bytes.push(byte(number))?;
        }
    }
    Ok(bytes)
}

/// Where a text of this many letters ends, and whether its bytes come back.
fn longest_text(told: &mut Shown, count: u32) -> Result<(), AllocError> {
    let mut bytes = Vec::new(told.alloc());
    push_u32(&mut bytes, count)?;
    for _ in 0..count {
        bytes.push(b'a')?;
    }
    match take_text(told.alloc(), bytes.as_slice(), 0)? {
        Some((text, next)) => {
            let mut out = Vec::new(told.alloc());
            push_text(&mut out, &text)?;
            tell_end(told, next, out == bytes);
        }
        None => told.add("none"),
    }
    Ok(())
}

/// Where a list of this many empty strings ends, and whether its bytes come back.
fn longest_list(told: &mut Shown, count: u32) -> Result<(), AllocError> {
    let mut bytes = Vec::new(told.alloc());
    push_u8(&mut bytes, 7)?;
    push_u32(&mut bytes, count)?;
    for _ in 0..count {
        bytes.extend_from_slice(&[3, 0, 0, 0, 0])?;
    }
    match take_value(told.alloc(), bytes.as_slice(), 0)? {
        Some((value, next)) => {
            let mut out = Vec::new(told.alloc());
            push_value(&mut out, &value)?;
            tell_end(told, next, out == bytes);
        }
        None => told.add("none"),
    }
    Ok(())
}

fn tell_end(told: &mut Shown, next: usize, same: bool) {
    told.put(&next);
    told.add(" ");
    told.put(&same);
}
