//! The line of a frozen world, written and read. In rows `^` is a line feed, `$` a carriage return and `%` a tab.

use crate::lines::entries::{spelled, tell_signs};
use crate::shown::Shown;
use crate::words::{byte, parted};
use lsl_image::ImageFault;
use lsl_lines::{push_frozen, take_frozen};
use lsl_text::Refusal;
use std::alloc::{AllocError, Global};

pub fn tell(told: &mut Shown, word: &str, rest: &str) -> Result<(), AllocError> {
    match word {
        "push" => push(told, rest)?,
        "take" => take(told, rest)?,
        "every" => every(told)?,
        _ => told.add("no such row"),
    }
    Ok(())
}

/// The lines of frozen worlds after a text: `TEXT|BYTES|BYTES`, with blanks between bytes.
fn push(told: &mut Shown, asked: &str) -> Result<(), AllocError> {
    let (text, worlds) = parted(asked, "|");
    let mut out = spelled(told.alloc(), text)?.into_bytes();
    let pushed = push_worlds(told.alloc(), &mut out, worlds);
    tell_signs(told, std::str::from_utf8(&out).unwrap_or("no text"));
    pushed
}

fn push_worlds(alloc: Global, out: &mut Vec<u8>, worlds: &str) -> Result<(), AllocError> {
    for world in worlds.split('|') {
        let bytes = bytes_of(alloc, world)?;
        push_frozen(out, bytes.as_slice())?;
    }
    Ok(())
}

fn bytes_of(alloc: Global, numbers: &str) -> Result<Vec<u8>, AllocError> {
    let mut bytes = Vec::new(alloc);
    for number in numbers.split_whitespace() {
        bytes.push(byte(number))?;
    }
    Ok(bytes)
}

/// The bytes of a text's frozen world in decimal, or that it has none.
fn take(told: &mut Shown, text: &str) -> Result<(), AllocError> {
    let text = spelled(told.alloc(), text)?;
    let taken = take_frozen(told.alloc(), text.as_bytes());
    tell_taken(told, taken)
}

fn tell_taken(
    told: &mut Shown,
    taken: Result<Vec<u8>, Refusal<ImageFault>>,
) -> Result<(), AllocError> {
    match taken {
        Ok(bytes) => told.debug(&bytes.as_slice()),
        Err(Refusal::Fault(ImageFault::NotFrozen)) => told.add("none"),
        Err(Refusal::Fault(_)) => told.add("another fault"),
        Err(Refusal::NoMemory) => return Err(AllocError),
    }
    Ok(())
}

/// Every byte, written after a line that isn't text and read again.
fn every(told: &mut Shown) -> Result<(), AllocError> {
    let mut bytes = Vec::new(told.alloc());
    for byte in 0..=255u8 {
        bytes.push(byte)?;
    }
    let mut out = Vec::from_slice(told.alloc(), b"\xff\n")?;
    push_frozen(&mut out, bytes.as_slice())?;
    let taken = take_frozen(told.alloc(), out.as_slice());
    tell_taken(told, taken)
}
