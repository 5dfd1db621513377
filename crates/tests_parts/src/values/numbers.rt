//! Numbers, quoted texts and places.

use crate::shown::Shown;
use crate::values::words::{characters, tell_characters};
use crate::words::parted;
use lsl_text::{Cursor, leading_integer, push_decimal, push_quoted};
use std::alloc::AllocError;

pub fn tell(told: &mut Shown, word: &str, rest: &str) -> Result<(), AllocError> {
    let text = characters(told.alloc(), rest)?;
    match word {
        "integer" => told.put(&leading_integer(text.as_bytes())),
        "quoted" => quoted(told, text.as_str()),
        "places" => places(told, text.as_bytes()),
        _ => told.add("no such row"),
    }
    Ok(())
}

/// Numbers and quoted texts, one after the other: `NUMBER TEXT`, with bars between.
fn quoted(told: &mut Shown, pieces: &str) {
    let mut out = Vec::new(told.alloc());
    told.note(push_pieces(&mut out, pieces));
    tell_characters(told, std::str::from_utf8(&out).unwrap_or(""));
}

fn push_pieces(out: &mut Vec<u8>, pieces: &str) -> Result<(), AllocError> {
    for piece in pieces.split('|') {
        let (number, text) = parted(piece, " ");
        push_decimal(out, number.parse::<i64>().unwrap_or(1))?;
        push_quoted(out, text.as_bytes())?;
    }
    Ok(())
}

/// Line, column and byte at each place of a text, and the span from its start to its end.
fn places(told: &mut Shown, bytes: &[u8]) {
    let mut cursor = Cursor::new();
    for _ in 0..9 {
        if let Some(byte) = cursor.peek(bytes) {
            tell_place(told, &cursor, byte);
            if cursor.offset < 9 {
                cursor.step(bytes);
            }
        }
    }
    tell_span(told, &cursor);
}

fn tell_place(told: &mut Shown, cursor: &Cursor, byte: u8) {
    told.put(&cursor.line);
    told.add(" ");
    told.put(&cursor.col);
    told.add(" ");
    told.put(&byte);
    told.add(", ");
}

fn tell_span(told: &mut Shown, end: &Cursor) {
    let whole = end.span(&Cursor::new());
    told.put(&whole.start);
    told.add(" ");
    told.put(&whole.end);
    told.add(", ");
    told.put(&whole.line);
    told.add(" ");
    told.put(&whole.col);
}
