//! The bytes that the lines of a case mean.

use std::alloc::Global;
use std::rt::Files;
use std::{fs, io};

/// The bytes of lines: `|` a text and a line feed, `+` a text, `*N` and a blank a text N times, `%N` the same with line
/// feeds, `x` hexadecimal digits, `<` the bytes of a file. An empty line has none.
pub fn bytes_of<R: Files + AllocGlobal>(rt: &R, lines: &str) -> io::Result<Vec<u8>> {
    let mut out = Vec::new(rt.alloc());
    push_lines(rt, &mut out, lines)?;
    Ok(out)
}

fn push_lines<R: Files + AllocGlobal>(rt: &R, out: &mut Vec<u8>, lines: &str) -> io::Result<()> {
    for line in lines.split('\n') {
        if let Some(sign) = line.chars().next() {
            push_line(rt, out, sign, line.strip_prefix(sign).unwrap_or(""))?;
        }
    }
    Ok(())
}

fn push_line<R: Files + AllocGlobal>(
    rt: &R,
    out: &mut Vec<u8>,
    sign: char,
    text: &str,
) -> io::Result<()> {
    match sign {
        '|' => push_many(out, 1, text, "\n"),
        '+' => push_many(out, 1, text, ""),
        '*' => push_counted(out, text, ""),
        '%' => push_counted(out, text, "\n"),
        'x' => push_digits(rt.alloc(), out, text),
        '<' => push_file(rt, out, text),
        _ => Err(io::Error::from(io::ErrorKind::InvalidData)),
    }
}

/// Appends the bytes of hexadecimal digits.
fn push_digits(alloc: Global, out: &mut Vec<u8>, digits: &str) -> io::Result<()> {
    match hex::decode(alloc, digits.as_bytes()) {
        Ok(bytes) => Ok(out.extend_from_slice(bytes.as_slice())?),
        Err(_) => Err(io::Error::from(io::ErrorKind::InvalidData)),
    }
}

/// Appends the bytes of a file.
fn push_file<R: Files + AllocGlobal>(rt: &R, out: &mut Vec<u8>, name: &str) -> io::Result<()> {
    let bytes = fs::read(rt, name)?;
    Ok(out.extend_from_slice(bytes.as_slice())?)
}

/// Appends a text the number of times that comes before it, each time with this end.
fn push_counted(out: &mut Vec<u8>, counted: &str, end: &str) -> io::Result<()> {
    let (count, text) = counted.split_once(' ').unwrap_or((counted, ""));
    match count.parse::<u32>() {
        Ok(count) => push_many(out, count, text, end),
        Err(_) => Err(io::Error::from(io::ErrorKind::InvalidData)),
    }
}

fn push_many(out: &mut Vec<u8>, count: u32, text: &str, end: &str) -> io::Result<()> {
    for _ in 0..count {
        out.extend_from_slice(text.as_bytes())?;
        out.extend_from_slice(end.as_bytes())?;
    }
    Ok(())
}
