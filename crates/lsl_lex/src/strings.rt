//! Strings: where one ends, and the text that it means.

ghost use Rattle.std.specs.Prelude.{◌≡◌, ◌+◌, ◌<◌, ◌≤◌, ◌++◌, [], ◌∷◌, length, slice_index, IfOk, IfSome, OnOk};
ghost use Rattle.std.specs.Str.{IsUtf8, chars};
ghost use Rattle.lsl_lex.specs.Lexed.{EndsText};
ghost use Rattle.lsl_lex.specs.Limits.{source_bytes};
ghost use Rattle.lsl_lex.specs.Reading.{Finds, quote_of, part_of, string};
ghost use Rattle.lsl_lex.specs.Strings.{escape_of, escapes_read};

use crate::faults::LexKind;
use crate::piece::Piece;
use crate::token_types::Sort;
use lsl_text::{NoMemory, Refusal};
use lsl_value::Text;
use std::alloc::Global;

/// The string at the front of a text that begins with a quote.
#[tactic(auto, unfolding(crate::specs::Reading::string))]
pub fn string(alloc: Global, text: &[u8]) -> Result<Piece, Refusal<LexKind>>
    requires quote { slice_index text.now 0 ≡ 34 }
    requires short { length text.now ≤ source_bytes }
    requires valid { EndsText text.now }
    ensures { Finds result (string text.now) }
{
    let more = &text[1..];
    match body_length(more) {
        Some(n) => Ok(Piece {
            gives: Some(Sort::Str(body_text(alloc, &more[..n])?)),
            length: n + 2,
        }),
        None => Err(Refusal::Fault(LexKind::StringEnd)),
    }
}

// A body without a backslash is copied once, as it is.
fn body_text(alloc: Global, body: &[u8]) -> Result<Text, NoMemory>
    requires short { length body.now ≤ source_bytes }
    requires valid { IsUtf8 body.now }
    ensures { IfOk result (λ text. text ≡ escapes_read (chars body.now)) }
{
    if !body.contains(&b'\\') {
        return plain_text(alloc, body);
    }
    escaped_text(alloc, body)
}

// The characters are written once, and become the text as they are.
fn escaped_text(alloc: Global, body: &[u8]) -> Result<Text, NoMemory>
    requires short { length body.now ≤ source_bytes }
    requires valid { IsUtf8 body.now }
    ensures { IfOk result (λ text. text ≡ escapes_read (chars body.now)) }
{
    let bytes = without_escapes(alloc, body)?;
    match String::from_utf8(bytes) {
        Ok(text) => Text::from_string(text),
        Err(_) => unreachable!(),
    }
}

// The text of these bytes.
fn plain_text(alloc: Global, bytes: &[u8]) -> Result<Text, NoMemory>
    requires short { length bytes.now ≤ source_bytes }
    requires valid { IsUtf8 bytes.now }
    ensures { IfOk result (λ text. text ≡ chars bytes.now) }
{
    match Text::from_utf8(alloc, bytes)? {
        Some(text) => Ok(text),
        None => unreachable!(),
    }
}

// How many bytes precede the quote that ends the string.
fn body_length(text: &[u8]) -> Option<usize>
    ensures count { result ≡ quote_of text.now }
    ensures within { IfSome result (λ n. n < length text.now) }
{
    let mut n = 0;
    let mut rest = text;
    'parts: while let [b, ..] = rest {
        if *b == b'"' {
            return Some(n);
        }
        let part = part_length(rest);
        n += part;
        rest = &rest[part..];
    }
    None
}

// How many bytes the first part of a body has: a backslash and the byte after it, or one byte.
fn part_length(text: &[u8]) -> usize
    requires { 0 < length text.now }
    ensures part { result ≡ part_of text.now }
    ensures some { 0 < result }
    ensures within { result ≤ length text.now }
{
    match text {
        [b'\\', _, ..] => 2,
        _ => 1,
    }
}

fn without_escapes(alloc: Global, body: &[u8]) -> Result<Vec<u8>, NoMemory>
    ensures { IfOk result (λ bytes. bytes.items ≡ escapes_read body.now) }
{
    let mut out = Vec::new(alloc);
    let mut rest = body;
    'bytes: while let [b, more @ ..] = rest {
        match (*b, more) {
            (b'\\', [c, after @ ..]) => {
                push_escape(&mut out, *c)?;
                rest = after;
            }
            _ => {
                out.push(*b)?;
                rest = more;
            }
        }
    }
    Ok(out)
}

fn push_escape(out: &mut Vec<u8>, c: u8) -> Result<(), NoMemory>
    ensures { OnOk result (out.new.items ≡ out.old.items ++ escape_of c) }
{
    match c {
        b'n' => out.extend_from_slice(b"\n"),
        b't' => out.extend_from_slice(b"    "),
        _ => out.extend_from_slice(&[c]),
    }
}
