//! Characters of texts, found in their bytes.

ghost use Rattle.std.specs.Prelude.{◌≡◌, ◌≤◌, ◌+◌, ◌++◌, length, take, drop, count_by, slice_range, IfOk, OnOk, OnErr};
ghost use Rattle.std.specs.Str.{chars, encode_utf8_all, IsUtf8};
ghost use Rattle.lsl_value.specs.Limits.{most_text_bytes};
ghost use Rattle.lsl_pure.specs.Spelling.{is_lead, front_len};

use lsl_text::NoMemory;
use lsl_value::{MAX_TEXT_BYTES, Text};
use std::alloc::Global;

/// Whether the byte begins a character.
fn is_lead(b: u8) -> bool
    ensures { result ≡ is_lead b }
{
    b < 128 || 192 <= b
}

/// How many characters begin in these bytes.
fn count_leads(bytes: &[u8]) -> usize
    ensures { result ≡ count_by is_lead bytes.now }
{
    bytes.iter().filter(|b| is_lead(**b)).count()
}

/// How many of the text's characters begin before a byte. Walks no character where the text is ASCII.
pub fn count_before(text: &Text, at: usize) -> usize
    requires { at ≤ length (encode_utf8_all text.now) }
    ensures { result ≡ count_by is_lead (take at (encode_utf8_all text.now)) }
{
    if text.is_ascii() {
        at
    } else {
        count_leads(&text.bytes()[..at])
    }
}

/// How many bytes the text's first characters have. Walks no character where the text is ASCII.
pub fn offset(text: &Text, characters: usize) -> usize
    ensures value { result ≡ length (encode_utf8_all (take characters text.now)) }
    ensures within { result ≤ length (encode_utf8_all text.now) }
{
    let bytes = text.bytes();
    if text.is_ascii() {
        characters.min(bytes.len())
    } else {
        walk(bytes, characters)
    }
}

/// How many bytes stand before the characters of two numbers.
pub fn offsets(text: &Text, start: usize, end: usize) -> (usize, usize)
    requires { start ≤ end }
    ensures from { result.0 ≡ length (encode_utf8_all (take start text.now)) }
    ensures to { result.1 ≡ length (encode_utf8_all (take end text.now)) }
    ensures ordered { result.0 ≤ result.1 }
    ensures within { result.1 ≤ length (encode_utf8_all text.now) }
{
    (offset(text, start), offset(text, end))
}

// How many bytes stand before the character of this number.
fn walk(bytes: &[u8], characters: usize) -> usize
    ensures { result ≡ front_len characters bytes.now }
{
    let mut left = characters;
    let mut at = 0;
    'bytes: for b in bytes {
        if is_lead(*b) {
            if left == 0 {
                return at;
            }
            left -= 1;
        }
        at += 1;
    }
    at
}

/// The text of these bytes, in one pass. Takes memory to share them, and copies none.
pub fn text_of(bytes: Vec<u8>) -> Result<Text, NoMemory>
    requires valid { IsUtf8 bytes.items }
    requires short { length bytes.items ≤ most_text_bytes }
    ensures { IfOk result (λ text. text ≡ chars bytes.items) }
{
    match String::from_utf8(bytes) {
        Ok(text) => Text::from_string(text),
        Err(_) => unreachable!(),
    }
}

/// A copy of these bytes as a text.
pub fn copy_of(alloc: Global, bytes: &[u8]) -> Result<Text, NoMemory>
    requires valid { IsUtf8 bytes.now }
    requires short { length bytes.now ≤ most_text_bytes }
    ensures { IfOk result (λ text. text ≡ chars bytes.now) }
{
    text_of(bytes.to_vec(alloc)?)
}
