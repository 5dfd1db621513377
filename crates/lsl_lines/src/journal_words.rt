//! The words of a line of the journal, each after a space.
//!
//! After an `Err` a prefix of what was to be appended may follow the old bytes.

ghost use Rattle.std.specs.Prelude.{◌≡◌, ◌≤◌, ◌<◌, ◌+◌, ◌++◌, ◌∷◌, [], decimal, length, map, take, vec_len, vec_capacity, OnOk, OnErr};
ghost use Rattle.std.specs.List.{flat_map};
ghost use Rattle.lsl_text.specs.Number.{decimal_of};
ghost use Rattle.lsl_text.specs.Quoted.{escaped, quoted};
ghost use Rattle.lsl_lines.specs.Journal.{argument_word, spaced};

use itoa::Buffer;
use lsl_text::{NoMemory, push_decimal, push_quoted};
use lsl_value::Value;
use std::mem::replace;

/// Appends the words of an event's arguments.
pub fn push_argument_words(out: &mut Vec<u8>, args: &[Value]) -> Result<(), NoMemory>
    ensures ok { OnOk result
        (out.new.items ≡ out.old.items ++ flat_map spaced (map argument_word args.now)) }
    ensures front { OnErr result (take (vec_len out.old) out.new.items ≡ out.old.items) }
{
    'values: for value in args {
        push_argument_word(out, value)?;
    }
    Ok(())
}

fn push_argument_word(out: &mut Vec<u8>, value: &Value) -> Result<(), NoMemory>
    ensures ok { OnOk result (out.new.items ≡ out.old.items ++ spaced (argument_word value.now)) }
    ensures front { OnErr result (take (vec_len out.old) out.new.items ≡ out.old.items) }
{
    match value {
        Value::Int(n) => push_integer_word(out, *n),
        Value::Str(text) | Value::Key(text) => push_quoted_word(out, text.as_str()),
        Value::List(_) => push_word(out, ""),
    }
}

/// Appends a natural number in decimal.
#[inline(always)]
pub fn push_number_word(out: &mut Vec<u8>, n: u64) -> Result<(), NoMemory>
    ensures ok { OnOk result (out.new.items ≡ out.old.items ++ spaced (decimal n)) }
    ensures front { OnErr result (take (vec_len out.old) out.new.items ≡ out.old.items) }
{
    if n >= 100 {
        return push_long_number_word(out, n);
    }
    make_room(out, 3)?;
    out.push_reserved(b' ');
    if n >= 10 {
        out.push_reserved(b'0' + (n / 10) as u8);
    }
    out.push_reserved(b'0' + (n % 10) as u8);
    Ok(())
}

// Appends any number in decimal.
#[inline(never)]
fn push_long_number_word(out: &mut Vec<u8>, n: u64) -> Result<(), NoMemory>
    ensures ok { OnOk result (out.new.items ≡ out.old.items ++ spaced (decimal n)) }
    ensures front { OnErr result (take (vec_len out.old) out.new.items ≡ out.old.items) }
{
    let mut buffer = Buffer::new();
    push_word(out, buffer.format(n))
}

/// Appends an integer in decimal.
pub fn push_integer_word(out: &mut Vec<u8>, n: i32) -> Result<(), NoMemory>
    ensures ok { OnOk result (out.new.items ≡ out.old.items ++ spaced (decimal_of n)) }
    ensures front { OnErr result (take (vec_len out.old) out.new.items ≡ out.old.items) }
{
    if n >= 0 {
        return push_number_word(out, n as u64);
    }
    out.push(b' ')?;
    push_decimal(out, i64::from(n))
}

/// Appends a quoted text.
#[inline(always)]
pub fn push_quoted_word(out: &mut Vec<u8>, text: &str) -> Result<(), NoMemory>
    ensures ok { OnOk result (out.new.items ≡ out.old.items ++ spaced (quoted text.now)) }
    ensures front { OnErr result (take (vec_len out.old) out.new.items ≡ out.old.items) }
{
    if text.len() < SHORT {
        return push_short_word(out, text.as_bytes());
    }
    push_long_word(out, text.as_bytes())
}

// Appends a quoted text of any length.
#[inline(never)]
fn push_long_word(out: &mut Vec<u8>, text: &[u8]) -> Result<(), NoMemory>
    ensures ok { OnOk result (out.new.items ≡ out.old.items ++ spaced (quoted text.now)) }
    ensures front { OnErr result (take (vec_len out.old) out.new.items ≡ out.old.items) }
{
    out.push(b' ')?;
    push_quoted(out, text)
}

// A text with fewer bytes is short. From this length on, a search by more than a byte at a time pays.
const SHORT: usize = 32;

// Appends a short text, quoted. It reserves once, and moves the vector out meanwhile, so that its length stays in a
// register.
#[inline(never)]
fn push_short_word(out: &mut Vec<u8>, text: &[u8]) -> Result<(), NoMemory>
    requires { length text.now < 32 }
    ensures ok { OnOk result (out.new.items ≡ out.old.items ++ spaced (quoted text.now)) }
    ensures front { OnErr result (take (vec_len out.old) out.new.items ≡ out.old.items) }
{
    make_room(out, 3 + 2 * text.len())?;
    let mut line = replace(out, Vec::new(*out.allocator()));
    line.push_reserved(b' ');
    line.push_reserved(b'"');
    'bytes: for b in text {
        put_escaped(&mut line, *b);
    }
    line.push_reserved(b'"');
    *out = line;
    Ok(())
}

#[inline(always)]
fn put_escaped(line: &mut Vec<u8>, b: u8)
    requires { vec_len line.old + 2 ≤ vec_capacity line.old }
    ensures items { line.new.items ≡ line.old.items ++ escaped b }
    ensures len { vec_len line.new ≤ vec_len line.old + 2 }
    ensures capacity { vec_capacity line.new ≡ vec_capacity line.old }
{
    match b {
        b'"' | b'\\' => {
            line.push_reserved(b'\\');
            line.push_reserved(b);
        }
        b'\n' => {
            line.push_reserved(b'\\');
            line.push_reserved(b'n');
        }
        _ => line.push_reserved(b),
    }
}

/// Appends a word as it is.
#[inline(always)]
pub fn push_word(out: &mut Vec<u8>, word: &str) -> Result<(), NoMemory>
    ensures ok { OnOk result (out.new.items ≡ out.old.items ++ spaced word.now) }
    ensures front { OnErr result (take (vec_len out.old) out.new.items ≡ out.old.items) }
{
    push_byte(out, b' ')?;
    out.extend_from_slice(word.as_bytes())
}

/// Appends a byte.
#[inline(always)]
pub fn push_byte(out: &mut Vec<u8>, b: u8) -> Result<(), NoMemory>
    ensures ok { OnOk result (out.new.items ≡ out.old.items ++ b ∷ []) }
    ensures unchanged { OnErr result (out.new.items ≡ out.old.items) }
{
    make_room(out, 1)?;
    out.push_reserved(b);
    Ok(())
}

// Reserves `count` bytes more. The test whether there is room already is inlined.
#[inline(always)]
fn make_room(out: &mut Vec<u8>, count: usize) -> Result<(), NoMemory>
    ensures items { out.new.items ≡ out.old.items }
    ensures len { vec_len out.new ≡ vec_len out.old }
    ensures ok { OnOk result (vec_len out.new + count ≤ vec_capacity out.new) }
{
    if out.capacity() - out.len() < count {
        out.reserve(count)?;
    }
    Ok(())
}
