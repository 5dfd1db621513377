//! What a word of a line means: a number, a key, a name or a text.

ghost use Rattle.std.specs.Prelude.{◌≡◌, ◌≤◌, ◌<◌, map, true, false, IfOk};
ghost use Rattle.std.specs.Char.{to_ascii_lowercase};
ghost use Rattle.lsl_lines.specs.Fields.{quoted_of, digits_of, magnitude_of, is_negative, signed_of, natural_of, integer_of, key_of, name_of};
ghost use Rattle.lsl_lines.specs.Reads.{Gives, capped};

use crate::faults::FileKind;
use crate::words::{Word, text};
use lsl_text::{NoMemory, Refusal};
use lsl_value::{Text, valid_key};
use std::alloc::Global;

/// What a field of a line gives, or the fault of the line.
pub type Field<T> = Result<T, Refusal<FileKind>>;

pub const BAD_LINE: Refusal<FileKind> = Refusal::Fault(FileKind::BadLine);

/// Greater than every number that a field holds.
const CAP: u64 = 4_294_967_296_000;

/// How many bytes a name has at most.
const MAX_NAME_BYTES: usize = 255;

// The number of one digit or more, and the cap for every greater one.
fn digits(bytes: &[u8]) -> Field<u64>
    ensures { Gives result (capped (digits_of bytes.now)) }
{
    if bytes.is_empty() {
        return Err(BAD_LINE);
    }
    let mut n = 0;
    let mut rest = bytes;
    'digits: while let [b, more @ ..] = rest {
        match char::from(*b).to_digit(10) {
            Some(d) => n = (n * 10 + u64::from(d)).min(CAP),
            None => return Err(BAD_LINE),
        }
        rest = more;
    }
    Ok(n)
}

fn magnitude(bytes: &[u8]) -> Field<u64>
    ensures { Gives result (capped (magnitude_of bytes.now)) }
{
    match bytes {
        [b'-', rest @ ..] => digits(rest),
        _ => digits(bytes),
    }
}

fn is_negative(bytes: &[u8]) -> bool
    ensures { result ≡ is_negative bytes.now }
{
    matches!(bytes, [b'-', ..])
}

/// A number from 0 to `most`.
pub fn natural(word: &Word, most: u64) -> Field<u64>
    requires { most < 4294967296000 }
    ensures value { Gives result (natural_of most word.now) }
    ensures within { IfOk result (λ n. n ≤ most) }
{
    let bytes = word.plain()?;
    let n = magnitude(bytes)?;
    let limit = if is_negative(bytes) { 0 } else { most };
    if n > limit { Err(BAD_LINE) } else { Ok(n) }
}

/// A number from 0 to `most`, in 32 bits.
pub fn short(word: &Word, most: u32) -> Field<u32>
    ensures { Gives result (natural_of most word.now) }
{
    Ok(natural(word, u64::from(most))? as u32)
}

/// A number of 32 bits with its sign.
pub fn integer(word: &Word) -> Field<i32>
    ensures { Gives result (integer_of word.now) }
{
    let bytes = word.plain()?;
    let n = magnitude(bytes)?;
    if is_negative(bytes) {
        lowered(n)
    } else {
        raised(n)
    }
}

fn raised(n: u64) -> Field<i32>
    ensures { Gives result (signed_of false n) }
{
    match i32::try_from(n) {
        Ok(n) => Ok(n),
        Err(_) => Err(BAD_LINE),
    }
}

fn lowered(n: u64) -> Field<i32>
    ensures { Gives result (signed_of true n) }
{
    if n > 2_147_483_648 {
        return Err(BAD_LINE);
    }
    Ok((0 - n as i64) as i32)
}

/// A key, in lower case. Takes memory for it.
pub fn key(alloc: Global, word: &Word) -> Field<Text>
    ensures { Gives result (key_of word.now) }
{
    let lower = lower(alloc, word.plain()?)?;
    let key = text(alloc, lower.as_slice())?;
    if valid_key(&key) {
        Ok(key)
    } else {
        Err(BAD_LINE)
    }
}

fn lower(alloc: Global, bytes: &[u8]) -> Result<Vec<u8>, NoMemory>
    ensures { IfOk result (λ v. v.items ≡ map to_ascii_lowercase bytes.now) }
{
    bytes.iter().map(|b| b.to_ascii_lowercase()).collect(alloc)
}

/// A quoted text of at most 255 bytes. Shares the word's.
pub fn name(word: &Word) -> Field<Text>
    ensures { Gives result (name_of word.now) }
{
    let name = word.quoted()?;
    if name.bytes().len() > MAX_NAME_BYTES {
        return Err(BAD_LINE);
    }
    Ok(name.copy()?)
}

/// A quoted text. Shares the word's.
pub fn free(word: &Word) -> Field<Text>
    ensures { Gives result (quoted_of word.now) }
{
    Ok(word.quoted()?.copy()?)
}
