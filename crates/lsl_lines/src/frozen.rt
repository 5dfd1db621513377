//! A frozen world as a line of text: `frozen`, a space, and its bytes as lower-case hexadecimal digits.

ghost use Rattle.std.specs.Prelude.{◌≡◌, ◌≢◌, ◌⊎◌, ◌+◌, ◌*◌, ℕ, List, ◌++◌, codes, length, take, vec_len, OnOk, OnErr, IfOk, IfErr, MatchOption, MatchResult};
ghost use Rattle.std.specs.Char.{is_ascii_uppercase};
ghost use Rattle.std.specs.Io.BufRead.{strip_last};
ghost use Rattle.std.specs.List.{after_last, list_any};
ghost use Rattle.hex.specs.Hex.{IsBytes, encode_lower};
ghost use Rattle.hex.specs.declared.error.FromHexError.TheVariants.{OutOfMemory};
ghost use Rattle.lsl_text.specs.Place.{is_line_feed};
ghost use Rattle.lsl_text.specs.declared.Refusal.TheVariants.{Fault, NoMemory as WantsMemory};
ghost use Rattle.lsl_image.specs.declared.faults.ImageFault.TheVariants.{NotFrozen};
ghost use Rattle.lsl_lines.specs.Frozen.{HasFrozenLine, IsFrozen, IsNotFrozen, frozen_line, last_line};

use hex::{FromHexError, encode_to_slice};
use lsl_image::ImageFault;
use lsl_text::{NoMemory, Refusal};
use memchr::memrchr;
use std::alloc::{AllocError, Global};

/// How many bytes a text with a frozen world has at most.
const MAX_FROZEN_TEXT: usize = 2_147_483_647;

/// Appends the line of a frozen world of these bytes.
///
/// Takes memory where the vector grows, and none beside it; after an `Err` the vector is unchanged.
pub fn push_frozen(out: &mut Vec<u8>, bytes: &[u8]) -> Result<(), NoMemory>
    ensures ok { OnOk result (out.new.items ≡ out.old.items ++ frozen_line bytes.now) }
    ensures unchanged { OnErr result (out.new.items ≡ out.old.items) }
{
    let start = out.len();
    let pushed = push_parts(out, bytes);
    if pushed.is_err() {
        out.truncate(start);
    }
    pushed
}

// After an `Err` a prefix of the line may follow the old bytes.
fn push_parts(out: &mut Vec<u8>, bytes: &[u8]) -> Result<(), NoMemory>
    ensures ok { OnOk result (out.new.items ≡ out.old.items ++ frozen_line bytes.now) }
    ensures front { OnErr result (take (vec_len out.old) out.new.items ≡ out.old.items) }
{
    out.extend_from_slice(b"frozen ")?;
    push_digits(out, bytes)?;
    out.push(b'\n')?;
    Ok(())
}

// Writes the digits in place.
fn push_digits(out: &mut Vec<u8>, bytes: &[u8]) -> Result<(), NoMemory>
    ensures ok { OnOk result (out.new.items ≡ out.old.items ++ encode_lower bytes.now) }
    ensures front { OnErr result (out.new.items ≡ out.old.items) }
{
    let start = out.len();
    let end = end_of_digits(start, bytes.len())?;
    out.resize(end, 0)?;
    write_digits(&mut out[start..], bytes);
    Ok(())
}

// The end of the digits of `count` bytes that begin at this place.
fn end_of_digits(start: usize, count: usize) -> Result<usize, NoMemory>
    ensures { IfOk result (λ end. end ≡ start + 2 * count) }
{
    match count
        .checked_mul(2)
        .and_then(|digits| digits.checked_add(start))
    {
        Some(end) => Ok(end),
        None => Err(AllocError),
    }
}

fn write_digits(out: &mut [u8], bytes: &[u8])
    requires { length out.old ≡ 2 * length bytes.now }
    ensures { out.new ≡ encode_lower bytes.now }
{
    let _written = encode_to_slice(bytes, out);
}

/// The bytes of the frozen world in the text's last line, which may have no line feed.
///
/// Refused are a text of more than 2,147,483,647 bytes, and one with a last line that isn't `frozen`, a space and an
/// even number of hexadecimal digits with lower-case letters. Takes memory for the bytes.
pub fn take_frozen(alloc: Global, text: &[u8]) -> Result<Vec<u8>, Refusal<ImageFault>>
    ensures found { IfOk result (λ bytes. IsFrozen text.now bytes.items) }
    ensures every { (bytes : List ℕ) → IsFrozen text.now bytes
        → MatchResult result (λ found. found.items ≡ bytes) (λ refusal. refusal ≡ WantsMemory) }
    ensures refused { IfErr result (λ refusal. (refusal ≡ WantsMemory)
        ⊎ ((refusal ≡ Fault NotFrozen) × (¬ HasFrozenLine text.now))) }
{
    if text.len() > MAX_FROZEN_TEXT {
        return Err(Refusal::Fault(ImageFault::NotFrozen));
    }
    match digits_of(last_line(text)) {
        Some(digits) => bytes_of(alloc, digits),
        None => Err(Refusal::Fault(ImageFault::NotFrozen)),
    }
}

fn last_line(text: &[u8]) -> &[u8]
    ensures { result.now ≡ last_line text.now }
{
    behind_feeds(without_feed(text))
}

fn without_feed(text: &[u8]) -> &[u8]
    ensures { result.now ≡ strip_last 10 text.now }
{
    match text {
        [front @ .., b'\n'] => front,
        _ => text,
    }
}

// What follows the last line feed.
fn behind_feeds(text: &[u8]) -> &[u8]
    ensures { result.now ≡ after_last is_line_feed text.now }
{
    match memrchr(b'\n', text) {
        Some(place) => &text[place + 1..],
        None => text,
    }
}

// What follows the word.
fn digits_of(line: &[u8]) -> Option<&[u8]>
    ensures { MatchOption result ((digits : List ℕ) → line.now ≢ codes "frozen " ++ digits)
        (λ digits. line.now ≡ codes "frozen " ++ digits.now) }
{
    line.strip_prefix(b"frozen ")
}

// The bytes of these digits, which have letters in lower case.
fn bytes_of(alloc: Global, digits: &[u8]) -> Result<Vec<u8>, Refusal<ImageFault>>
    ensures found { IfOk result (λ bytes. (encode_lower bytes.items ≡ digits.now) × IsBytes bytes.items) }
    ensures every { (bytes : List ℕ) → IsBytes bytes → encode_lower bytes ≡ digits.now
        → MatchResult result (λ found. found.items ≡ bytes) (λ refusal. refusal ≡ WantsMemory) }
    ensures kind { IfErr result IsNotFrozen }
{
    if has_upper_case(digits) {
        return Err(Refusal::Fault(ImageFault::NotFrozen));
    }
    match hex::decode(alloc, digits) {
        Ok(bytes) => Ok(bytes),
        Err(fault) => Err(refusal(fault)),
    }
}

fn refusal(fault: FromHexError) -> Refusal<ImageFault>
    ensures memory { fault ≡ OutOfMemory → result ≡ WantsMemory }
    ensures kind { IsNotFrozen result }
{
    match fault {
        FromHexError::OutOfMemory => Refusal::NoMemory,
        _ => Refusal::Fault(ImageFault::NotFrozen),
    }
}

fn has_upper_case(digits: &[u8]) -> bool
    ensures { result ≡ list_any is_ascii_uppercase digits.now }
{
    digits.iter().any(|b| b.is_ascii_uppercase())
}
