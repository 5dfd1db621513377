//! Integers as text, and the integer that a text begins with.

ghost use Rattle.std.specs.Prelude.{◌≡◌, ◌≤◌, ◌++◌, length, drop, min, OnOk, OnErr};
ghost use Rattle.std.specs.Bool.{OnTrue};
ghost use Rattle.std.specs.Char.{is_digit};
ghost use Rattle.std.specs.List.{prefix_len, take_while};
ghost use Rattle.std.specs.Str.Parse.{digits_value};
ghost use Rattle.lsl_text.specs.Number.{decimal_of, is_blank, digits_integer, begins_hexadecimal, unsigned_integer, signed_integer, leading_integer_of};

use crate::NoMemory;
use itoa::Buffer;

/// Appends the number in decimal, with a minus sign before a negative one.
///
/// Takes memory where the vector grows; after an `Err` the vector is unchanged.
pub fn push_decimal(out: &mut Vec<u8>, n: i64) -> Result<(), NoMemory>
    ensures ok { OnOk result (out.new.items ≡ out.old.items ++ decimal_of n) }
    ensures unchanged { OnErr result (out.new.items ≡ out.old.items) }
{
    let mut buffer = Buffer::new();
    out.extend_from_slice(buffer.format(n).as_bytes())
}

/// The integer at the start of a text: blanks, an optional sign, and then `0x` or `0X` with hexadecimal digits, or
/// decimal digits, as far as they go.
///
/// Without a digit it is 0. A number up to 4294967295 wraps to 32 bits, and a greater one is -1; the sign is applied
/// last, and wraps. It takes no memory. See <https://wiki.secondlife.com/wiki/Typecast>.
pub fn leading_integer(text: &[u8]) -> i32
    ensures { result ≡ leading_integer_of text.now }
{
    signed(behind_blanks(text))
}

/// Whether the byte is a tab, a line feed, a vertical tab, a form feed, a carriage return or a space.
pub fn is_blank(b: u8) -> bool
    ensures { result ≡ is_blank b }
{
    (9 <= b && b <= 13) || b == b' '
}

/// The text without its leading blanks. Takes no memory.
pub fn behind_blanks(text: &[u8]) -> &[u8]
    ensures { result.now ≡ drop (prefix_len is_blank text.now) text.now }
{
    let mut rest = text;
    'blanks: while let [b, more @ ..] = rest {
        if !is_blank(*b) {
            break;
        }
        rest = more;
    }
    rest
}

fn signed(text: &[u8]) -> i32
    ensures { result ≡ signed_integer text.now }
{
    match text.first() {
        Some(b'-') => unsigned(&text[1..]).wrapping_neg(),
        Some(b'+') => unsigned(&text[1..]),
        _ => unsigned(text),
    }
}

#[tactic(auto, unfolding(crate::specs::Number::unsigned_integer))]
fn unsigned(text: &[u8]) -> i32
    ensures { result ≡ unsigned_integer text.now }
{
    if begins_hexadecimal(text) {
        digits(&text[2..], 16)
    } else {
        digits(text, 10)
    }
}

fn begins_hexadecimal(text: &[u8]) -> bool
    ensures value { result ≡ begins_hexadecimal text.now }
    ensures long { OnTrue result (3 ≤ length text.now) }
{
    match text {
        [b'0', b'x' | b'X', c, ..] => char::from(*c).is_digit(16),
        _ => false,
    }
}

fn digits(text: &[u8], base: u32) -> i32
    requires low { 2 ≤ base }
    requires high { base ≤ 36 }
    ensures { result ≡ digits_integer base text.now }
{
    match u32::try_from(magnitude(text, base)) {
        Ok(n) => n.cast_signed(),
        Err(_) => -1,
    }
}

// The number of the digits, and 4294967296 for every number above.
fn magnitude(text: &[u8], base: u32) -> u64
    requires low { 2 ≤ base }
    requires high { base ≤ 36 }
    ensures { result ≡ min (digits_value base (take_while (λ c. is_digit c base) text.now)) 4294967296 }
{
    let mut n = 0;
    let mut rest = text;
    'digits: while let [c, more @ ..] = rest {
        match char::from(*c).to_digit(base) {
            Some(d) => n = (n * u64::from(base) + u64::from(d)).min(4294967296),
            None => break,
        }
        rest = more;
    }
    n
}
