//! Integers.

ghost use Rattle.std.specs.Prelude.{◌≡◌, ◌≤◌, ◌==◌, length, slice_index};
ghost use Rattle.std.specs.Bool.{OnTrue};
ghost use Rattle.lsl_text.specs.Number.{begins_hexadecimal, leading_integer_of};
ghost use Rattle.lsl_lex.specs.Limits.{source_bytes};
ghost use Rattle.lsl_lex.specs.declared.token_types.Sort.TheVariants.{Int};
ghost use Rattle.lsl_lex.specs.Reading.{Finds, number};

use crate::bytes::{decimal_length, hexadecimal_length, is_hexadecimal};
use crate::faults::LexKind;
use crate::piece::Piece;
use crate::token_types::Sort;
use lsl_text::{Refusal, leading_integer};

/// The integer at the front of a text that begins with a digit.
#[tactic(auto, unfolding(crate::specs::Reading::number))]
pub fn number(text: &[u8]) -> Result<Piece, Refusal<LexKind>>
    requires short { length text.now ≤ source_bytes }
    ensures { Finds result (number text.now) }
{
    if begins_hexadecimal(text) {
        return Ok(integer(text, hexadecimal_length(&text[2..]) + 2));
    }
    let length = decimal_length(text);
    if has_point(text, length) {
        return Err(Refusal::Fault(LexKind::FloatLiteral));
    }
    Ok(integer(text, length))
}

fn has_point(text: &[u8], place: usize) -> bool
    ensures { result ≡ (slice_index text.now place == 46) }
{
    match text.get(place) {
        Some(b) => *b == b'.',
        None => false,
    }
}

fn integer(text: &[u8], length: usize) -> Piece
    ensures { result
        ≡ record { gives = Some (Int (leading_integer_of text.now)); length = length } }
{
    Piece {
        gives: Some(Sort::Int(leading_integer(text))),
        length,
    }
}

fn begins_hexadecimal(text: &[u8]) -> bool
    ensures value { result ≡ begins_hexadecimal text.now }
    ensures long { OnTrue result (3 ≤ length text.now) }
{
    match text {
        [b'0', b'x' | b'X', c, ..] => is_hexadecimal(*c),
        _ => false,
    }
}
