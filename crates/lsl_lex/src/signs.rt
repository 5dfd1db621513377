//! Signs of one and of two characters.

ghost use Rattle.std.specs.Prelude.{◌≡◌, ◌<◌, [], ◌∷◌, length, take};
ghost use Rattle.lsl_lex.specs.Reading.{Finds, row_of, stray, sign};
ghost use Rattle.lsl_lex.specs.Tokens.{pair_signs, single_signs};

use crate::bytes::is_decimal;
use crate::faults::LexKind;
use crate::piece::Piece;
use crate::token_types::Sort;
use lsl_text::Refusal;

/// The sign at the front of a text, or the fault of a text that begins with none.
#[tactic(auto, unfolding(crate::specs::Reading::sign))]
pub fn sign(text: &[u8]) -> Result<Piece, Refusal<LexKind>>
    requires { 0 < length text.now }
    ensures { Finds result (sign text.now) }
{
    if let Some(pair) = front_pair(text) {
        return Ok(Piece {
            gives: Some(pair),
            length: 2,
        });
    }
    match single_sign(text[0]) {
        Some(single) => Ok(Piece {
            gives: Some(single),
            length: 1,
        }),
        None => Err(Refusal::Fault(stray(text))),
    }
}

fn stray(text: &[u8]) -> LexKind
    ensures { stray text.now ≡ Err result }
{
    match text {
        [b'.', digit, ..] if is_decimal(*digit) => LexKind::FloatLiteral,
        _ => LexKind::StrayCharacter,
    }
}

fn front_pair(text: &[u8]) -> Option<Sort>
    ensures { result ≡ row_of pair_signs (take 2 text.now) }
{
    match text {
        [b, c, ..] => pair_sign(*b, *c),
        _ => None,
    }
}

fn pair_sign(b: u8, c: u8) -> Option<Sort>
    ensures { result ≡ row_of pair_signs (b ∷ c ∷ []) }
{
    match b {
        b'+' => match c {
            b'+' => Some(Sort::PlusPlus),
            b'=' => Some(Sort::PlusAssign),
            _ => None,
        },
        b'-' => match c {
            b'-' => Some(Sort::MinusMinus),
            b'=' => Some(Sort::MinusAssign),
            _ => None,
        },
        b'*' => (c == b'=').then_some(Sort::StarAssign),
        b'/' => (c == b'=').then_some(Sort::SlashAssign),
        b'%' => (c == b'=').then_some(Sort::PercentAssign),
        b'=' => (c == b'=').then_some(Sort::EqualEqual),
        b'!' => (c == b'=').then_some(Sort::BangEqual),
        b'<' => match c {
            b'=' => Some(Sort::LessEqual),
            b'<' => Some(Sort::LessLess),
            _ => None,
        },
        b'>' => match c {
            b'=' => Some(Sort::MoreEqual),
            b'>' => Some(Sort::MoreMore),
            _ => None,
        },
        b'&' => (c == b'&').then_some(Sort::AndAnd),
        b'|' => (c == b'|').then_some(Sort::OrOr),
        _ => None,
    }
}

fn single_sign(b: u8) -> Option<Sort>
    ensures { result ≡ row_of single_signs (b ∷ []) }
{
    match b {
        b'+' => Some(Sort::Plus),
        b'-' => Some(Sort::Minus),
        b'*' => Some(Sort::Star),
        b'/' => Some(Sort::Slash),
        b'%' => Some(Sort::Percent),
        b'=' => Some(Sort::Assign),
        b'<' => Some(Sort::Less),
        b'>' => Some(Sort::More),
        b'!' => Some(Sort::Bang),
        b'~' => Some(Sort::Tilde),
        b'&' => Some(Sort::And),
        b'|' => Some(Sort::Or),
        b'^' => Some(Sort::Caret),
        b'(' => Some(Sort::ParenOpen),
        b')' => Some(Sort::ParenClose),
        b'[' => Some(Sort::BracketOpen),
        b']' => Some(Sort::BracketClose),
        b'{' => Some(Sort::BraceOpen),
        b'}' => Some(Sort::BraceClose),
        b',' => Some(Sort::Comma),
        b';' => Some(Sort::Semicolon),
        b'@' => Some(Sort::At),
        _ => None,
    }
}
