//! The piece at the front of a text.

ghost use Rattle.std.specs.Prelude.{◌≡◌, ◌<◌, ◌≤◌, ◌==◌, ◌&&◌, length, slice_index, unwrap_or, IfOk};
ghost use Rattle.std.specs.Bool.{OnTrue};
ghost use Rattle.std.specs.List.{AllPass};
ghost use Rattle.lsl_lex.specs.Bytes.{is_name_byte};
ghost use Rattle.lsl_lex.specs.Lexed.{EndsText};
ghost use Rattle.lsl_lex.specs.Limits.{source_bytes};
ghost use Rattle.lsl_lex.specs.Reading.{Finds, row_of, keeps_line, name, piece};
ghost use Rattle.lsl_lex.specs.Tokens.{words};
ghost use Rattle.lsl_lex.specs.declared.token_types.Sort.TheVariants.{Name};

use crate::bytes::{is_blank, is_decimal, is_letter, name_length};
use crate::comments::{block_comment, line_comment};
use crate::faults::LexKind;
use crate::names::Names;
use crate::numbers::number;
use crate::signs::sign;
use crate::strings::string;
use crate::token_types::Sort;
use crate::words::word;
use lsl_text::{NoMemory, Refusal};
use std::alloc::Global;

/// What the front of a text is: a blank or a comment gives nothing, a token its sort.
#[derive(Drop)]
pub struct Piece {
    pub gives: Option<Sort>,
    pub length: usize,
}

impl Piece {
    /// Whether it surely has no line feed: a string and a comment may have some.
    pub fn keeps_line(&self) -> bool
        ensures { result ≡ keeps_line self.now.gives }
    {
        !matches!(self.gives, None | Some(Sort::Str(_)))
    }
}

/// The piece at the front of a text that isn't empty.
#[tactic(auto, unfolding(crate::specs::Reading::piece))]
pub fn next(alloc: Global, names: &mut Names, text: &[u8]) -> Result<Piece, Refusal<LexKind>>
    requires some { 0 < length text.now }
    requires short { length text.now ≤ source_bytes }
    requires valid { EndsText text.now }
    ensures { Finds result (piece text.now) }
{
    let b = text[0];
    if is_blank(b) {
        Ok(Piece {
            gives: None,
            length: 1,
        })
    } else if opens(text, b'*') {
        block_comment(text)
    } else if opens(text, b'/') {
        line_comment(text)
    } else if is_letter(b) {
        name(alloc, names, text)
    } else if is_decimal(b) {
        number(text)
    } else if b == b'"' {
        string(alloc, text)
    } else {
        sign(text)
    }
}

// Whether the text begins with a slash and this byte.
fn opens(text: &[u8], second: u8) -> bool
    requires { 0 < second }
    ensures value { result ≡ (slice_index text.now 0 == 47 && slice_index text.now 1 == second) }
    ensures long { OnTrue result (2 ≤ length text.now) }
{
    match text {
        [b'/', b, ..] => *b == second,
        _ => false,
    }
}

#[tactic(auto, unfolding(crate::specs::Reading::name))]
fn name(alloc: Global, names: &mut Names, text: &[u8]) -> Result<Piece, Refusal<LexKind>>
    requires { length text.now ≤ source_bytes }
    ensures { Finds result (name text.now) }
{
    let length = name_length(text);
    let sort = word_or_name(alloc, names, &text[..length])?;
    Ok(Piece {
        gives: Some(sort),
        length,
    })
}

fn word_or_name(alloc: Global, names: &mut Names, bytes: &[u8]) -> Result<Sort, NoMemory>
    requires short { length bytes.now ≤ source_bytes }
    requires name { AllPass is_name_byte bytes.now }
    ensures { IfOk result (λ sort. sort ≡ unwrap_or (row_of words bytes.now) (Name bytes.now)) }
{
    match word(bytes) {
        Some(sort) => Ok(sort),
        None => Ok(Sort::Name(names.text(alloc, bytes)?)),
    }
}
