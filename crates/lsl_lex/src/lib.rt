//! Tokens of source text: every text is cut into blanks, comments and tokens, or refused at its first
//! fault.
#![tactic(auto)]

ghost use Rattle.std.specs.Prelude.{◌≡◌, ◌≤◌, ◌⊎◌, [], length, take, IfOk, IfErr, MatchResult};
ghost use Rattle.lsl_text.specs.Place.{span_of};
ghost use Rattle.lsl_text.specs.declared.Refusal.TheVariants.{Fault, NoMemory};
ghost use Rattle.lsl_lex.specs.Lexed.{Lexes, LexFirst, IsRefused};
ghost use Rattle.lsl_lex.specs.Limits.{source_bytes};
ghost use Rattle.lsl_lex.specs.declared.faults.LexFault.{LexFault};
ghost use Rattle.lsl_lex.specs.declared.token_types.Tokens.{Tokens};

use crate::cut::{advance, cut, fault_at};
use lsl_text::{Cursor, Refusal};
use std::alloc::Global;

mod bytes;
mod comments;
mod cut;
mod faults;
mod names;
mod numbers;
mod piece;
mod signs;
mod strings;
mod token_types;
mod words;

pub use crate::faults::{LexFault, LexKind};
pub use crate::token_types::{Sort, Token, TokenList, Tokens};

/// How many bytes a text has at most.
pub const MAX_SOURCE_BYTES: usize = 65_536;

/// The tokens of a text, or its first fault.
///
/// A fault's span is empty. It is at the first byte of the open string or comment, of the number, or of the character
/// that begins no token; after the longest prefix of the text that is UTF-8; at the start of a text that is too long.
///
/// Takes memory for the tokens, names and strings, in proportion to the text, and time in proportion to it.
///
/// See <https://wiki.secondlife.com/wiki/LSL_Tokens>.
pub fn lex(alloc: Global, text: &[u8]) -> Result<Tokens, Refusal<LexFault>>
    ensures found { IfOk result (Lexes text.now) }
    ensures every { (tokens : Tokens) → Lexes text.now tokens
        → MatchResult result (λ found. found ≡ tokens) (λ refusal. refusal ≡ NoMemory) }
    ensures first { IfErr result (IsRefused text.now) }
    ensures only { (fault : LexFault) → LexFirst text.now fault
        → MatchResult result (λ _. ⊥) (λ refusal. (refusal ≡ Fault fault) ⊎ (refusal ≡ NoMemory)) }
{
    let start = Cursor::new();
    if text.len() > MAX_SOURCE_BYTES {
        return Err(Refusal::Fault(fault_at(&start, LexKind::TextTooLong)));
    }
    match std::str::from_utf8(text) {
        Ok(_) => cut(alloc, text),
        Err(error) => Err(Refusal::Fault(not_text(text, error.valid_up_to()))),
    }
}

// The fault after the longest prefix that is UTF-8.
fn not_text(text: &[u8], place: usize) -> LexFault
    requires short { length text.now ≤ source_bytes }
    requires within { place ≤ length text.now }
    ensures kind { result.kind ≡ LexKind.NotText }
    ensures span { result.span ≡ span_of (take place text.now) [] }
{
    let mut cursor = Cursor::new();
    advance(&mut cursor, text, place);
    fault_at(&cursor, LexKind::NotText)
}
