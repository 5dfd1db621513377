//! A whole text cut into its pieces.

ghost use Rattle.std.specs.Prelude.{◌≡◌, ◌+◌, ◌≤◌, ◌++◌, true, length, take, drop, IfOk, IfErr, OnOk};
ghost use Rattle.std.specs.List.{AllPass};
ghost use Rattle.lsl_text.specs.Place.{IsAt};
ghost use Rattle.lsl_lex.specs.Bytes.{is_in_line};
ghost use Rattle.lsl_lex.specs.Lexed.{IsSource, Lexes, IsRefused};
ghost use Rattle.lsl_lex.specs.Limits.{source_bytes};
ghost use Rattle.lsl_lex.specs.Pieces.{token_of};
ghost use Rattle.lsl_lex.specs.Reading.{fault_of, refusal_of, keeps_line};

use crate::bytes::is_blank;
use crate::faults::{LexFault, LexKind};
use crate::names::Names;
use crate::piece::{Piece, next};
use crate::token_types::{Sort, Token, TokenList, Tokens};
use lsl_text::{Cursor, NoMemory, Refusal, Span};
use std::alloc::Global;

/// The tokens of a text of UTF-8, or its first fault.
pub fn cut(alloc: Global, text: &[u8]) -> Result<Tokens, Refusal<LexFault>>
    requires { IsSource text.now }
    ensures found { IfOk result (Lexes text.now) }
    ensures first { IfErr result (IsRefused text.now) }
{
    let mut list = Vec::with_capacity(alloc, text.len() / 4)?;
    let mut names = Names::new(alloc)?;
    let mut cursor = Cursor::new();
    let mut rest = text;
    'pieces: while let [b, more @ ..] = rest {
        if is_blank(*b) {
            cursor.step(text);
            rest = more;
            continue;
        }
        let from = cursor;
        let piece = match next(alloc, &mut names, rest) {
            Ok(piece) => piece,
            Err(refusal) => return Err(refused_at(&from, refusal)),
        };
        pass(&mut cursor, text, &piece);
        rest = &rest[piece.length..];
        push_token(&mut list, piece.gives, cursor.span(&from))?;
    }
    Ok(Tokens {
        list: TokenList::from_vec(list),
        end: cursor.span(&cursor),
    })
}

// Moves the cursor past the piece at the front of the text.
fn pass(cursor: &mut Cursor, text: &[u8], piece: &Piece)
    requires short { length text.now ≤ source_bytes }
    requires within { cursor.old.offset + piece.now.length ≤ length text.now }
    requires place { IsAt text.now cursor.old }
    requires line { keeps_line piece.now.gives ≡ true
        → AllPass is_in_line (take piece.now.length (drop cursor.old.offset text.now)) }
    ensures next { cursor.new.offset ≡ cursor.old.offset + piece.now.length }
    ensures place { IsAt text.now cursor.new }
{
    if piece.keeps_line() {
        let behind = along(cursor, piece.length);
        *cursor = behind;
    } else {
        advance(cursor, text, piece.length);
    }
}

// The cursor after `count` bytes of its line.
fn along(cursor: &Cursor, count: usize) -> Cursor
    requires { cursor.now.offset + count ≤ source_bytes }
    ensures offset { result.offset ≡ cursor.now.offset + count }
    ensures line { result.line ≡ cursor.now.line }
    ensures column { result.col ≡ cursor.now.col + count }
{
    Cursor {
        offset: cursor.offset + count as u32,
        line: cursor.line,
        col: cursor.col + count as u32,
    }
}

// A blank or a comment adds no token.
fn push_token(list: &mut Vec<Token>, gives: Option<Sort>, span: Span) -> Result<(), NoMemory>
    ensures { OnOk result (list.new.items ≡ list.old.items ++ token_of gives span) }
{
    if let Some(sort) = gives {
        list.push(Token { sort, span })?;
    }
    Ok(())
}

/// The fault of this kind at the cursor: its span is empty.
pub fn fault_at(cursor: &Cursor, kind: LexKind) -> LexFault
    ensures { result ≡ fault_of kind cursor.now }
{
    LexFault {
        kind,
        span: cursor.span(cursor),
    }
}

fn refused_at(cursor: &Cursor, refusal: Refusal<LexKind>) -> Refusal<LexFault>
    ensures { result ≡ refusal_of cursor.now refusal }
{
    match refusal {
        Refusal::Fault(kind) => Refusal::Fault(fault_at(cursor, kind)),
        Refusal::NoMemory => Refusal::NoMemory,
    }
}

/// Moves the cursor forward by `count` bytes of the text.
pub fn advance(cursor: &mut Cursor, text: &[u8], count: usize)
    requires short { length text.now ≤ source_bytes }
    requires within { cursor.old.offset + count ≤ length text.now }
    requires place { IsAt text.now cursor.old }
    ensures next { cursor.new.offset ≡ cursor.old.offset + count }
    ensures place { IsAt text.now cursor.new }
{
    'steps: for _step in 0..count {
        cursor.step(text);
    }
}
