//! Comments.

ghost use Rattle.std.specs.Prelude.{◌≡◌, ◌≤◌, length, IfSome};
ghost use Rattle.lsl_lex.specs.Limits.{source_bytes};
ghost use Rattle.lsl_lex.specs.Reading.{Finds, close_of, block_comment, line_comment};

use crate::bytes::line_length;
use crate::faults::LexKind;
use crate::piece::Piece;
use lsl_text::Refusal;

/// The comment at the front of a text that begins with `/*`.
#[tactic(auto, unfolding(crate::specs::Reading::block_comment))]
pub fn block_comment(text: &[u8]) -> Result<Piece, Refusal<LexKind>>
    requires long { 2 ≤ length text.now }
    requires short { length text.now ≤ source_bytes }
    ensures { Finds result (block_comment text.now) }
{
    match close_length(&text[2..]) {
        Some(n) => Ok(Piece {
            gives: None,
            length: n + 2,
        }),
        None => Err(Refusal::Fault(LexKind::CommentEnd)),
    }
}

/// The comment at the front of a text that begins with `//`.
#[tactic(auto, unfolding(crate::specs::Reading::line_comment))]
pub fn line_comment(text: &[u8]) -> Result<Piece, Refusal<LexKind>>
    requires long { 2 ≤ length text.now }
    requires short { length text.now ≤ source_bytes }
    ensures { Finds result (line_comment text.now) }
{
    Ok(Piece {
        gives: None,
        length: line_length(&text[2..]) + 2,
    })
}

// How many bytes there are up to the end of the comment.
fn close_length(text: &[u8]) -> Option<usize>
    ensures count { result ≡ close_of text.now }
    ensures within { IfSome result (λ n. n ≤ length text.now) }
{
    let mut n = 0;
    let mut rest = text;
    'bytes: while let [b, c, ..] = rest {
        if *b == b'*' && *c == b'/' {
            return Some(n + 2);
        }
        n += 1;
        rest = &rest[1..];
    }
    None
}
