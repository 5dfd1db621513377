//! What can be wrong with a text before it is parsed.

use lsl_text::Span;

/// A lexical fault.
#[derive(Clone, Copy, Debug, PartialEq, Eq, Hash)]
pub enum LexKind {
    /// The text isn't UTF-8.
    NotText,
    /// A string has no end.
    StringEnd,
    /// A block comment has no end.
    CommentEnd,
    /// A number with a point.
    FloatLiteral,
    /// No token begins with this character.
    StrayCharacter,
    /// The text has more than 65,536 bytes.
    TextTooLong,
}

/// A lexical fault and its place.
#[derive(Clone, Copy, PartialEq, Eq)]
pub struct LexFault {
    pub kind: LexKind,
    pub span: Span,
}
