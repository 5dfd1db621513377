//! What can be wrong with a list of tokens.

ghost use Rattle.std.specs.Prelude.{◌≡◌};
ghost use Rattle.lsl_parse.specs.FaultNumbers.{number_of};

use lsl_text::Span;

/// A syntax fault.
#[derive(Clone, Copy, PartialEq, Eq, Hash)]
pub enum ParseKind {
    /// No script continues with this token.
    Unexpected,
    /// The text ended before the script did.
    EndOfText,
    /// The word of a type that isn't in the language, or `<` where an operand must begin.
    FloatType,
    /// The token opens a construct inside 200 others, or is an operator after an operand of height 200 or more.
    TooDeep,
    /// The token with number 32,769.
    TooLarge,
}

impl ParseKind {
    /// The fault's number, 10 to 14.
    pub fn number(self) -> u8
        ensures { result ≡ number_of self }
    {
        match self {
            ParseKind::Unexpected => 10,
            ParseKind::EndOfText => 11,
            ParseKind::FloatType => 12,
            ParseKind::TooDeep => 13,
            ParseKind::TooLarge => 14,
        }
    }
}

/// A syntax fault and the place of its token, or the end of the text.
#[derive(Clone, Copy, PartialEq, Eq)]
pub struct ParseFault {
    pub kind: ParseKind,
    pub span: Span,
}
