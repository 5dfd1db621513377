//! Languages of tokens, readers of them from left to right, and what one owes the other: a theory for parsers,
//! with the one type that readers of any language share. It holds no code to run.
#![tactic(auto)]

/// Why a reader stopped at a token.
#[derive(Clone, Copy, PartialEq, Eq, Hash)]
pub enum Why {
    /// No text continues with this token, nor with an operand in its place.
    Unexpected,
    /// No text continues with this token, but an operand could begin in its place.
    OperandDue,
    /// The token continues a text, but only within wider limits.
    TooDeep,
}
