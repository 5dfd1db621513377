//! The limits of a script.

ghost use Rattle.std.specs.Prelude.{◌≡◌};
ghost use Rattle.lsl_signs.specs.Limits.{height_limit, most_constructs, most_tokens};

/// The greatest depth of nested constructs.
pub const DEPTH: u32 = 200;

/// An operand of at least this height can't be to the left of an operator.
pub const HEIGHT: u32 = 200;

/// The greatest number of tokens of a script.
pub const TOKENS: usize = 32_768;

/// The limits of the grammar: depth, height, tokens.
pub fn grammar_limits() -> (u32, u32, usize)
    ensures { result ≡ (most_constructs, height_limit, most_tokens) }
{
    (DEPTH, HEIGHT, TOKENS)
}
