//! Where reading stopped, and why.

ghost use Rattle.std.specs.Prelude.{◌≡◌};
ghost use Rattle.lsl_read.specs.Parses.{too_deep_or_at};

use lsl_grammar::Why;
use lsl_lex::Token;
use lsl_text::Refusal;

/// Why reading stopped, and the tokens from there on.
#[derive(Clone, Copy)]
pub struct Stop<'a> {
    pub why: Why,
    pub rest: &'a [Token],
}

/// What was read and the tokens after it, or where reading stopped.
pub type Found<'a, T> = Result<(T, &'a [Token]), Refusal<Stop<'a>>>;

/// What would begin here is too deep; if nothing would begin, `why` is the reason.
pub fn too_deep_or(tokens: &[Token], begins: bool, why: Why) -> Stop<'_>
    ensures { (result.why, result.rest.now) ≡ too_deep_or_at begins why tokens.now }
{
    let why = if begins { Why::TooDeep } else { why };
    Stop { why, rest: tokens }
}
