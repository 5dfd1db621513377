//! What ends a list of expressions.

ghost use Rattle.std.specs.Prelude.{◌≡◌, [], ◌∷◌};
ghost use Rattle.lsl_grammar.specs.Reading.{begins};
ghost use Rattle.lsl_signs.specs.Kinds.{codes, token_code};
ghost use Rattle.lsl_read.specs.ExpressionReading.{sign_r, sign_of};
ghost use Rattle.lsl_read.specs.Parses.{Parses};

use crate::stop::Found;
use crate::{next, take};
use lsl_lex::Token;

/// The sign that ends a list of expressions.
#[derive(Clone, Copy, PartialEq, Eq)]
pub enum Close {
    Parenthesis,
    Bracket,
    Semicolon,
}

impl Close {
    /// Whether it is next.
    pub fn is_next(self, tokens: &[Token]) -> bool
        ensures { result ≡ begins token_code (codes (sign_of self ∷ [])) tokens.now }
    {
        match self {
            Close::Parenthesis => next::is_paren_close(tokens),
            Close::Bracket => next::is_bracket_close(tokens),
            Close::Semicolon => next::is_semicolon(tokens),
        }
    }

    /// The next token, which must be it.
    pub fn take(self, tokens: &[Token]) -> Found<'_, &Token>
        ensures { Parses (λ x. (x.0.now, x.1.now)) result (sign_r (sign_of self) tokens.now) }
    {
        match self {
            Close::Parenthesis => take::paren_close(tokens),
            Close::Bracket => take::bracket_close(tokens),
            Close::Semicolon => take::semicolon(tokens),
        }
    }
}
