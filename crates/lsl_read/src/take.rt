//! Taking one token, which must be next.

ghost use Rattle.std.specs.Prelude.{◌≡◌, ℕ, List, [], ◌∷◌};
ghost use Rattle.lsl_lex.specs.declared.token_types.Sort.TheVariants.{IfWord, ElseWord, WhileWord, DoWord, ForWord, JumpWord, ReturnWord, StateWord, DefaultWord, Minus, Assign, Comma, Semicolon, At, ParenOpen, ParenClose, BracketOpen, BracketClose, BraceOpen, BraceClose};
ghost use Rattle.lsl_grammar.specs.Reading.{begins, one_r};
ghost use Rattle.lsl_signs.specs.Kinds.{Name, Str, token_code, types};
ghost use Rattle.lsl_signs.specs.Operators.{prefix_signs, step_signs, assign_signs};
ghost use Rattle.lsl_read.specs.ExpressionReading.{sign_r, any_r, int_r};
ghost use Rattle.lsl_read.specs.Parses.{Parses};

use crate::next;
use crate::stop::{Found, Stop};
use lsl_grammar::Why;
use lsl_lex::Token;
use lsl_text::Refusal;

/// The next token, which must be the one that was looked for and found.
fn taken(tokens: &[Token], stands: bool, why: Why) -> Found<'_, &Token>
    ensures { (kinds : List ℕ) → stands ≡ begins token_code kinds tokens.now
        → Parses (λ x. (x.0.now, x.1.now)) result (one_r token_code why kinds tokens.now) }
{
    match tokens {
        [first, rest @ ..] if stands => Ok((first, rest)),
        _ => Err(Refusal::Fault(Stop { why, rest: tokens })),
    }
}

/// The next token, which must be a TYPE.
pub fn type_word(tokens: &[Token]) -> Found<'_, &Token>
    ensures { Parses (λ x. (x.0.now, x.1.now)) result (any_r types tokens.now) }
{
    taken(tokens, next::is_type(tokens), Why::Unexpected)
}

/// The next token, which must be a NAME.
pub fn name(tokens: &[Token]) -> Found<'_, &Token>
    ensures { Parses (λ x. (x.0.now, x.1.now)) result (sign_r Name tokens.now) }
{
    taken(tokens, next::is_name(tokens), Why::Unexpected)
}

/// The next token, which must be a STRING.
pub fn string(tokens: &[Token]) -> Found<'_, &Token>
    ensures { Parses (λ x. (x.0.now, x.1.now)) result (sign_r Str tokens.now) }
{
    taken(tokens, next::is_string(tokens), Why::Unexpected)
}

/// The next token, which must be an INT: it is the last of the operands, so one was due.
pub fn int(tokens: &[Token]) -> Found<'_, &Token>
    ensures { Parses (λ x. (x.0.now, x.1.now)) result (int_r tokens.now) }
{
    taken(tokens, next::is_int(tokens), Why::OperandDue)
}

/// The next token, which must be the sign of a prefix operator.
pub fn prefix_sign(tokens: &[Token]) -> Found<'_, &Token>
    ensures { Parses (λ x. (x.0.now, x.1.now)) result (any_r prefix_signs tokens.now) }
{
    taken(tokens, next::is_prefix(tokens), Why::Unexpected)
}

/// The next token, which must be `++` or `--`.
pub fn step_sign(tokens: &[Token]) -> Found<'_, &Token>
    ensures { Parses (λ x. (x.0.now, x.1.now)) result (any_r step_signs tokens.now) }
{
    taken(tokens, next::is_step(tokens), Why::Unexpected)
}

/// The next token, which must be the sign of an assignment.
pub fn assign_sign(tokens: &[Token]) -> Found<'_, &Token>
    ensures { Parses (λ x. (x.0.now, x.1.now)) result (any_r assign_signs tokens.now) }
{
    taken(tokens, next::is_assignment(tokens), Why::Unexpected)
}

/// The next token, which must be `-`.
pub fn minus(tokens: &[Token]) -> Found<'_, &Token>
    ensures { Parses (λ x. (x.0.now, x.1.now)) result (sign_r Minus tokens.now) }
{
    taken(tokens, next::is_minus(tokens), Why::Unexpected)
}

/// The next token, which must be `=`.
pub fn equals(tokens: &[Token]) -> Found<'_, &Token>
    ensures { Parses (λ x. (x.0.now, x.1.now)) result (sign_r Assign tokens.now) }
{
    taken(tokens, next::is_equals(tokens), Why::Unexpected)
}

/// The next token, which must be `,`.
pub fn comma(tokens: &[Token]) -> Found<'_, &Token>
    ensures { Parses (λ x. (x.0.now, x.1.now)) result (sign_r Comma tokens.now) }
{
    taken(tokens, next::is_comma(tokens), Why::Unexpected)
}

/// The next token, which must be `;`.
pub fn semicolon(tokens: &[Token]) -> Found<'_, &Token>
    ensures { Parses (λ x. (x.0.now, x.1.now)) result (sign_r Semicolon tokens.now) }
{
    taken(tokens, next::is_semicolon(tokens), Why::Unexpected)
}

/// The next token, which must be `@`.
pub fn at(tokens: &[Token]) -> Found<'_, &Token>
    ensures { Parses (λ x. (x.0.now, x.1.now)) result (sign_r At tokens.now) }
{
    taken(tokens, next::is_at(tokens), Why::Unexpected)
}

/// The next token, which must be `(`.
pub fn paren_open(tokens: &[Token]) -> Found<'_, &Token>
    ensures { Parses (λ x. (x.0.now, x.1.now)) result (sign_r ParenOpen tokens.now) }
{
    taken(tokens, next::is_paren_open(tokens), Why::Unexpected)
}

/// The next token, which must be `)`.
pub fn paren_close(tokens: &[Token]) -> Found<'_, &Token>
    ensures { Parses (λ x. (x.0.now, x.1.now)) result (sign_r ParenClose tokens.now) }
{
    taken(tokens, next::is_paren_close(tokens), Why::Unexpected)
}

/// The next token, which must be `[`.
pub fn bracket_open(tokens: &[Token]) -> Found<'_, &Token>
    ensures { Parses (λ x. (x.0.now, x.1.now)) result (sign_r BracketOpen tokens.now) }
{
    taken(tokens, next::is_bracket_open(tokens), Why::Unexpected)
}

/// The next token, which must be `]`.
pub fn bracket_close(tokens: &[Token]) -> Found<'_, &Token>
    ensures { Parses (λ x. (x.0.now, x.1.now)) result (sign_r BracketClose tokens.now) }
{
    taken(tokens, next::is_bracket_close(tokens), Why::Unexpected)
}

/// The next token, which must be `{`.
pub fn brace_open(tokens: &[Token]) -> Found<'_, &Token>
    ensures { Parses (λ x. (x.0.now, x.1.now)) result (sign_r BraceOpen tokens.now) }
{
    taken(tokens, next::is_brace_open(tokens), Why::Unexpected)
}

/// The next token, which must be `}`.
pub fn brace_close(tokens: &[Token]) -> Found<'_, &Token>
    ensures { Parses (λ x. (x.0.now, x.1.now)) result (sign_r BraceClose tokens.now) }
{
    taken(tokens, next::is_brace_close(tokens), Why::Unexpected)
}

/// The next token, which must be `if`.
pub fn if_word(tokens: &[Token]) -> Found<'_, &Token>
    ensures { Parses (λ x. (x.0.now, x.1.now)) result (sign_r IfWord tokens.now) }
{
    taken(tokens, next::is_if(tokens), Why::Unexpected)
}

/// The next token, which must be `else`.
pub fn else_word(tokens: &[Token]) -> Found<'_, &Token>
    ensures { Parses (λ x. (x.0.now, x.1.now)) result (sign_r ElseWord tokens.now) }
{
    taken(tokens, next::is_else(tokens), Why::Unexpected)
}

/// The next token, which must be `while`.
pub fn while_word(tokens: &[Token]) -> Found<'_, &Token>
    ensures { Parses (λ x. (x.0.now, x.1.now)) result (sign_r WhileWord tokens.now) }
{
    taken(tokens, next::is_while(tokens), Why::Unexpected)
}

/// The next token, which must be `do`.
pub fn do_word(tokens: &[Token]) -> Found<'_, &Token>
    ensures { Parses (λ x. (x.0.now, x.1.now)) result (sign_r DoWord tokens.now) }
{
    taken(tokens, next::is_do(tokens), Why::Unexpected)
}

/// The next token, which must be `for`.
pub fn for_word(tokens: &[Token]) -> Found<'_, &Token>
    ensures { Parses (λ x. (x.0.now, x.1.now)) result (sign_r ForWord tokens.now) }
{
    taken(tokens, next::is_for(tokens), Why::Unexpected)
}

/// The next token, which must be `jump`.
pub fn jump_word(tokens: &[Token]) -> Found<'_, &Token>
    ensures { Parses (λ x. (x.0.now, x.1.now)) result (sign_r JumpWord tokens.now) }
{
    taken(tokens, next::is_jump(tokens), Why::Unexpected)
}

/// The next token, which must be `return`.
pub fn return_word(tokens: &[Token]) -> Found<'_, &Token>
    ensures { Parses (λ x. (x.0.now, x.1.now)) result (sign_r ReturnWord tokens.now) }
{
    taken(tokens, next::is_return(tokens), Why::Unexpected)
}

/// The next token, which must be `state`.
pub fn state_word(tokens: &[Token]) -> Found<'_, &Token>
    ensures { Parses (λ x. (x.0.now, x.1.now)) result (sign_r StateWord tokens.now) }
{
    taken(tokens, next::is_state(tokens), Why::Unexpected)
}

/// The next token, which must be `default`.
pub fn default_word(tokens: &[Token]) -> Found<'_, &Token>
    ensures { Parses (λ x. (x.0.now, x.1.now)) result (sign_r DefaultWord tokens.now) }
{
    taken(tokens, next::is_default(tokens), Why::Unexpected)
}
