//! Tests of the next token.

ghost use Rattle.std.specs.Prelude.{◌≡◌, [], ◌∷◌};
ghost use Rattle.lsl_lex.specs.declared.token_types.Sort.TheVariants.{IfWord, ElseWord, WhileWord, DoWord, ForWord, JumpWord, ReturnWord, StateWord, DefaultWord, Assign, At, Minus, ParenOpen, ParenClose, BracketOpen, BracketClose, BraceOpen, BraceClose, Comma, Semicolon};
ghost use Rattle.lsl_grammar.specs.Reading.{begins};
ghost use Rattle.lsl_signs.specs.Kinds.{Name, Int, Str, codes, token_code, not_end, types};
ghost use Rattle.lsl_signs.specs.Operators.{prefix_signs, step_signs, assign_signs};
ghost use Rattle.lsl_read.specs.StatementReading.{statement_heads};
ghost use Rattle.lsl_read.specs.ScriptReading.{header_heads};

use lsl_lex::{Sort, Token};

macro_rules! stands {
    ($tokens:expr, $sort:pat) => {
        matches!($tokens, [Token { sort: $sort, .. }, ..])
    };
}

/// Whether a TYPE is next.
pub fn is_type(tokens: &[Token]) -> bool
    ensures { result ≡ begins token_code (codes types) tokens.now }
{
    stands!(
        tokens,
        Sort::IntegerWord | Sort::StringWord | Sort::KeyWord | Sort::ListWord
    )
}

/// Whether a NAME is next.
pub fn is_name(tokens: &[Token]) -> bool
    ensures { result ≡ begins token_code (codes (Name ∷ [])) tokens.now }
{
    stands!(tokens, Sort::Name(_))
}

/// Whether the sign of a prefix operator is next.
pub fn is_prefix(tokens: &[Token]) -> bool
    ensures { result ≡ begins token_code (codes prefix_signs) tokens.now }
{
    stands!(tokens, Sort::Minus | Sort::Bang | Sort::Tilde)
}

/// Whether `++` or `--` is next.
pub fn is_step(tokens: &[Token]) -> bool
    ensures { result ≡ begins token_code (codes step_signs) tokens.now }
{
    stands!(tokens, Sort::PlusPlus | Sort::MinusMinus)
}

/// Whether the sign of an assignment is next.
pub fn is_assignment(tokens: &[Token]) -> bool
    ensures { result ≡ begins token_code (codes assign_signs) tokens.now }
{
    stands!(
        tokens,
        Sort::Assign
            | Sort::PlusAssign
            | Sort::MinusAssign
            | Sort::StarAssign
            | Sort::SlashAssign
            | Sort::PercentAssign
    )
}

/// Whether `=` is next.
pub fn is_equals(tokens: &[Token]) -> bool
    ensures { result ≡ begins token_code (codes (Assign ∷ [])) tokens.now }
{
    stands!(tokens, Sort::Assign)
}

/// Whether `,` is next.
pub fn is_comma(tokens: &[Token]) -> bool
    ensures { result ≡ begins token_code (codes (Comma ∷ [])) tokens.now }
{
    stands!(tokens, Sort::Comma)
}

/// Whether `;` is next.
pub fn is_semicolon(tokens: &[Token]) -> bool
    ensures { result ≡ begins token_code (codes (Semicolon ∷ [])) tokens.now }
{
    stands!(tokens, Sort::Semicolon)
}

/// Whether `(` is next.
pub fn is_paren_open(tokens: &[Token]) -> bool
    ensures { result ≡ begins token_code (codes (ParenOpen ∷ [])) tokens.now }
{
    stands!(tokens, Sort::ParenOpen)
}

/// Whether `)` is next.
pub fn is_paren_close(tokens: &[Token]) -> bool
    ensures { result ≡ begins token_code (codes (ParenClose ∷ [])) tokens.now }
{
    stands!(tokens, Sort::ParenClose)
}

/// Whether `[` is next.
pub fn is_bracket_open(tokens: &[Token]) -> bool
    ensures { result ≡ begins token_code (codes (BracketOpen ∷ [])) tokens.now }
{
    stands!(tokens, Sort::BracketOpen)
}

/// Whether `]` is next.
pub fn is_bracket_close(tokens: &[Token]) -> bool
    ensures { result ≡ begins token_code (codes (BracketClose ∷ [])) tokens.now }
{
    stands!(tokens, Sort::BracketClose)
}

/// Whether `{` is next.
pub fn is_brace_open(tokens: &[Token]) -> bool
    ensures { result ≡ begins token_code (codes (BraceOpen ∷ [])) tokens.now }
{
    stands!(tokens, Sort::BraceOpen)
}

/// Whether `@` is next.
pub fn is_at(tokens: &[Token]) -> bool
    ensures { result ≡ begins token_code (codes (At ∷ [])) tokens.now }
{
    stands!(tokens, Sort::At)
}

/// Whether `-` is next.
pub fn is_minus(tokens: &[Token]) -> bool
    ensures { result ≡ begins token_code (codes (Minus ∷ [])) tokens.now }
{
    stands!(tokens, Sort::Minus)
}

/// Whether a STRING is next.
pub fn is_string(tokens: &[Token]) -> bool
    ensures { result ≡ begins token_code (codes (Str ∷ [])) tokens.now }
{
    stands!(tokens, Sort::Str(_))
}

/// Whether `else` is next.
pub fn is_else(tokens: &[Token]) -> bool
    ensures { result ≡ begins token_code (codes (ElseWord ∷ [])) tokens.now }
{
    stands!(tokens, Sort::ElseWord)
}

/// Whether `state` is next.
pub fn is_state(tokens: &[Token]) -> bool
    ensures { result ≡ begins token_code (codes (StateWord ∷ [])) tokens.now }
{
    stands!(tokens, Sort::StateWord)
}

/// Whether an INT is next.
pub fn is_int(tokens: &[Token]) -> bool
    ensures { result ≡ begins token_code (codes (Int ∷ [])) tokens.now }
{
    stands!(tokens, Sort::Int(_))
}

/// Whether `}` is next.
pub fn is_brace_close(tokens: &[Token]) -> bool
    ensures { result ≡ begins token_code (codes (BraceClose ∷ [])) tokens.now }
{
    stands!(tokens, Sort::BraceClose)
}

/// Whether `if` is next.
pub fn is_if(tokens: &[Token]) -> bool
    ensures { result ≡ begins token_code (codes (IfWord ∷ [])) tokens.now }
{
    stands!(tokens, Sort::IfWord)
}

/// Whether `while` is next.
pub fn is_while(tokens: &[Token]) -> bool
    ensures { result ≡ begins token_code (codes (WhileWord ∷ [])) tokens.now }
{
    stands!(tokens, Sort::WhileWord)
}

/// Whether `do` is next.
pub fn is_do(tokens: &[Token]) -> bool
    ensures { result ≡ begins token_code (codes (DoWord ∷ [])) tokens.now }
{
    stands!(tokens, Sort::DoWord)
}

/// Whether `for` is next.
pub fn is_for(tokens: &[Token]) -> bool
    ensures { result ≡ begins token_code (codes (ForWord ∷ [])) tokens.now }
{
    stands!(tokens, Sort::ForWord)
}

/// Whether `jump` is next.
pub fn is_jump(tokens: &[Token]) -> bool
    ensures { result ≡ begins token_code (codes (JumpWord ∷ [])) tokens.now }
{
    stands!(tokens, Sort::JumpWord)
}

/// Whether `return` is next.
pub fn is_return(tokens: &[Token]) -> bool
    ensures { result ≡ begins token_code (codes (ReturnWord ∷ [])) tokens.now }
{
    stands!(tokens, Sort::ReturnWord)
}

/// Whether `default` is next.
pub fn is_default(tokens: &[Token]) -> bool
    ensures { result ≡ begins token_code (codes (DefaultWord ∷ [])) tokens.now }
{
    stands!(tokens, Sort::DefaultWord)
}

/// Whether a global or a function begins.
pub fn is_header(tokens: &[Token]) -> bool
    ensures { result ≡ begins token_code (codes header_heads) tokens.now }
{
    stands!(
        tokens,
        Sort::IntegerWord | Sort::StringWord | Sort::KeyWord | Sort::ListWord | Sort::Name(_)
    )
}

/// Whether a statement begins.
pub fn is_statement(tokens: &[Token]) -> bool
    ensures { result ≡ begins token_code (codes statement_heads) tokens.now }
{
    match tokens {
        [first, ..] => match first.sort {
            Sort::BraceOpen | Sort::IfWord | Sort::WhileWord | Sort::DoWord | Sort::ForWord => true,
            Sort::JumpWord | Sort::ReturnWord | Sort::StateWord | Sort::Semicolon => true,
            Sort::Minus | Sort::Bang | Sort::Tilde => true,
            Sort::PlusPlus | Sort::MinusMinus => true,
            Sort::ParenOpen | Sort::BracketOpen => true,
            Sort::Str(_) | Sort::Name(_) | Sort::Int(_) => true,
            _ => false,
        },
        [] => false,
    }
}

/// Whether there is a next token, and it isn't the end of a block.
pub fn block_goes_on(tokens: &[Token]) -> bool
    ensures { result ≡ begins token_code not_end tokens.now }
{
    !matches!(
        tokens,
        [] | [
            Token {
                sort: Sort::BraceClose,
                ..
            },
            ..
        ]
    )
}
