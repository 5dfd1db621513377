//! What a token holds, as a tree needs it.

ghost use Rattle.std.specs.Prelude.{◌≡◌, IfOk};
ghost use Rattle.lsl_signs.specs.Kinds.{text_of, integer_of, name_of};

use lsl_lex::{Sort, Token};
use lsl_text::NoMemory;
use lsl_tree::Name;
use lsl_value::Text;

/// The characters of a name or a string.
pub fn text(sort: &Sort) -> Result<Text, NoMemory>
    ensures { IfOk result (λ text. text ≡ text_of sort.now) }
{
    match sort {
        Sort::Name(text) | Sort::Str(text) => text.copy(),
        _ => Ok(Text::new()),
    }
}

/// The value of an INT.
pub fn integer(sort: &Sort) -> i32
    ensures { result ≡ integer_of sort.now }
{
    match sort {
        Sort::Int(value) => *value,
        _ => 0,
    }
}

/// A NAME and its place.
pub fn name(token: &Token) -> Result<Name, NoMemory>
    ensures { IfOk result (λ name. name ≡ name_of token.now) }
{
    Ok(Name {
        text: text(&token.sort)?,
        span: token.span,
    })
}
