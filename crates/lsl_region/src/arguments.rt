//! The arguments of a host call, from the first.

ghost use Rattle.std.specs.Prelude.{◌≡◌, [], IfOk};
ghost use Rattle.std.specs.Option.{option_copied, unwrap_or};
ghost use Rattle.lsl_region.specs.Answers.{integer_at, text_at};

use lsl_text::NoMemory;
use lsl_value::{Text, Value};

/// The integer at this place, and 0 where there is none. Takes no memory.
pub(crate) fn integer_at(args: &[Value], place: usize) -> i32
    ensures { result ≡ integer_at place args.now }
{
    match args.get(place) {
        Some(Value::Int(n)) => *n,
        _ => 0,
    }
}

/// The text at this place, a string's or a key's, and the empty one where there is none. It is shared.
pub(crate) fn text_at(args: &[Value], place: usize) -> Result<Text, NoMemory>
    ensures { IfOk result (λ text. text ≡ text_at place args.now) }
{
    match text_in(args, place) {
        Some(text) => text.copy(),
        None => Ok(Text::new()),
    }
}

/// The text at this place, where there is one. Takes no memory.
#[inline(always)]
pub(crate) fn text_in(args: &[Value], place: usize) -> Option<&Text>
    ensures { text_at place args.now ≡ unwrap_or (option_copied result) [] }
{
    match args.get(place) {
        Some(Value::Str(text) | Value::Key(text)) => Some(text),
        _ => None,
    }
}
