//! Texts that code holds.

ghost use Rattle.std.specs.Prelude.{◌≡◌, ◌<◌, IfOk, length};
ghost use Rattle.std.specs.Str.{IsAscii};

use lsl_text::NoMemory;
use lsl_value::Text;
use std::alloc::Global;

/// The text of this string, which is ASCII and short.
pub fn ascii_text(alloc: Global, text: &str) -> Result<Text, NoMemory>
    requires ascii { IsAscii text.now }
    requires small { length text.now < 64 }
    ensures { IfOk result (λ t. t ≡ text.now) }
{
    let bytes = Vec::from_slice(alloc, text.as_bytes())?;
    Ok(Text::from_ascii(bytes)?)
}

/// An equal text.
pub fn copy_text(text: &Text) -> Result<Text, NoMemory>
    ensures { IfOk result (λ t. t ≡ text.now) }
{
    text.copy()
}
