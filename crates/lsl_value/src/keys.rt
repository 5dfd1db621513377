//! Which texts are keys.

ghost use Rattle.std.specs.Prelude.{◌≡◌};
ghost use Rattle.lsl_value.specs.Key.{is_valid_key, is_null_key as is_null_key_of};

use crate::characters::Text;
use uuid::Uuid;

/// How many characters a key has.
const KEY_LENGTH: usize = 36;

/// The key of zeros.
const NULL_KEY: &str = "00000000-0000-0000-0000-000000000000";

/// Whether the text is a key: 36 characters in the hyphenated form, with digits of either case
/// (<https://wiki.secondlife.com/wiki/Key>). Takes no memory.
pub fn valid_key(text: &Text) -> bool
    ensures { result ≡ is_valid_key text.now }
{
    let text = text.as_str();
    text.len() == KEY_LENGTH && Uuid::try_parse(text).is_ok()
}

/// Whether the text is the key of zeros.
pub(crate) fn is_null_key(text: &Text) -> bool
    ensures { result ≡ is_null_key_of text.now }
{
    text.as_str() == NULL_KEY
}
