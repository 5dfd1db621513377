//! Calls of `lsl_text`.

ghost use Rattle.std.specs.Prelude.{◌≡◌, ◌++◌, ◌<◌, length, OnOk};
ghost use Rattle.lsl_text.specs.Number.{leading_integer_of};
ghost use Rattle.lsl_text.specs.Place.{IsAt};
ghost use Rattle.lsl_text.specs.Quoted.{quoted};

use lsl_text::{Cursor, NoMemory, leading_integer, push_quoted};

/// `leading_integer`.
pub fn number(text: &[u8]) -> i32
    ensures { result ≡ leading_integer_of text.now }
{
    leading_integer(text)
}

/// `push_quoted`, `ok`.
pub fn in_quotes(out: &mut Vec<u8>, text: &[u8]) -> Result<(), NoMemory>
    ensures { OnOk result (out.new.items ≡ out.old.items ++ quoted text.now) }
{
    push_quoted(out, text)
}

/// `Cursor::step`, `place`.
pub fn next_place(cursor: &mut Cursor, text: &[u8])
    requires byte { cursor.old.offset < length text.now }
    requires room { cursor.old.offset < 4294967294 }
    ensures { IsAt text.now cursor.old → IsAt text.now cursor.new }
{
    cursor.step(text);
}
