//! Lines that are cut to 1,024 bytes, before a character that would be split.

ghost use Rattle.std.specs.Prelude.{◌≡◌, ◌≤◌, ◌<◌, length, IfOk};
ghost use Rattle.std.specs.Str.{chars, encode_utf8_all};
ghost use Rattle.lsl_notes.specs.Cutting.{cut_line, cut_to};

use lsl_text::NoMemory;
use lsl_value::Text;
use std::alloc::Global;

/// A script receives at most this many bytes of a line.
const MOST_LINE_BYTES: usize = 1_024;

/// The line as a script receives it: its first 1,024 bytes, without a character that would be split.
pub(crate) fn cut_line(alloc: Global, line: &str) -> Result<Text, NoMemory>
    ensures { IfOk result (λ cut. cut ≡ cut_line (chars line.now)) }
{
    cut_to(alloc, line, MOST_LINE_BYTES)
}

// The first characters that have no more bytes than these.
fn cut_to(alloc: Global, text: &str, room: usize) -> Result<Text, NoMemory>
    requires { room ≤ 1024 }
    ensures { IfOk result (λ cut. cut ≡ cut_to room (chars text.now)) }
{
    if text.len() <= room {
        return whole(alloc, text, room);
    }
    let length = cut_length(text, room);
    match Text::from_utf8(alloc, &text.as_bytes()[..length])? {
        Some(cut) => Ok(cut),
        None => unreachable!(),
    }
}

// All of a text, which has no more bytes than these.
fn whole(alloc: Global, text: &str, room: usize) -> Result<Text, NoMemory>
    requires short { room ≤ 1024 }
    requires fits { length text.now ≤ room }
    ensures { IfOk result (λ whole. whole ≡ cut_to room (chars text.now)) }
{
    Text::from_string(String::from_str(alloc, text)?)
}

// How many bytes they have. Walks them.
fn cut_length(text: &str, room: usize) -> usize
    requires { room ≤ 1024 }
    ensures cut { result ≡ length (encode_utf8_all (cut_to room (chars text.now))) }
    ensures within { result ≤ length text.now }
{
    let mut length = 0;
    for c in text.chars() {
        let longer = length + c.len_utf8();
        if longer > room {
            return length;
        }
        length = longer;
    }
    length
}
