//! Texts that are cut to a number of bytes, before a character that would be split.

ghost use Rattle.std.specs.Prelude.{◌≡◌, ◌≤◌, ◌<◌, length, IfOk};
ghost use Rattle.std.specs.Str.{chars, encode_utf8_all};
ghost use Rattle.lsl_region.specs.Texts.{cut_name, cut_speech, cut_to};

use lsl_text::NoMemory;
use lsl_value::Text;
use std::alloc::Global;

/// Spoken text has at most this many bytes.
const MOST_SPEECH_BYTES: usize = 1_024;

/// How many bytes a prim's name has at most.
const MOST_NAME_BYTES: usize = 63;

/// The text as it is said: its first 1,024 bytes, without a character that would be split. A short one is shared.
#[inline(always)]
pub(crate) fn cut_speech(alloc: Global, text: &Text) -> Result<Text, NoMemory>
    ensures { IfOk result (λ cut. cut ≡ cut_speech text.now) }
{
    cut_to(alloc, text, MOST_SPEECH_BYTES)
}

/// The text as a prim's name: its first 63 bytes, without a character that would be split. A short one is shared.
pub(crate) fn cut_name(alloc: Global, text: &Text) -> Result<Text, NoMemory>
    ensures { IfOk result (λ cut. cut ≡ cut_name text.now) }
{
    cut_to(alloc, text, MOST_NAME_BYTES)
}

// The first characters that have no more bytes than these.
#[inline(always)]
fn cut_to(alloc: Global, text: &Text, room: usize) -> Result<Text, NoMemory>
    requires { room ≤ 1024 }
    ensures { IfOk result (λ cut. cut ≡ cut_to room text.now) }
{
    if text.bytes().len() <= room {
        return text.copy();
    }
    cut_anew(alloc, text, room)
}

// The same, as an owned text. Walks the characters.
#[inline(never)]
fn cut_anew(alloc: Global, text: &Text, room: usize) -> Result<Text, NoMemory>
    requires { room ≤ 1024 }
    ensures { IfOk result (λ cut. cut ≡ cut_to room text.now) }
{
    let length = cut_length(text.as_str(), room);
    match Text::from_utf8(alloc, &text.bytes()[..length])? {
        Some(cut) => Ok(cut),
        None => unreachable!(),
    }
}

// How many bytes they have. Walks them.
fn cut_length(text: &str, room: usize) -> usize
    requires { room ≤ 1024 }
    ensures cut { result ≡ length (encode_utf8_all (cut_to room (chars text.now))) }
    ensures within { result ≤ length text.now }
{
    let mut length = 0;
    for c in text.chars() {
        let longer = length + c.len_utf8();
        if longer > room {
            return length;
        }
        length = longer;
    }
    length
}
