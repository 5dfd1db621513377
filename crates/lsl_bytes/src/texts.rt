//! Texts after the count of their bytes.

ghost use Rattle.std.specs.Prelude.{◌≡◌, ◌++◌, take, vec_len, IfOk, OnOk, OnErr};
ghost use Rattle.std.specs.Option.{option_map};
ghost use Rattle.lsl_value.specs.Text.{IsText};
ghost use Rattle.lsl_bytes.specs.Fields.{IsCountable, counted_bytes, text_bytes};
ghost use Rattle.lsl_bytes.specs.Places.{Takes};

use crate::Taken;
use crate::numbers::{push_u32, take_u32};
use lsl_text::NoMemory;
use lsl_value::Text;
use std::alloc::Global;

/// Appends a text: the count of its bytes, and its UTF-8. Any text fits its field.
pub fn push_text(out: &mut Vec<u8>, text: &Text) -> Result<(), NoMemory>
    ensures ok { OnOk result (out.new.items ≡ out.old.items ++ text_bytes text.now) }
    ensures unchanged { OnErr result (out.new.items ≡ out.old.items) }
    ensures valid { IsText text.now }
{
    let start = out.len();
    let pushed = append_text(out, text);
    if pushed.is_err() {
        out.truncate(start);
    }
    pushed
}

/// Appends a text; after an `Err` a prefix of it may follow the old bytes.
#[tactic(auto, unfolding(crate::specs::Fields::text_bytes, crate::specs::Fields::counted_bytes))]
pub fn append_text(out: &mut Vec<u8>, text: &Text) -> Result<(), NoMemory>
    ensures ok { OnOk result (out.new.items ≡ out.old.items ++ text_bytes text.now) }
    ensures front { OnErr result (take (vec_len out.old) out.new.items ≡ out.old.items) }
    ensures valid { IsText text.now }
{
    push_u32(out, text.bytes().len() as u32)?;
    out.extend_from_slice(text.bytes())
}

/// Takes a text. Takes memory for its bytes, which are copied once.
pub fn take_text(alloc: Global, bytes: &[u8], place: usize) -> Taken<Text>
    ensures { IfOk result (λ answer. Takes text_bytes IsText bytes.now place answer) }
{
    let Some((part, next)) = take_counted(bytes, place) else {
        return Ok(None);
    };
    let Some(text) = Text::from_utf8(alloc, part)? else {
        return Ok(None);
    };
    Ok(Some((text, next)))
}

// Takes a count, and then that number of bytes.
fn take_counted(bytes: &[u8], place: usize) -> Option<(&[u8], usize)>
    ensures { Takes counted_bytes IsCountable bytes.now place
        (option_map (λ taken. (taken.0.now, taken.1)) result) }
{
    let (count, start) = take_u32(bytes, place)?;
    let part = bytes[start..].get(..count as usize)?;
    Some((part, start + part.len()))
}
