//! Parts of a text: `llGetSubString`, `llDeleteSubString`, `llInsertString` and `llStringTrim`.

ghost use Rattle.std.specs.Prelude.{◌≡◌, ◌≤◌, ◌<◌, ◌++◌, if◌then◌else◌, length, take, drop, slice_range, IfOk};
ghost use Rattle.std.specs.Str.{encode_utf8_all};
ghost use Rattle.lsl_value.specs.Limits.{most_charge};
ghost use Rattle.lsl_value.specs.Text.{text_charge_of};
ghost use Rattle.lsl_pure.specs.Bounds.{TooBigOnlyWhere};
ghost use Rattle.lsl_pure.specs.Cuts.{taken, left, inserted_at, trimmed, trims_head, trims_tail, without_head, without_tail};

use crate::PureFault;
use crate::ranges::{Range, clamp};
use crate::spelling::{copy_of, offset, offsets, text_of};
use lsl_text::{NoMemory, behind_blanks, is_blank};
use lsl_value::{MOST_CHARGE, Text};
use std::alloc::Global;

/// What stands in the range. See <https://wiki.secondlife.com/wiki/LlGetSubString>.
pub fn sub_string(alloc: Global, text: &Text, first: i32, last: i32) -> Result<Text, NoMemory>
    ensures { IfOk result (λ part. part ≡ taken text.now first last) }
{
    let range = Range::new(text.character_count(), first, last);
    if range.turned {
        outside(alloc, text, range.start, range.end)
    } else {
        inside(alloc, text, range.start, range.end)
    }
}

/// What doesn't stand in the range. See <https://wiki.secondlife.com/wiki/LlDeleteSubString>.
pub fn delete_sub_string(
    alloc: Global,
    text: &Text,
    first: i32,
    last: i32,
) -> Result<Text, NoMemory>
    ensures { IfOk result (λ rest. rest ≡ left text.now first last) }
{
    let range = Range::new(text.character_count(), first, last);
    if range.turned {
        inside(alloc, text, range.start, range.end)
    } else {
        outside(alloc, text, range.start, range.end)
    }
}

fn inside(alloc: Global, text: &Text, start: usize, end: usize) -> Result<Text, NoMemory>
    requires { start ≤ end }
    ensures { IfOk result (λ part. part ≡ slice_range text.now start end) }
{
    let (from, to) = offsets(text, start, end);
    copy_of(alloc, &text.bytes()[from..to])
}

fn outside(alloc: Global, text: &Text, start: usize, end: usize) -> Result<Text, NoMemory>
    requires { start ≤ end }
    ensures { IfOk result (λ rest. rest ≡ take start text.now ++ drop end text.now) }
{
    let (from, to) = offsets(text, start, end);
    let bytes = text.bytes();
    let mut out = Vec::with_capacity(alloc, bytes.len() - (to - from))?;
    out.extend_from_slice(&bytes[..from])?;
    out.extend_from_slice(&bytes[to..])?;
    text_of(out)
}

/// The other text inserted before a place: below 0 is taken as 0, above the end as the end. Too big before
/// anything is built. See <https://wiki.secondlife.com/wiki/LlInsertString>.
pub fn insert_string(
    alloc: Global,
    text: &Text,
    place: i32,
    other: &Text,
) -> Result<Text, PureFault>
    ensures ok { IfOk result (λ whole. whole ≡ inserted_at text.now place other.now) }
    ensures too_big { TooBigOnlyWhere result (most_charge < text_charge_of (inserted_at text.now place other.now)) }
{
    let bytes = text.bytes();
    let more = other.bytes();
    if text.charge() + more.len() as u64 > MOST_CHARGE {
        return Err(PureFault::TooBig);
    }
    let at = offset(text, clamp(text.character_count(), i64::from(place)));
    let mut out = Vec::with_capacity(alloc, bytes.len() + more.len())?;
    out.extend_from_slice(&bytes[..at])?;
    out.extend_from_slice(more)?;
    out.extend_from_slice(&bytes[at..])?;
    Ok(text_of(out)?)
}

/// The text without the blanks at its head for bit 1, at its tail for bit 2. See
/// <https://wiki.secondlife.com/wiki/LlStringTrim>.
pub fn string_trim(alloc: Global, text: &Text, kind: i32) -> Result<Text, NoMemory>
    ensures { IfOk result (λ rest. rest ≡ trimmed text.now kind) }
{
    copy_of(alloc, trim_tail(trim_head(text.bytes(), kind), kind))
}

fn trim_head(text: &[u8], kind: i32) -> &[u8]
    ensures { result.now ≡ (if trims_head kind then without_head text.now else text.now) }
{
    if trims_head(kind) {
        behind_blanks(text)
    } else {
        text
    }
}

fn trim_tail(text: &[u8], kind: i32) -> &[u8]
    ensures { result.now ≡ (if trims_tail kind then without_tail text.now else text.now) }
{
    if trims_tail(kind) {
        before_blanks(text)
    } else {
        text
    }
}

fn trims_head(kind: i32) -> bool
    ensures { result ≡ trims_head kind }
{
    kind.cast_unsigned() % 2 == 1
}

fn trims_tail(kind: i32) -> bool
    ensures { result ≡ trims_tail kind }
{
    kind.cast_unsigned() / 2 % 2 == 1
}

fn before_blanks(text: &[u8]) -> &[u8]
    ensures { result.now ≡ without_tail text.now }
{
    let mut rest = text;
    'blanks: while let [more @ .., b] = rest {
        if !is_blank(*b) {
            break;
        }
        rest = more;
    }
    rest
}
