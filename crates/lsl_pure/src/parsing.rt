//! `llParseString2List` and `llParseStringKeepNulls`.

ghost use Rattle.std.specs.Prelude.{◌≡◌, ◌≤◌, ◌<◌, ◌++◌, ◌||◌, nat_lt, length, map, IfOk, OnOk};
ghost use Rattle.std.specs.List.{All};
ghost use Rattle.std.specs.Str.{IsUtf8, encode_utf8_all};
ghost use Rattle.lsl_value.specs.Atoms.{list_charge_of};
ghost use Rattle.lsl_value.specs.Limits.{most_charge, most_text_bytes};
ghost use Rattle.lsl_pure.specs.Bounds.{TooBigOnlyWhere};
ghost use Rattle.lsl_pure.specs.Parsing.{parsed, cut_of, cut_elements, piece_elements, mark_elements};
ghost use Rattle.lsl_pure.specs.Spelling.{spelled_mark, spelled_string, IsOverfull};

use crate::PureFault;
use crate::bounds::push_bounded;
use crate::firsts::{first_marks, mark_at};
use crate::marks::{Mark, marks};
use crate::spelling::copy_of;
use lsl_value::{Atom, Items, Text};
use std::alloc::Global;

/// The pieces of the text between the separators and spacers, and the spacers themselves, all as strings: from left
/// to right, the first listed one that stands at a place. Empty pieces are kept or left out. Takes time in
/// proportion to the text and to the separators and spacers that are used, of which there are at most 16. Is too big
/// as soon as the elements so far are.
///
/// See <https://wiki.secondlife.com/wiki/LlParseString2List>.
pub fn parse_string(
    alloc: Global,
    text: &Text,
    separators: &Items,
    spacers: &Items,
    keep_nulls: bool,
) -> Result<Items, PureFault>
    ensures ok { IfOk result (λ items. items ≡ parsed keep_nulls text.now separators.now spacers.now) }
    ensures too_big { TooBigOnlyWhere result
        (most_charge < list_charge_of (parsed keep_nulls text.now separators.now spacers.now)) }
{
    let marks = marks(alloc, separators, spacers)?;
    cut(alloc, text.bytes(), marks.as_slice(), keep_nulls)
}

fn cut(alloc: Global, text: &[u8], marks: &[Mark], keep_nulls: bool) -> Result<Items, PureFault>
    requires valid { IsUtf8 text.now }
    requires short { length text.now ≤ most_text_bytes }
    requires few { length marks.now ≤ 16 }
    requires nonempty { All (λ m. 0 < length m.text) marks.now }
    ensures ok { IfOk result (λ items. map spelled_string items
        ≡ cut_elements keep_nulls (cut_of (map spelled_mark marks.now) text.now)) }
    ensures too_big { TooBigOnlyWhere result
        (IsOverfull (cut_elements keep_nulls (cut_of (map spelled_mark marks.now) text.now))) }
{
    let firsts = first_marks(alloc, marks, text)?;
    let mut items = Items::new(alloc);
    let mut start = 0;
    let mut at = 0;
    'places: while at < text.len() {
        match mark_at(marks, &firsts, at) {
            None => at += 1,
            Some(mark) => {
                push_piece(alloc, &mut items, &text[start..at], keep_nulls)?;
                push_mark(&mut items, mark)?;
                at += mark.text.bytes().len();
                start = at;
            }
        }
    }
    push_piece(alloc, &mut items, &text[start..], keep_nulls)?;
    Ok(items)
}

fn push_piece(
    alloc: Global,
    items: &mut Items,
    piece: &[u8],
    keep_nulls: bool,
) -> Result<(), PureFault>
    requires valid { IsUtf8 piece.now }
    requires short { length piece.now ≤ most_text_bytes }
    requires room { list_charge_of items.old ≤ most_charge }
    ensures ok { OnOk result (map spelled_string items.new
        ≡ map spelled_string items.old ++ piece_elements keep_nulls piece.now) }
    ensures fits { OnOk result (list_charge_of items.new ≤ most_charge) }
    ensures too_big { TooBigOnlyWhere result
        (IsOverfull (map spelled_string items.old ++ piece_elements keep_nulls piece.now)) }
{
    if !is_kept(piece, keep_nulls) {
        return Ok(());
    }
    let text = copy_of(alloc, piece)?;
    push_bounded(items, Atom::Str(text))
}

// Whether the piece is an element.
fn is_kept(piece: &[u8], keep_nulls: bool) -> bool
    ensures { result ≡ (keep_nulls || nat_lt 0 (length piece.now)) }
{
    keep_nulls || !piece.is_empty()
}

fn push_mark(items: &mut Items, mark: &Mark) -> Result<(), PureFault>
    requires room { list_charge_of items.old ≤ most_charge }
    ensures ok { OnOk result (map spelled_string items.new
        ≡ map spelled_string items.old ++ mark_elements (spelled_mark mark.now)) }
    ensures fits { OnOk result (list_charge_of items.new ≤ most_charge) }
    ensures too_big { TooBigOnlyWhere result
        (IsOverfull (map spelled_string items.old ++ mark_elements (spelled_mark mark.now))) }
{
    if !mark.spacer {
        return Ok(());
    }
    let text = mark.text.copy()?;
    push_bounded(items, Atom::Str(text))
}
