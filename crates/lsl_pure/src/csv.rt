//! `llCSV2List`.

ghost use Rattle.std.specs.Prelude.{◌≡◌, ◌≤◌, ◌<◌, ◌+◌, ◌^◌, ◌∷◌, [], ◌++◌, length, map, IfOk, OnOk};
ghost use Rattle.std.specs.Str.{IsUtf8};
ghost use Rattle.lsl_value.specs.Atoms.{list_charge_of};
ghost use Rattle.lsl_value.specs.Limits.{most_charge, most_text_bytes};
ghost use Rattle.lsl_value.specs.declared.list.Atom.TheVariants.{Str};
ghost use Rattle.lsl_pure.specs.Bounds.{TooBigOnlyWhere};
ghost use Rattle.lsl_pure.specs.Csv.{csv_elements, without_leading_spaces};
ghost use Rattle.lsl_pure.specs.CsvSteps.{depth_behind as depth_behind_of, is_outer_comma, pieces_from};
ghost use Rattle.lsl_pure.specs.Spelling.{spelled_string, IsOverfull};

use crate::PureFault;
use crate::bounds::push_bounded;
use crate::spelling::copy_of;
use lsl_value::{Atom, Items, Text};
use std::alloc::Global;

/// The pieces between commas that don't stand inside angle brackets, without leading spaces, as strings; none for
/// the empty text. One pass, and too big as soon as the elements so far are. See
/// <https://wiki.secondlife.com/wiki/LlCSV2List>.
pub fn csv_to_list(alloc: Global, text: &Text) -> Result<Items, PureFault>
    ensures ok { IfOk result (λ items. items ≡ csv_elements text.now) }
    ensures too_big { TooBigOnlyWhere result (most_charge < list_charge_of (csv_elements text.now)) }
{
    let bytes = text.bytes();
    if bytes.is_empty() {
        return Ok(Items::new(alloc));
    }
    csv_pieces(alloc, bytes)
}

fn csv_pieces(alloc: Global, text: &[u8]) -> Result<Items, PureFault>
    requires valid { IsUtf8 text.now }
    requires short { length text.now ≤ most_text_bytes }
    ensures ok { IfOk result (λ items. map spelled_string items
        ≡ map (λ piece. Str (without_leading_spaces piece)) (pieces_from 0 text.now)) }
    ensures too_big { TooBigOnlyWhere result
        (IsOverfull (map (λ piece. Str (without_leading_spaces piece)) (pieces_from 0 text.now))) }
{
    let mut items = Items::new(alloc);
    let mut start = 0;
    let mut depth = 0;
    'bytes: for (at, b) in text.iter().enumerate() {
        if is_outer_comma(depth, *b) {
            push_csv_piece(alloc, &mut items, &text[start..at])?;
            start = at + 1;
        } else {
            depth = depth_behind(depth, *b);
        }
    }
    push_csv_piece(alloc, &mut items, &text[start..])?;
    Ok(items)
}

// Whether the byte is a comma with no angle bracket open.
fn is_outer_comma(depth: usize, b: u8) -> bool
    ensures { result ≡ is_outer_comma depth b }
{
    b == b',' && depth == 0
}

// How many angle brackets are open behind the byte.
fn depth_behind(depth: usize, b: u8) -> usize
    requires { depth + 1 < 2 ^ 64 }
    ensures { result ≡ depth_behind_of depth b }
{
    match b {
        b'<' => depth + 1,
        b'>' => depth.saturating_sub(1),
        _ => depth,
    }
}

fn push_csv_piece(alloc: Global, items: &mut Items, piece: &[u8]) -> Result<(), PureFault>
    requires valid { IsUtf8 piece.now }
    requires short { length piece.now ≤ most_text_bytes }
    requires room { list_charge_of items.old ≤ most_charge }
    ensures ok { OnOk result (map spelled_string items.new
        ≡ map spelled_string items.old ++ Str (without_leading_spaces piece.now) ∷ []) }
    ensures fits { OnOk result (list_charge_of items.new ≤ most_charge) }
    ensures too_big { TooBigOnlyWhere result
        (IsOverfull (map spelled_string items.old ++ Str (without_leading_spaces piece.now) ∷ [])) }
{
    let text = copy_of(alloc, behind_spaces(piece))?;
    push_bounded(items, Atom::Str(text))
}

fn behind_spaces(text: &[u8]) -> &[u8]
    ensures { result.now ≡ without_leading_spaces text.now }
{
    let mut rest = text;
    'spaces: while let [b' ', more @ ..] = rest {
        rest = more;
    }
    rest
}
