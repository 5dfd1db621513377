//! Parts of the texts that a trace holds.

ghost use Rattle.std.specs.Prelude.{◌≡◌};
ghost use Rattle.std.specs.Str.{bytes_eq};
ghost use Rattle.lsl_seek.specs.Aims.{contains, event_of, last_part, unquoted};

use crate::bytes::cut;

/// The text between its quotes, without what follows the second one.
#[tactic(auto, unfolding(crate::specs::Aims::unquoted))]
pub fn unquoted(text: &[u8]) -> &[u8]
    ensures { result.now ≡ unquoted text.now }
{
    match text {
        [b'"', inner @ .., b'"'] => inner,
        [b'"', inner @ .., b'"', b'.', b'.'] => inner,
        _ => text,
    }
}

/// What follows the first dot, or the whole where nothing follows one.
pub fn last_part(routine: &[u8]) -> &[u8]
    ensures { result.now ≡ last_part routine.now }
{
    let (first, after) = cut(routine, b'.');
    if after.is_empty() { first } else { after }
}

/// Whether a line of the journal is of this event: its third word.
pub fn is_event(said: &[u8], name: &[u8]) -> bool
    ensures { result ≡ bytes_eq (event_of said.now) name.now }
{
    let after = cut(said, b' ').1;
    let after = cut(after, b' ').1;
    cut(after, b' ').0 == name
}

/// Whether a part stands in a text.
pub fn contains(text: &[u8], part: &[u8]) -> bool
    ensures { result ≡ contains text.now part.now }
{
    let mut rest = text;
    'bytes: while let [_, more @ ..] = rest {
        if rest.starts_with(part) {
            return true;
        }
        rest = more;
    }
    part.is_empty()
}
