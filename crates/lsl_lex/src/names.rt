//! Names that were read before: a repeated name is shared.

ghost use Rattle.std.specs.Prelude.{◌≡◌, ◌≤◌, length, IfOk};
ghost use Rattle.std.specs.List.{AllPass};
ghost use Rattle.lsl_lex.specs.Bytes.{is_name_byte};
ghost use Rattle.lsl_lex.specs.Limits.{source_bytes};

use lsl_text::NoMemory;
use lsl_value::Text;
use std::alloc::Global;

/// How many names are kept.
const PLACES: usize = 256;

/// The names that were read last, each at the place that its bytes give.
#[derive(Drop)]
pub struct Names {
    held: Vec<Text>,
}

impl Names {
    /// No name yet. Takes memory for the places.
    pub fn new(alloc: Global) -> Result<Names, NoMemory> {
        let mut held = Vec::new(alloc);
        for _place in 0..PLACES {
            held.push(Text::new())?;
        }
        Ok(Names { held })
    }

    /// The text of this name: shared where its place holds it. Takes memory where it doesn't.
    pub fn text(&mut self, alloc: Global, name: &[u8]) -> Result<Text, NoMemory>
        requires short { length name.now ≤ source_bytes }
        requires name { AllPass is_name_byte name.now }
        ensures { IfOk result (λ text. text ≡ name.now) }
    {
        let Some(held) = self.held.get_mut(place_of(name)) else {
            return text_of_name(alloc, name);
        };
        if held.bytes() == name {
            return held.copy();
        }
        let text = text_of_name(alloc, name)?;
        *held = text.copy()?;
        Ok(text)
    }
}

// The text of a name that isn't held.
fn text_of_name(alloc: Global, name: &[u8]) -> Result<Text, NoMemory>
    requires short { length name.now ≤ source_bytes }
    requires name { AllPass is_name_byte name.now }
    ensures { IfOk result (λ text. text ≡ name.now) }
{
    let mut bytes = Vec::new(alloc);
    bytes.extend_from_slice(name)?;
    Text::from_ascii(bytes)
}

// The place of a name, by its bytes.
fn place_of(name: &[u8]) -> usize {
    let mut place: usize = 0;
    for b in name {
        place = place.wrapping_mul(31).wrapping_add(usize::from(*b));
    }
    place % PLACES
}
