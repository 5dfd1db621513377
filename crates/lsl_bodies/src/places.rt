//! The places of names in a table, each with the number of the latest entry of its name.

ghost use Rattle.std.specs.Prelude.{◌≡◌, ◌<◌, Some, IfOk, OnErr};
ghost use Rattle.std.specs.String.{string_bytes, string_eq};
ghost use Rattle.std.specs.Str.{bytes_eq};
ghost use Rattle.indexmap.specs.IndexMap.{index_map_len, IsUnchanged, UpdatesBy};
ghost use Rattle.lsl_bodies.specs.Places.{texts_of, text_at, IsNoted};

use indexmap::IndexMap;
use lsl_text::NoMemory;
use std::alloc::Global;

/// Makes this the number of the name's latest entry. Returns the name's place, and its old number. A name keeps its
/// place, so it takes memory only if the name is new in the table.
pub(crate) fn note(
    table: &mut IndexMap<String, Option<usize>>,
    alloc: Global,
    name: &str,
    number: usize,
) -> Result<(usize, Option<usize>), NoMemory>
    ensures noted { IfOk result (λ r. IsNoted table.old table.new name.now number r.0 r.1) }
    ensures unchanged { OnErr result (IsUnchanged table.old table.new) }
{
    match table.get_full(name) {
        Some((place, _, latest)) => {
            let hidden = *latest;
            set(table, place, Some(number));
            Ok((place, hidden))
        }
        None => {
            let place = table.len();
            table.insert(String::from_str(alloc, name)?, Some(number))?;
            Ok((place, None))
        }
    }
}

/// Makes this the number of the latest entry of the name at this place. Takes no memory, and looks for no name.
pub(crate) fn set(table: &mut IndexMap<String, Option<usize>>, place: usize, latest: Option<usize>)
    requires { place < index_map_len table.old }
    ensures texts { texts_of table.new ≡ texts_of table.old }
    ensures updates { UpdatesBy string_eq (λ k. bytes_eq (text_at (texts_of table.old) place) (string_bytes k))
        table.old table.new (Some latest) }
{
    *table.pair_mut(place).1 = latest;
}
