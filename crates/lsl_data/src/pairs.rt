//! The pairs of a store in a map, which is ordered by the bytes of their names.

ghost use Rattle.std.specs.Prelude.{◌≡◌, ◌≤◌, true, false, OnOk, OnErr, IfNone, MatchOption};
ghost use Rattle.std.specs.BTreeMap.{values};
ghost use Rattle.std.specs.Option.{option_copied, option_map};
ghost use Rattle.lsl_image.specs.Object.{pair_bytes};
ghost use Rattle.lsl_image.specs.Valid.{Ascend};
ghost use Rattle.lsl_data.specs.Answers.{holds};
ghost use Rattle.lsl_data.specs.Kept.{AreNamed, IsKept};
ghost use Rattle.lsl_data.specs.Pairs.{bytes_of, pair_at, value_at, with_pair, without};

use lsl_post::Pair;
use lsl_text::NoMemory;
use lsl_value::Text;
use std::alloc::Global;
use std::collections::BTreeMap;

/// The pairs by their names.
pub(crate) type Named = BTreeMap<String, Pair>;

/// How many bytes the texts of the pair have. Takes no memory.
pub(crate) fn length_of(pair: &Pair) -> u32
    ensures value { result ≡ pair_bytes pair.now }
    ensures within { result ≤ 2097152 }
{
    (pair.name.bytes().len() + pair.value.bytes().len()) as u32
}

/// The pair of a name. Takes no memory.
pub(crate) fn pair_at<'m>(map: &'m Named, name: &Text) -> Option<&'m Pair>
    requires { AreNamed map.now.entries }
    ensures { option_copied result ≡ pair_at (values map.now) name.now }
{
    map.get(name.as_str())
}

/// The bytes with a pair in its place, where `used` are used now; none if its name has that value already. Takes no
/// memory.
pub(crate) fn used_with(map: &Named, used: u32, pair: &Pair) -> Option<u32>
    requires { IsKept map.now.entries used }
    ensures { MatchOption result (holds (value_at (values map.now) pair.now.name) pair.now.value ≡ true)
        (λ n. (holds (value_at (values map.now) pair.now.name) pair.now.value ≡ false)
        × (n ≡ bytes_of (with_pair (values map.now) pair.now))) }
{
    match pair_at(map, &pair.name) {
        Some(old) if old.value == pair.value => None,
        Some(old) => Some(used - length_of(old) + length_of(pair)),
        None => Some(used + length_of(pair)),
    }
}

/// Puts a pair in its place, and replaces any other of its name. When memory runs out the map is unchanged.
pub(crate) fn put(alloc: Global, map: &mut Named, pair: Pair) -> Result<(), NoMemory>
    requires named { AreNamed map.old.entries }
    requires ascend { Ascend (values map.old) }
    ensures ok { OnOk result (values map.new ≡ with_pair (values map.old) pair) }
    ensures named { AreNamed map.new.entries }
    ensures unchanged { OnErr result (values map.new ≡ values map.old) }
{
    let name = String::from_str(alloc, pair.name.as_str())?;
    map.insert(name, pair)?;
    Ok(())
}

/// Takes out the pair of a name, and returns the number of its bytes: none if there is no such name. Takes no memory.
pub(crate) fn take(map: &mut Named, name: &Text) -> Option<u32>
    requires named { AreNamed map.old.entries }
    requires ascend { Ascend (values map.old) }
    ensures gone { result ≡ option_map pair_bytes (pair_at (values map.old) name.now) }
    ensures left { values map.new ≡ without (values map.old) name.now }
    ensures kept { IfNone result (values map.new ≡ values map.old) }
    ensures named { AreNamed map.new.entries }
{
    match map.remove(name.as_str()) {
        Some(pair) => Some(length_of(&pair)),
        None => None,
    }
}
