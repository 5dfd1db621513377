//! What a store lists: its names from some place on, and all its pairs.

ghost use Rattle.std.specs.Prelude.{◌≡◌, ◌≤◌, length, IfOk};
ghost use Rattle.std.specs.BTreeMap.{values};
ghost use Rattle.lsl_data.specs.Listing.{first_place, most_listed, names_listed};

use crate::pairs::Named;
use lsl_code::Sequence;
use lsl_image::Pairs;
use lsl_post::Pair;
use lsl_text::NoMemory;
use lsl_value::{Atom, Items};
use std::alloc::Global;

/// The names from this place on, as many as are asked for.
pub(crate) fn names(alloc: Global, map: &Named, first: i32, count: i32) -> Result<Items, NoMemory>
    requires { length (values map.now) ≤ 65535 }
    ensures { IfOk result (λ listed. listed ≡ names_listed (values map.now) first count) }
{
    let skipped = first_place(first);
    let most = most_listed(count, map.len());
    let mut names = Vec::new(alloc);
    for pair in map.values().skip(skipped).take(most) {
        names.push(Atom::Str(pair.name.copy()?))?;
    }
    Items::from_vec(names)
}

// The place of the first name that is listed.
fn first_place(first: i32) -> usize
    ensures { result ≡ first_place first }
{
    if first < 0 { 0 } else { first as usize }
}

// The most names that are listed, of `all`.
fn most_listed(count: i32, all: usize) -> usize
    ensures { result ≡ most_listed count all }
{
    if count < 1 { all } else { count as usize }
}

/// All pairs, with shared texts.
pub(crate) fn pairs(alloc: Global, map: &Named) -> Result<Pairs, NoMemory>
    ensures { IfOk result (λ copied. copied ≡ values map.now) }
{
    let mut pairs = Sequence::new(alloc);
    for pair in map.values() {
        pairs.push(copy_of(pair)?)?;
    }
    Ok(pairs)
}

fn copy_of(pair: &Pair) -> Result<Pair, NoMemory>
    ensures { IfOk result (λ copy. copy ≡ pair.now) }
{
    let name = pair.name.copy()?;
    let value = pair.value.copy()?;
    Ok(Pair { name, value })
}
