//! Elements after the tags of their kinds, and lists of them after their count.
//!
//! After an `Err` of a call that appends, a prefix of its bytes may follow the old ones.

ghost use Rattle.std.specs.Prelude.{◌≡◌, ◌≤◌, ◌++◌, ◌∷◌, take, vec_len, length, IfOk, OnOk, OnErr};
ghost use Rattle.std.specs.List.{flat_map, AllByRecursion};
ghost use Rattle.std.specs.Option.{option_map};
ghost use Rattle.lsl_value.specs.Text.{IsText};
ghost use Rattle.lsl_bytes.specs.Fields.{AreAtoms, AreItems, FitsI32, IsAtom, atom_bytes, i32_bytes, list_bytes, text_bytes};
ghost use Rattle.lsl_bytes.specs.Places.{Takes};

use crate::Taken;
use crate::numbers::{push_i32, push_u32, take_i32, take_u8, take_u32};
use crate::texts::{append_text, take_text};
use lsl_text::NoMemory;
use lsl_value::{Atom, Items, MAX_ITEMS, Text};
use std::alloc::Global;

/// The tag of an integer.
pub const INT_TAG: u8 = 1;

/// The tag of a string.
pub const STR_TAG: u8 = 3;

/// The tag of a key.
pub const KEY_TAG: u8 = 4;

/// The tag of a list.
pub const LIST_TAG: u8 = 7;

// How many bytes an element has at least.
const LEAST_ATOM_BYTES: usize = 5;

/// Appends a tag and an integer.
pub fn append_int(out: &mut Vec<u8>, n: i32) -> Result<(), NoMemory>
    ensures ok { OnOk result (out.new.items ≡ out.old.items ++ 1 ∷ i32_bytes n) }
    ensures front { OnErr result (take (vec_len out.old) out.new.items ≡ out.old.items) }
    ensures valid { OnOk result (FitsI32 n) }
{
    out.push(INT_TAG)?;
    push_i32(out, n)
}

/// Appends this tag and a text.
pub fn append_tagged(out: &mut Vec<u8>, tag: u8, text: &Text) -> Result<(), NoMemory>
    ensures ok { OnOk result (out.new.items ≡ out.old.items ++ tag ∷ text_bytes text.now) }
    ensures front { OnErr result (take (vec_len out.old) out.new.items ≡ out.old.items) }
    ensures valid { OnOk result (IsText text.now) }
{
    out.push(tag)?;
    append_text(out, text)
}

/// Appends a tag and a list.
#[tactic(auto, unfolding(crate::specs::Fields::list_bytes))]
pub fn append_items(out: &mut Vec<u8>, items: &Items) -> Result<(), NoMemory>
    ensures ok { OnOk result (out.new.items ≡ out.old.items ++ 7 ∷ list_bytes items.now) }
    ensures front { OnErr result (take (vec_len out.old) out.new.items ≡ out.old.items) }
    ensures valid { OnOk result (AreItems items.now) }
{
    out.push(LIST_TAG)?;
    push_u32(out, items.len() as u32)?;
    append_atoms(out, items.as_slice())
}

#[tactic(auto, unfolding(crate::specs::Fields::atom_bytes))]
fn append_atom(out: &mut Vec<u8>, atom: &Atom) -> Result<(), NoMemory>
    ensures ok { OnOk result (out.new.items ≡ out.old.items ++ atom_bytes atom.now) }
    ensures front { OnErr result (take (vec_len out.old) out.new.items ≡ out.old.items) }
    ensures valid { OnOk result (IsAtom atom.now) }
{
    match atom {
        Atom::Int(n) => append_int(out, *n),
        Atom::Str(text) => append_tagged(out, STR_TAG, text),
        Atom::Key(text) => append_tagged(out, KEY_TAG, text),
    }
}

fn append_atoms(out: &mut Vec<u8>, atoms: &[Atom]) -> Result<(), NoMemory>
    ensures ok { OnOk result (out.new.items ≡ out.old.items ++ flat_map atom_bytes atoms.now) }
    ensures front { OnErr result (take (vec_len out.old) out.new.items ≡ out.old.items) }
    ensures valid { OnOk result (AllByRecursion IsAtom atoms.now) }
{
    'atoms: for atom in atoms {
        append_atom(out, atom)?;
    }
    Ok(())
}

/// Takes an element.
pub fn take_atom(alloc: Global, bytes: &[u8], place: usize) -> Taken<Atom>
    ensures { IfOk result (λ answer. Takes atom_bytes IsAtom bytes.now place answer) }
{
    let Some((tag, next)) = take_u8(bytes, place) else {
        return Ok(None);
    };
    match tag {
        INT_TAG => match take_i32(bytes, next) {
            Some((n, next)) => Ok(Some((Atom::Int(n), next))),
            None => Ok(None),
        },
        STR_TAG => match take_text(alloc, bytes, next)? {
            Some((text, next)) => Ok(Some((Atom::Str(text), next))),
            None => Ok(None),
        },
        KEY_TAG => match take_text(alloc, bytes, next)? {
            Some((text, next)) => Ok(Some((Atom::Key(text), next))),
            None => Ok(None),
        },
        _ => Ok(None),
    }
}

/// Takes a count, and then that number of elements.
pub fn take_items(alloc: Global, bytes: &[u8], place: usize) -> Taken<Items>
    ensures { IfOk result (λ answer. Takes list_bytes AreItems bytes.now place answer) }
{
    let Some((count, start)) = take_u32(bytes, place) else {
        return Ok(None);
    };
    if count as usize > MAX_ITEMS {
        return Ok(None);
    }
    let Some((atoms, next)) = take_atoms(alloc, bytes, start, count as usize)? else {
        return Ok(None);
    };
    Ok(Some((Items::from_vec(atoms)?, next)))
}

// Takes `count` elements. It reserves at first no more than can be in the bytes that are left.
fn take_atoms(alloc: Global, bytes: &[u8], place: usize, count: usize) -> Taken<Vec<Atom>>
    requires { place ≤ length bytes.now }
    ensures { IfOk result (λ answer. Takes (flat_map atom_bytes) (AreAtoms count) bytes.now place
        (option_map (λ taken. (taken.0.items, taken.1)) answer)) }
{
    let mut atoms = Vec::with_capacity(alloc, count.min((bytes.len() - place) / LEAST_ATOM_BYTES))?;
    let mut next = place;
    'atoms: for i in 0..count {
        match take_atom(alloc, bytes, next)? {
            Some((atom, behind)) => {
                atoms.push(atom)?;
                next = behind;
            }
            None => return Ok(None),
        }
    }
    Ok(Some((atoms, next)))
}
