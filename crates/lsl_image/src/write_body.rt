//! Objects, appended to an image of version 2.

ghost use Rattle.std.specs.Prelude.{◌≡◌, ◌++◌, ◌≤◌, length, true, OnOk};
ghost use Rattle.std.specs.List.{flat_map, AllByRecursion};
ghost use Rattle.lsl_value.specs.Key.{is_valid_key};
ghost use Rattle.lsl_value.specs.Text.{IsText};
ghost use Rattle.lsl_bytes.specs.Fields.{text_bytes};
ghost use Rattle.lsl_image.specs.Bytes.{body_bytes, both_bytes, library_script_bytes, names_bytes, placed_bytes, scripts_bytes, store_bytes, uuid_bytes};
ghost use Rattle.lsl_image.specs.Fits.{FitsIn, FitsKey, FitsObject, FitsPair, FitsPlaced};
ghost use Rattle.lsl_image.specs.Object.{key_bytes};
ghost use Rattle.lsl_image.specs.Valid.{HasUnit, IsObject, IsPlaced};

use crate::parts::{ObjectParts, Pairs, Placed};
use crate::write_script::write_script;
use lsl_bytes::{push_text, push_u8, push_u16};
use lsl_code::{Library, Sequence};
use lsl_post::{Pair, ScriptParts};
use lsl_text::NoMemory;
use lsl_value::Text;
use uuid::Uuid;

/// Appends an object: its key, the names of its prims, its scripts and its store.
#[tactic(auto, unfolding(crate::specs::Bytes::body_bytes))]
pub fn write_body(out: &mut Vec<u8>, parts: &ObjectParts, library: &Library) -> Result<(), NoMemory>
    requires { IsObject library.now parts.now }
    ensures ok { OnOk result (out.new.items ≡ out.old.items ++ body_bytes 2 library.now parts.now) }
    ensures fits { OnOk result (FitsObject library.now parts.now) }
{
    write_key(out, &parts.key)?;
    write_names(out, &parts.names)?;
    write_scripts(out, &parts.scripts, library)?;
    write_store(out, &parts.store)
}

// Appends the 16 bytes of a key.
fn write_key(out: &mut Vec<u8>, key: &Text) -> Result<(), NoMemory>
    requires { is_valid_key key.now ≡ true }
    ensures ok { OnOk result (out.new.items ≡ out.old.items ++ uuid_bytes (key_bytes key.now)) }
    ensures fits { OnOk result (FitsKey key.now) }
{
    match Uuid::try_parse(key.as_str()) {
        Ok(id) => out.extend_from_slice(id.as_bytes().as_slice()),
        Err(_) => unreachable!(),
    }
}

// Appends the count of names of prims, and the names.
#[tactic(auto, unfolding(crate::specs::Bytes::names_bytes))]
fn write_names(out: &mut Vec<u8>, names: &Sequence<Text>) -> Result<(), NoMemory>
    requires { length names.now ≤ 255 }
    ensures ok { OnOk result (out.new.items ≡ out.old.items ++ names_bytes names.now) }
    ensures fits { OnOk result (AllByRecursion IsText names.now) }
{
    push_u8(out, names.len() as u8)?;
    write_texts(out, names.as_slice())
}

fn write_texts(out: &mut Vec<u8>, names: &[Text]) -> Result<(), NoMemory>
    ensures ok { OnOk result (out.new.items ≡ out.old.items ++ flat_map text_bytes names.now) }
    ensures fits { OnOk result (AllByRecursion IsText names.now) }
{
    for name in names {
        push_text(out, name)?;
    }
    Ok(())
}

// Appends the count of scripts, and the scripts.
#[tactic(auto, unfolding(crate::specs::Bytes::scripts_bytes))]
fn write_scripts(
    out: &mut Vec<u8>,
    scripts: &Sequence<ScriptParts>,
    library: &Library,
) -> Result<(), NoMemory>
    requires few { length scripts.now ≤ 65535 }
    requires each { AllByRecursion (HasUnit library.now) scripts.now }
    ensures ok { OnOk result (out.new.items ≡ out.old.items ++ scripts_bytes 2 library.now scripts.now) }
    ensures fits { OnOk result (AllByRecursion (FitsIn library.now) scripts.now) }
{
    push_u16(out, scripts.len() as u16)?;
    write_each_script(out, scripts.as_slice(), library)
}

fn write_each_script(
    out: &mut Vec<u8>,
    scripts: &[ScriptParts],
    library: &Library,
) -> Result<(), NoMemory>
    requires { AllByRecursion (HasUnit library.now) scripts.now }
    ensures ok { OnOk result (out.new.items
        ≡ out.old.items ++ flat_map (library_script_bytes 2 library.now) scripts.now) }
    ensures fits { OnOk result (AllByRecursion (FitsIn library.now) scripts.now) }
{
    for script in scripts {
        write_script(out, script, library.unit(script.unit))?;
    }
    Ok(())
}

// Appends the count of a store's pairs, and the pairs.
fn write_store(out: &mut Vec<u8>, pairs: &Pairs) -> Result<(), NoMemory>
    requires { length pairs.now ≤ 65535 }
    ensures ok { OnOk result (out.new.items ≡ out.old.items ++ store_bytes 2 pairs.now) }
    ensures fits { OnOk result (AllByRecursion FitsPair pairs.now) }
{
    push_u16(out, pairs.len() as u16)?;
    write_pairs(out, pairs.as_slice())
}

fn write_pairs(out: &mut Vec<u8>, pairs: &[Pair]) -> Result<(), NoMemory>
    ensures ok { OnOk result (out.new.items ≡ out.old.items ++ flat_map both_bytes pairs.now) }
    ensures fits { OnOk result (AllByRecursion FitsPair pairs.now) }
{
    for pair in pairs {
        write_pair(out, pair)?;
    }
    Ok(())
}

#[tactic(auto, unfolding(crate::specs::Bytes::both_bytes))]
fn write_pair(out: &mut Vec<u8>, pair: &Pair) -> Result<(), NoMemory>
    ensures ok { OnOk result (out.new.items ≡ out.old.items ++ both_bytes pair.now) }
    ensures fits { OnOk result (FitsPair pair.now) }
{
    push_text(out, &pair.name)?;
    push_text(out, &pair.value)
}

/// Appends the objects of a world with their regions.
pub fn write_objects(
    out: &mut Vec<u8>,
    objects: &[Placed],
    library: &Library,
) -> Result<(), NoMemory>
    requires { AllByRecursion (IsPlaced library.now) objects.now }
    ensures ok { OnOk result (out.new.items ≡ out.old.items ++ flat_map (placed_bytes 2 library.now) objects.now) }
    ensures fits { OnOk result (AllByRecursion (FitsPlaced library.now) objects.now) }
{
    for object in objects {
        write_placed(out, object, library)?;
    }
    Ok(())
}

#[tactic(auto, unfolding(crate::specs::Bytes::placed_bytes))]
fn write_placed(out: &mut Vec<u8>, placed: &Placed, library: &Library) -> Result<(), NoMemory>
    requires { IsPlaced library.now placed.now }
    ensures ok { OnOk result (out.new.items ≡ out.old.items ++ placed_bytes 2 library.now placed.now) }
    ensures fits { OnOk result (FitsPlaced library.now placed.now) }
{
    push_text(out, &placed.region)?;
    write_body(out, &placed.object, library)
}
