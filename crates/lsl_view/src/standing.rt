//! A whole world as text: all that its objects and scripts hold.

ghost use Rattle.std.specs.Prelude.{◌≡◌, ◌++◌, ◌≤◌, ◌∷◌, [], codes, decimal, get_or, length, IfOk, OnOk};
ghost use Rattle.std.specs.List.{AllByRecursion, flat_map};
ghost use Rattle.lsl_image.specs.Valid.{IsPlaced, IsWorld};
ghost use Rattle.lsl_lines.specs.Journal.{spaced, text_word};
ghost use Rattle.lsl_view.specs.Parts.{scripts_of};
ghost use Rattle.lsl_view.specs.State.{line, objects_behind, pair_line};
ghost use Rattle.lsl_view.specs.StateParts.{most_scripts, objects_shown, state_of_parts};

use crate::holding::Scene;
use crate::known::Names;
use crate::words::{end_line, push_number, push_text};
use lsl_code::Library;
use lsl_image::{Placed, WorldParts};
use lsl_post::Pair;
use lsl_text::NoMemory;
use lsl_value::Text;
use std::alloc::Global;

/// The lines of a world of these parts with all that it holds.
///
/// The clock comes first, and then object by object a line of it, of each pair of its store, and of each of its scripts
/// with what that holds. The scripts and the units' globals have these names; a script without one has an empty name,
/// and a global without one isn't shown.
///
/// It takes memory for the lines, and time in proportion to the parts and to what is written.
pub fn state(
    alloc: Global,
    parts: &WorldParts,
    names: &Names,
    library: &Library,
) -> Result<Vec<u8>, NoMemory>
    requires { IsWorld library.now parts.now }
    ensures { IfOk result (λ lines. lines.items ≡ state_of_parts library.now names.now parts.now) }
{
    let mut out = Vec::new(alloc);
    let scene = Scene {
        clock: parts.clock,
        names,
        library,
    };
    push_clock(&mut out, parts.clock)?;
    push_objects(&mut out, &scene, parts.objects.as_slice())?;
    Ok(out)
}

fn push_clock(out: &mut Vec<u8>, clock: u64) -> Result<(), NoMemory>
    ensures { OnOk result (out.new.items ≡ out.old.items ++ line (codes "clock" ∷ decimal clock ∷ [])) }
{
    out.extend_from_slice(b"clock")?;
    push_number(out, clock)?;
    end_line(out)
}

// The lines of these objects, which are all of the scene.
fn push_objects(out: &mut Vec<u8>, scene: &Scene<'_>, objects: &[Placed]) -> Result<(), NoMemory>
    requires units { AllByRecursion (IsPlaced scene.now.library.now) objects.now }
    requires few { length (flat_map scripts_of objects.now) ≤ most_scripts }
    ensures { OnOk result (out.new.items ≡ out.old.items ++ objects_behind 0 0
        (objects_shown scene.now.library.now scene.now.names.now scene.now.clock 0 objects.now)) }
{
    let mut number = 0;
    let mut before = 0;
    for placed in objects {
        let scripts = placed.object.scripts.as_slice();
        number += 1;
        push_object(out, number, placed)?;
        before = scene.push_scripts(out, before, scripts)?;
    }
    Ok(())
}

// The line of the object of this number, and those of its store.
fn push_object(out: &mut Vec<u8>, number: usize, placed: &Placed) -> Result<(), NoMemory>
    ensures { OnOk result (out.new.items ≡ out.old.items ++ (line (codes "object" ∷ decimal number
        ∷ text_word (get_or placed.now.object.names 0 []) ∷ text_word placed.now.region ∷ [])
        ++ flat_map pair_line placed.now.object.store)) }
{
    out.extend_from_slice(b"object")?;
    push_number(out, number as u64)?;
    push_root(out, placed.object.names.as_slice())?;
    push_text(out, &placed.region)?;
    end_line(out)?;
    push_pairs(out, placed.object.store.as_slice())
}

// The name of an object's root, which is empty where it has no prim.
fn push_root(out: &mut Vec<u8>, names: &[Text]) -> Result<(), NoMemory>
    ensures { OnOk result (out.new.items ≡ out.old.items ++ spaced (text_word (get_or names.now 0 []))) }
{
    match names {
        [root, ..] => push_text(out, root),
        [] => push_text(out, &Text::new()),
    }
}

fn push_pairs(out: &mut Vec<u8>, pairs: &[Pair]) -> Result<(), NoMemory>
    ensures { OnOk result (out.new.items ≡ out.old.items ++ flat_map pair_line pairs.now) }
{
    'pairs: for pair in pairs {
        push_pair(out, pair)?;
    }
    Ok(())
}

fn push_pair(out: &mut Vec<u8>, pair: &Pair) -> Result<(), NoMemory>
    ensures { OnOk result (out.new.items ≡ out.old.items ++ pair_line pair.now) }
{
    out.extend_from_slice(b"pair")?;
    push_text(out, &pair.name)?;
    push_text(out, &pair.value)?;
    end_line(out)
}
