//! The objects and scripts of a file at its start.

ghost use Rattle.std.specs.Prelude.{◌≡◌, ◌<◌, ◌≤◌, [], ◌∷◌, ◌++◌, length, map, All, IfOk, OnOk};
ghost use Rattle.lsl_region.specs.Grids.{AreSeated, IsSeated};
ghost use Rattle.lsl_world.specs.Ranges.{HasFile, IsObjectOf};
ghost use Rattle.lsl_world.specs.Seats.{HasPrim, seat_of_line, seats_of_objects, seats_of_prim, seats_of_prims};
ghost use Rattle.lsl_world.specs.Sizes.{scripts_of};
ghost use Rattle.lsl_world.specs.Starts.{object_of_line, prim_of_line};

use lsl_code::Library;
use lsl_data::Store;
use lsl_lines::{ObjectLine, PrimLine, ScriptLine};
use lsl_region::{Grid, Linkset, Prims, Seat};
use lsl_script::Script;
use lsl_text::NoMemory;
use std::alloc::Global;

/// Adds these objects to a grid in which there is nothing, each script at its start.
pub(crate) fn add_objects(
    alloc: Global,
    grid: &mut Grid,
    lines: &[ObjectLine],
    units: &Library,
) -> Result<(), NoMemory>
    requires few_objects { length lines.now ≤ 64 }
    requires few_scripts { scripts_of lines.now ≤ 256 }
    requires fit { All (IsObjectOf (length units.now)) lines.now }
    requires no_object { grid.old.objects ≡ [] }
    requires no_script { grid.old.seats ≡ [] }
    ensures objects { OnOk result (grid.new.objects ≡ map object_of_line lines.now) }
    ensures seats { OnOk result (grid.new.seats ≡ seats_of_objects units.now 0 lines.now) }
    ensures seated { OnOk result (AreSeated units.now grid.new.seats) }
{
    for line in lines {
        add_object(alloc, grid, line, units)?;
    }
    Ok(())
}

// Adds an object with its scripts.
fn add_object(
    alloc: Global,
    grid: &mut Grid,
    line: &ObjectLine,
    units: &Library,
) -> Result<(), NoMemory>
    requires few { length grid.old.objects < 64 }
    requires fits { IsObjectOf (length units.now) line.now }
    requires room { length
        (grid.old.seats ++ seats_of_prims units.now (length grid.old.objects) 0 line.now.prims) ≤ 256 }
    requires seated { AreSeated units.now grid.old.seats }
    ensures objects { OnOk result (grid.new.objects ≡ grid.old.objects ++ object_of_line line.now ∷ []) }
    ensures seats { OnOk result (grid.new.seats
        ≡ grid.old.seats ++ seats_of_prims units.now (length grid.old.objects) 0 line.now.prims) }
    ensures seated { OnOk result (AreSeated units.now grid.new.seats) }
{
    let object = grid.objects();
    grid.add(linkset(alloc, line)?)?;
    add_prims(alloc, grid, object, line.prims.as_slice(), units)
}

// Adds the scripts of the prims of the object at this place.
fn add_prims(
    alloc: Global,
    grid: &mut Grid,
    object: usize,
    lines: &[PrimLine],
    units: &Library,
) -> Result<(), NoMemory>
    requires prims { (prim : _) → prim < length lines.now → HasPrim grid.old.objects object prim }
    requires files { All (λ line. All (HasFile (length units.now)) line.scripts) lines.now }
    requires room { length (grid.old.seats ++ seats_of_prims units.now object 0 lines.now) ≤ 256 }
    requires seated { AreSeated units.now grid.old.seats }
    ensures objects { OnOk result (grid.new.objects ≡ grid.old.objects) }
    ensures seats { OnOk result (grid.new.seats ≡ grid.old.seats ++ seats_of_prims units.now object 0 lines.now) }
    ensures seated { OnOk result (AreSeated units.now grid.new.seats) }
{
    for prim in 0..lines.len() {
        add_scripts(
            alloc,
            grid,
            object,
            prim,
            lines[prim].scripts.as_slice(),
            units,
        )?;
    }
    Ok(())
}

// Adds the scripts of the prim at this place of the object at this place.
fn add_scripts(
    alloc: Global,
    grid: &mut Grid,
    object: usize,
    prim: usize,
    lines: &[ScriptLine],
    units: &Library,
) -> Result<(), NoMemory>
    requires prim { HasPrim grid.old.objects object prim }
    requires files { All (HasFile (length units.now)) lines.now }
    requires room { length (grid.old.seats ++ seats_of_prim units.now object prim lines.now) ≤ 256 }
    requires seated { AreSeated units.now grid.old.seats }
    ensures objects { OnOk result (grid.new.objects ≡ grid.old.objects) }
    ensures seats { OnOk result (grid.new.seats ≡ grid.old.seats ++ seats_of_prim units.now object prim lines.now) }
    ensures seated { OnOk result (AreSeated units.now grid.new.seats) }
{
    for line in lines {
        grid.seat(first_seat(alloc, object, prim, line, units)?)?;
    }
    Ok(())
}

// The seat of a script at its start.
fn first_seat(
    alloc: Global,
    object: usize,
    prim: usize,
    line: &ScriptLine,
    units: &Library,
) -> Result<Seat, NoMemory>
    requires { HasFile (length units.now) line.now }
    ensures seat { IfOk result (λ seat. seat ≡ seat_of_line units.now object prim line.now) }
    ensures seated { IfOk result (IsSeated units.now) }
{
    let name = line.name.copy()?;
    let script = Script::new(alloc, line.file, units.unit(line.file))?;
    Ok(Seat {
        object,
        prim,
        name,
        unit: line.file,
        script: Some(script),
    })
}

// The object of a line.
fn linkset(alloc: Global, line: &ObjectLine) -> Result<Linkset, NoMemory>
    ensures { IfOk result (λ object. object ≡ object_of_line line.now) }
{
    Ok(Linkset {
        owner: line.owner.copy()?,
        region: line.region.copy()?,
        prims: prims(alloc, line.prims.as_slice())?,
        store: Store::new(alloc),
    })
}

// The prims of these lines.
fn prims(alloc: Global, lines: &[PrimLine]) -> Result<Prims, NoMemory>
    ensures { IfOk result (λ prims. prims ≡ map prim_of_line lines.now) }
{
    let mut prims = Prims::new(alloc);
    for line in lines {
        prims.push(line.key.copy()?, line.name.copy()?)?;
    }
    Ok(prims)
}
