//! The scripts of a world, read from its files.

ghost use Rattle.std.specs.Prelude.{◌≡◌};
ghost use Rattle.lsl_ports.specs.Counts.{NoneFell};

use lsl_lines::WorldFile;
use lsl_marks::{MAX_SCRIPT_BYTES, Unit};
use lsl_ports::{Shelf, ShelfFault, read_all};
use lsl_text::NoMemory;
use std::alloc::Global;

/// The files of a world's scripts, in the order of their first naming.
pub fn read_units<S: Shelf>(
    alloc: Global,
    shelf: &mut S,
    world: &WorldFile,
) -> Result<Vec<Unit>, ShelfFault>
    ensures unchanged { S.held shelf.new ≡ S.held shelf.old }
    ensures counted { NoneFell (S.faults shelf.old) (S.faults shelf.new) }
{
    let mut units = Vec::new(alloc);
    'files: for file in world.files.as_slice() {
        let text = read_all(alloc, shelf, file.as_str(), MAX_SCRIPT_BYTES as u64)?;
        push_unit(&mut units, Unit::new(alloc, file.bytes(), text)?)?;
    }
    Ok(units)
}

fn push_unit(units: &mut Vec<Unit>, unit: Unit) -> Result<(), NoMemory> {
    units.push(unit)?;
    Ok(())
}

/// A script: its name, and the place of its unit.
#[derive(Drop)]
pub struct Script {
    pub name: Vec<u8>,
    pub unit: usize,
}

/// The scripts of a world, in its order.
pub fn scripts_of(alloc: Global, world: &WorldFile) -> Result<Vec<Script>, NoMemory> {
    let mut scripts = Vec::new(alloc);
    for object in world.objects.as_slice() {
        for prim in object.prims.as_slice() {
            for script in prim.scripts.as_slice() {
                scripts.push(Script {
                    name: Vec::from_slice(alloc, script.name.bytes())?,
                    unit: script.file as usize,
                })?;
            }
        }
    }
    Ok(scripts)
}
