//! Worlds with all steps done.
ghost use Rattle.std.specs.Prelude.{◌≡◌, None, All, OnOk, length};
ghost use Rattle.lsl_world.specs.Ranges.{IsInRange};
ghost use Rattle.lsl_world.specs.Sizes.{IsStepOf};
ghost use Rattle.lsl_world.specs.Sound.{IsSound};
ghost use Rattle.lsl_world.specs.Stands.{size_of};

use lsl_build::build;
use lsl_code::Library;
use lsl_lines::{Step, WorldFile, read_world};
use lsl_notes::Cards;
use lsl_ports::MemoryLink;
use lsl_post::Entries;
use lsl_text::{NoMemory, Refusal};
use lsl_world::World;
use lsl_world::laws::good_files_are_in_range;
use std::alloc::{AllocError, Global};

/// The number of saves of a world's scripts in all of its steps, if the world is good and has one script file, which is
/// accepted.
pub(crate) fn saves_of(alloc: Global, world: &str, script: &str) -> Result<Option<u64>, NoMemory> {
    good_files_are_in_range();
    let Ok(file) = read_world(alloc, world.as_bytes()) else {
        return Ok(None);
    };
    let units = library_of(alloc, script)?;
    if file.files.len() != units.len() {
        return Ok(None);
    }
    Ok(Some(saves_in(alloc, &file, units)?))
}

/// The image of such a world after its steps, and that of the world that it thaws to.
pub(crate) fn frozen_twice(
    alloc: Global,
    world: &str,
    script: &str,
) -> Result<Option<(Vec<u8>, Vec<u8>)>, NoMemory> {
    good_files_are_in_range();
    let Ok(file) = read_world(alloc, world.as_bytes()) else {
        return Ok(None);
    };
    let units = library_of(alloc, script)?;
    let others = library_of(alloc, script)?;
    if file.files.len() != units.len() || file.files.len() != others.len() {
        return Ok(None);
    }
    frozen_in(alloc, &file, units, others)
}

/// The code of a script, or none if it isn't accepted.
fn library_of(alloc: Global, script: &str) -> Result<Library, NoMemory> {
    let mut units = Library::new(alloc);
    if let Ok(built) = build(alloc, script.as_bytes()) {
        units.add(built.code)?;
    }
    Ok(units)
}

fn frozen_in(
    alloc: Global,
    file: &WorldFile,
    units: Library,
    others: Library,
) -> Result<Option<(Vec<u8>, Vec<u8>)>, NoMemory>
    requires file { IsInRange file.now }
    requires units { length units ≡ length file.now.files }
    requires others { length others ≡ length file.now.files }
{
    let mut world = World::start(alloc, file, units, Cards::new(alloc))?;
    steps_done(alloc, &mut world, file.steps.as_slice())?;
    let frozen = world.freeze()?;
    match World::thaw(alloc, file, others, Cards::new(alloc), frozen.as_slice()) {
        Ok(thawed) => {
            let again = thawed.freeze()?;
            Ok(Some((frozen, again)))
        }
        Err(Refusal::Fault(_)) => Ok(None),
        Err(Refusal::NoMemory) => Err(AllocError),
    }
}

fn saves_in(alloc: Global, file: &WorldFile, units: Library) -> Result<u64, NoMemory>
    requires file { IsInRange file.now }
    requires units { length units ≡ length file.now.files }
{
    let mut world = World::start(alloc, file, units, Cards::new(alloc))?;
    steps_done(alloc, &mut world, file.steps.as_slice())?;
    Ok(world.saves())
}

fn steps_done(alloc: Global, world: &mut World, steps: &[Step]) -> Result<(), NoMemory>
    requires sound { IsSound world.old }
    requires steps { All (IsStepOf (size_of world.old)) steps.now }
    requires plain { world.old.cards ≡ None }
    ensures { OnOk result (IsSound world.new) }
{
    let mut link = MemoryLink::new(alloc, Vec::new(alloc));
    for step in steps {
        world.step(step, &mut link, &mut Entries::new(alloc))?;
    }
    Ok(())
}
