//! A world is frozen as an image, and thawed from one.

ghost use Rattle.std.specs.Prelude.{◌≡◌, ◌≤◌, List, [], length, map, IfErr, IfOk, MatchResult, OnOk};
ghost use Rattle.lsl_text.specs.declared.Refusal.TheVariants.{NoMemory as WantsMemory};
ghost use Rattle.lsl_image.specs.declared.faults.ImageFault.{ImageFault as AFault};
ghost use Rattle.lsl_image.specs.declared.parts.WorldParts.{WorldParts as TheParts};
ghost use Rattle.lsl_image.specs.Answers.{GivesThat, RefusesWith};
ghost use Rattle.lsl_image.specs.Bytes.{world_image};
ghost use Rattle.lsl_image.specs.Images.{WorldFirst, WorldImage};
ghost use Rattle.lsl_image.specs.Reading.{IsRefusedBy};
ghost use Rattle.lsl_image.specs.Valid.{IsWorld, placed_shape, shapes_of};
ghost use Rattle.lsl_post.specs.Timing.{latest_clock};
ghost use Rattle.lsl_tree.specs.Program.{Program};
ghost use Rattle.lsl_region.specs.GridParts.{fixed_in, fixed_of, placed_in};
ghost use Rattle.lsl_region.specs.Grids.{AreSeated};
ghost use Rattle.lsl_region.specs.Pausing.{Counts, no_tally};
ghost use Rattle.lsl_region.specs.Worlds.{World as SourceWorld};
ghost use Rattle.lsl_world.specs.Codes.{AreRunBy};
ghost use Rattle.lsl_world.specs.Frozen.{AgreesWith, IsImageIn, frozen_image, parts_in, parts_of_world, shapes_of_file};
ghost use Rattle.lsl_world.specs.Programs.{rules_of};
ghost use Rattle.lsl_world.specs.Ranges.{IsInRange};
ghost use Rattle.lsl_world.specs.Sizes.{size_of_file};
ghost use Rattle.lsl_world.specs.Sound.{IsIndexed, IsSound};
ghost use Rattle.lsl_world.specs.Stands.{IsOf, prims_of, size_of};
ghost use Rattle.lsl_world.specs.Starts.{start};
ghost use Rattle.lsl_world.specs.Timers.{AreNumbered, IsIndexIn};
ghost use Rattle.lsl_world.specs.declared.world.World.{World as TheWorld};

use crate::naming::Regions;
use crate::starting::add_objects;
use crate::timers::note_timers;
use crate::world::World;
use lsl_code::Library;
use lsl_image::{ImageFault, WorldParts, read_world, write_world};
use lsl_lines::WorldFile;
use lsl_notes::Cards;
use lsl_post::Due;
use lsl_region::{Grid, Pause};
use lsl_text::{NoMemory, Refusal};
use std::alloc::Global;

impl World {
    /// The image of the world as it is: its clock, and of each object the region and the parts.
    ///
    /// It takes memory for the parts and the image, which is written once, and walked once more for its digest.
    pub fn freeze(&self) -> Result<Vec<u8>, NoMemory>
        requires sound { IsSound self.now }
        ensures image { IfOk result (λ image.
            WorldImage (shapes_of (parts_in self.now)) self.now.units (parts_in self.now) image.items) }
        ensures bytes { IfOk result (λ image. image.items ≡ world_image 2 self.now.units (parts_in self.now)) }
        ensures of { (programs : List Program) (w : SourceWorld) → IsOf programs self.now w
            → parts_in self.now ≡ parts_of_world self.now.units w }
    {
        let parts = self.parts()?;
        write_world(self.alloc, &parts, &self.units)
    }

    /// The parts of the world as it is, of which an image can be written. It takes memory for them.
    pub fn parts(&self) -> Result<WorldParts, NoMemory>
        requires sound { IsSound self.now }
        ensures parts { IfOk result (λ parts. parts ≡ parts_in self.now) }
        ensures written { IfOk result (IsWorld self.now.units) }
    {
        let objects = self.grid.all_parts()?;
        Ok(WorldParts {
            clock: self.clock,
            objects,
        })
    }

    /// The world of which these bytes are an image in version 1 or 2, with the objects and scripts of a file, or the
    /// first fault of the bytes.
    ///
    /// The units are those of the file's scripts, in the order of its `files`, and the notecards are those of its
    /// prims. Pausing is off. It takes memory for the objects and scripts.
    pub fn thaw(
        alloc: Global,
        file: &WorldFile,
        units: Library,
        cards: Cards,
        bytes: &[u8],
    ) -> Result<World, Refusal<ImageFault>>
        requires file { IsInRange file.now }
        requires units { length units ≡ length file.now.files }
        ensures found { IfOk result (λ world. IsImageIn units file.now (parts_in world) bytes.now) }
        ensures every { (parts : TheParts) → IsImageIn units file.now parts bytes.now
            → MatchResult result (λ world. parts_in world ≡ parts) (λ refusal. refusal ≡ WantsMemory) }
        ensures first { IfErr result (IsRefusedBy (WorldFirst (shapes_of_file file.now) units bytes.now)) }
        ensures only { (fault : AFault) → WorldFirst (shapes_of_file file.now) units bytes.now fault
            → RefusesWith result fault }
        ensures of { (programs : List Program) (w : SourceWorld) → AreRunBy programs units
            → AgreesWith programs file.now cards w → IsImageIn units file.now (parts_of_world units w) bytes.now
            → IfOk result (λ world. IsOf programs world w) }
        ensures fixed { (programs : List Program) → AreRunBy programs units
            → IfOk result (λ world. fixed_of world.grid ≡ fixed_in (start (rules_of programs) file.now cards)) }
        ensures size { IfOk result (λ world. size_of world ≡ size_of_file file.now) }
        ensures sound { IfOk result IsSound }
        ensures indexed { IfOk result IsIndexed }
        ensures saves { IfOk result (λ world. Counts world.pause no_tally) }
        ensures units { IfOk result (λ world. world.units ≡ units) }
        ensures plain { IfOk result (λ world. world.cards ≡ None) }
    {
        let mut world = World {
            alloc,
            clock: 0,
            grid: Grid::new(alloc),
            units,
            pause: Pause::off(alloc),
            due: Due::new(alloc),
            regions: Regions::new(alloc),
            cards: None,
        };
        match restore(
            alloc,
            file,
            &world.units,
            cards,
            bytes,
            &mut world.grid,
            &mut world.due,
        ) {
            Ok(clock) => {
                world.clock = clock;
                Ok(world)
            }
            Err(refusal) => Err(refusal),
        }
    }
}

// Fills an empty grid from an image, and returns the clock.
fn restore(
    alloc: Global,
    file: &WorldFile,
    units: &Library,
    cards: Cards,
    bytes: &[u8],
    grid: &mut Grid,
    due: &mut Due,
) -> Result<u64, Refusal<ImageFault>>
    requires file { IsInRange file.now }
    requires units { length units.now ≡ length file.now.files }
    requires no_object { grid.old.objects ≡ [] }
    requires no_script { grid.old.seats ≡ [] }
    requires no_time { due.old ≡ [] }
    ensures found { IfOk result (λ clock.
        IsImageIn units.now file.now (record { clock = clock; objects = placed_in grid.new }) bytes.now) }
    ensures every { (parts : TheParts) → IsImageIn units.now file.now parts bytes.now → MatchResult result
        (λ clock. parts ≡ record { clock = clock; objects = placed_in grid.new })
        (λ refusal. refusal ≡ WantsMemory) }
    ensures first { IfErr result (IsRefusedBy (WorldFirst (shapes_of_file file.now) units.now bytes.now)) }
    ensures only { (fault : AFault) → WorldFirst (shapes_of_file file.now) units.now bytes.now fault
        → RefusesWith result fault }
    ensures of { (programs : List Program) (w : SourceWorld) (world : TheWorld) → AreRunBy programs units.now
        → AgreesWith programs file.now cards w → IsImageIn units.now file.now (parts_of_world units.now w) bytes.now
        → world.units ≡ units.now → world.grid ≡ grid.new → world.due ≡ due.new
        → IfOk result (λ clock. world.clock ≡ clock → IsOf programs world w) }
    ensures fixed { (programs : List Program) → AreRunBy programs units.now
        → OnOk result (fixed_of grid.new ≡ fixed_in (start (rules_of programs) file.now cards)) }
    ensures size { OnOk result (size_of_file file.now
        ≡ record { prims = map prims_of grid.new.objects; scripts = length grid.new.seats }) }
    ensures seated { OnOk result (AreSeated units.now grid.new.seats) }
    ensures timely { IfOk result (λ clock. clock ≤ latest_clock) }
    ensures index { OnOk result (IsIndexIn grid.new.seats due.new) }
    ensures numbered { OnOk result (AreNumbered (length grid.new.seats) due.new) }
{
    add_objects(alloc, grid, file.objects.as_slice(), units)?;
    grid.hold(cards);
    let WorldParts { clock, objects } = read_parts(alloc, grid, units, bytes)?;
    grid.thaw(objects, units)?;
    note_timers(grid, due)?;
    Ok(clock)
}

// The parts of which these bytes are an image, where the objects have the shapes of the grid's, or the first fault of
// the bytes.
fn read_parts(
    alloc: Global,
    grid: &Grid,
    units: &Library,
    bytes: &[u8],
) -> Result<WorldParts, Refusal<ImageFault>>
    ensures found { IfOk result (λ parts.
        WorldImage (map placed_shape (placed_in grid.now)) units.now parts bytes.now) }
    ensures every { (parts : TheParts) → WorldImage (map placed_shape (placed_in grid.now)) units.now parts bytes.now
        → GivesThat result parts }
    ensures first { IfErr result (IsRefusedBy
        (WorldFirst (map placed_shape (placed_in grid.now)) units.now bytes.now)) }
    ensures only { (fault : AFault) → WorldFirst (map placed_shape (placed_in grid.now)) units.now bytes.now fault
        → RefusesWith result fault }
{
    let shapes = grid.shapes()?;
    read_world(alloc, bytes, &shapes, units)
}
