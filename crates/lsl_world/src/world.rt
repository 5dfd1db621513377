//! A world in memory.

ghost use Rattle.std.specs.Prelude.{◌≡◌, ℕ, List, [], None, Some, length, map, min, All, IfOk, OnOk};
ghost use Rattle.lsl_code.specs.declared.woven_units.Woven.{Woven as Code};
ghost use Rattle.lsl_handoff.specs.declared.card.Card.{Card};
ghost use Rattle.lsl_ports.specs.Trips.{Trip, Went};
ghost use Rattle.lsl_post.specs.Journal.{Adds};
ghost use Rattle.lsl_tree.specs.Program.{Program};
ghost use Rattle.lsl_region.specs.Grids.{AreSeated, Stands};
ghost use Rattle.lsl_region.specs.Pausing.{Counts, Tally, most_saves, no_tally};
ghost use Rattle.lsl_region.specs.Worlds.{World as SourceWorld};
ghost use Rattle.lsl_world.specs.Codes.{AreRunBy};
ghost use Rattle.lsl_world.specs.Handing.{AreCarded, IsBegun};
ghost use Rattle.lsl_world.specs.Kept.{regions_of};
ghost use Rattle.lsl_world.specs.Lossy.{cards_at_start};
ghost use Rattle.lsl_world.specs.Orders.{AreAtMost, AreInOrder};
ghost use Rattle.lsl_world.specs.Programs.{rules_of};
ghost use Rattle.lsl_world.specs.Ranges.{IsInRange};
ghost use Rattle.lsl_world.specs.Regions.{AreInNamed, LeadsToNamed, regions_of_file};
ghost use Rattle.lsl_world.specs.Reports.{homes};
ghost use Rattle.lsl_world.specs.Seats.{seats_of_objects};
ghost use Rattle.lsl_world.specs.Sizes.{size_of_file};
ghost use Rattle.lsl_world.specs.Sound.{IsIndexed, IsSound};
ghost use Rattle.lsl_world.specs.Stands.{IsOf, size_of};
ghost use Rattle.lsl_world.specs.Starts.{object_of_line, start};
ghost use Rattle.lsl_world.specs.Timers.{AreNumbered, IsIndexIn, IsIndexOf, timings_of};

use crate::naming::Regions;
use crate::starting::add_objects;
use crate::timers::note_timers;
use lsl_code::Library;
use lsl_handoff::Field;
use lsl_lines::WorldFile;
use lsl_notes::Cards;
use lsl_post::{Due, Entries};
use lsl_region::{Grid, Pause};
use lsl_text::NoMemory;
use std::alloc::Global;

/// The state of a world: the reading of the clock, the objects of a world file, and the units of its scripts' files; at
/// which segments scripts are saved and restored, and when the running timers are due; the regions that the file names,
/// and where objects are handed over by notes the cards of all regions.
pub struct World {
    pub(crate) alloc: Global,
    pub(crate) clock: u64,
    pub(crate) grid: Grid,
    pub(crate) units: Library,
    pub(crate) pause: Pause,
    pub(crate) due: Due,
    pub(crate) regions: Regions,
    pub(crate) cards: Option<Field>,
}

// Takes the world apart in one place: code that drops a world calls this, and is proved without its fields.
impl Drop for World {
    fn drop(self) {
        let World {
            alloc: _,
            clock: _,
            grid: _,
            units: _,
            pause: _,
            due: _,
            regions: _,
            cards: _,
        } = self;
    }
}

impl World {
    /// The world of a file before its first step.
    ///
    /// The units are those of its scripts' files, in the order of the file's `files`, and the notecards those of its
    /// prims. It takes memory for the objects, the scripts and the names of the regions.
    pub fn start(
        alloc: Global,
        file: &WorldFile,
        units: Library,
        cards: Cards,
    ) -> Result<World, NoMemory>
        requires file { IsInRange file.now }
        requires units { length units ≡ length file.now.files }
        ensures of { (programs : List Program) → AreRunBy programs units
            → IfOk result (λ world. IsOf programs world (start (rules_of programs) file.now cards)) }
        ensures size { IfOk result (λ world. size_of world ≡ size_of_file file.now) }
        ensures sound { IfOk result IsSound }
        ensures indexed { IfOk result IsIndexed }
        ensures saves { IfOk result (λ world. Counts world.pause no_tally) }
        ensures units { IfOk result (λ world. world.units ≡ units) }
        ensures begun { IfOk result IsBegun }
        ensures regions { IfOk result (λ world. world.regions ≡ regions_of_file file.now) }
        ensures named { IfOk result (λ world. All (LeadsToNamed world.regions) file.now.steps) }
    {
        let mut world = World {
            alloc,
            clock: 0,
            grid: Grid::new(alloc),
            units,
            pause: Pause::off(alloc),
            due: Due::new(alloc),
            regions: Regions::new(alloc),
            cards: None,
        };
        begin(
            alloc,
            file,
            &world.units,
            cards,
            &mut world.grid,
            &mut world.due,
            &mut world.regions,
        )?;
        Ok(world)
    }

    /// The same world, in which objects are handed over by notes from now on. It takes memory for a card of each object
    /// and region.
    pub fn lossy(self) -> Result<World, NoMemory>
        requires begun { IsBegun self }
        ensures of { (programs : List Program) (w : SourceWorld) → IsOf programs self w
            → IfOk result (λ world. IsOf programs world w) }
        ensures order { (programs : List Program) (w : SourceWorld) → IsOf programs self w
            → IfOk result (λ world. (cards : List (List Card)) × (world.cards ≡ Some cards)
            × AreInOrder world.regions cards (regions_of w) × AreAtMost 0 cards) }
        ensures cards { IfOk result (λ world. world.cards ≡ Some (cards_at_start self.regions self.grid.objects)) }
        ensures carded { IfOk result AreCarded }
        ensures regions { IfOk result (λ world. world.regions ≡ self.regions) }
        ensures size { IfOk result (λ world. size_of world ≡ size_of self) }
        ensures sound { IsSound self → IfOk result IsSound }
        ensures indexed { IsIndexed self → IfOk result IsIndexed }
        ensures saves { (t : Tally) → Counts self.pause t → IfOk result (λ world. Counts world.pause t) }
        ensures units { IfOk result (λ world. world.units ≡ self.units) }
    {
        let cards = cards_of(self.alloc, &self.grid, &self.regions)?;
        let mut world = self;
        world.cards = Some(cards);
        Ok(world)
    }

    /// The units of the scripts' files. It takes no memory.
    pub fn units(&self) -> &Library
        ensures { result.now ≡ self.now.units }
    {
        &self.units
    }

    /// The number of times that scripts were saved: at the end of each turn of at least one segment that left its
    /// script in flight, and after each pausing segment that left it in flight and ready. The count saturates.
    pub fn saves(&self) -> u64
        ensures { (t : Tally) → Counts self.now.pause t → result ≡ min t.saves most_saves }
    {
        self.pause.saves()
    }

    /// Adds the region of each object. When out of memory, a part of them was added.
    pub fn homes(&self, out: &mut Entries) -> Result<(), NoMemory>
        ensures { (programs : List Program) (w : SourceWorld) → IsOf programs self.now w
            → Adds result out.old out.new (homes w) }
    {
        self.tell_homes(out)
    }
}

// Fills an empty grid from a file: its objects, when their scripts are due, and its regions.
fn begin(
    alloc: Global,
    file: &WorldFile,
    units: &Library,
    cards: Cards,
    grid: &mut Grid,
    due: &mut Due,
    regions: &mut Regions,
) -> Result<(), NoMemory>
    requires file { IsInRange file.now }
    requires units { length units.now ≡ length file.now.files }
    requires no_object { grid.old.objects ≡ [] }
    requires no_script { grid.old.seats ≡ [] }
    requires no_time { due.old ≡ [] }
    requires no_region { regions.old ≡ [] }
    ensures objects { OnOk result (grid.new.objects ≡ map object_of_line file.now.objects) }
    ensures seats { OnOk result (grid.new.seats ≡ seats_of_objects units.now 0 file.now.objects) }
    ensures cards { OnOk result (grid.new.cards ≡ cards) }
    ensures seated { OnOk result (AreSeated units.now grid.new.seats) }
    ensures exact { OnOk result ((codes : List Code) (clock : ℕ) (w : SourceWorld)
        → Stands codes None clock grid.new w → IsIndexOf (timings_of w) due.new) }
    ensures index { OnOk result (IsIndexIn grid.new.seats due.new) }
    ensures numbered { OnOk result (AreNumbered (length grid.new.seats) due.new) }
    ensures regions { OnOk result (regions.new ≡ regions_of_file file.now) }
{
    add_objects(alloc, grid, file.objects.as_slice(), units)?;
    grid.hold(cards);
    note_timers(grid, due)?;
    regions.add_file(alloc, file)
}

// The cards of objects that are at home where they are.
fn cards_of(alloc: Global, grid: &Grid, regions: &Regions) -> Result<Field, NoMemory>
    requires named { AreInNamed regions.now grid.now.objects }
    ensures { IfOk result (λ field. field ≡ cards_at_start regions.now grid.now.objects) }
{
    let mut homes = Vec::new(alloc);
    for place in 0..grid.objects() {
        let Some(home) = regions.number(grid.region(place as u32 + 1)) else {
            unreachable!();
        };
        homes.push(home)?;
    }
    Field::new(alloc, homes.as_slice(), regions.len())
}
