//! Hands an object over to another region by notes, over a link that loses, repeats and reorders them.

ghost use Rattle.std.specs.Prelude.{◌≡◌, ◌≢◌, ◌≤◌, ◌-◌, List, ℕ, None, Some, length, IfOk, IfSome, MatchResult, OnOk};
ghost use Rattle.lsl_ports.specs.Trips.{Trip, Went};
ghost use Rattle.lsl_tree.specs.Program.{Program};
ghost use Rattle.lsl_handoff.specs.DriveLaws.{departure};
ghost use Rattle.lsl_handoff.specs.Entries.{AreAllPast, AreCarried};
ghost use Rattle.lsl_handoff.specs.Fields.{IsOneOf};
ghost use Rattle.lsl_handoff.specs.Handovers.{HasCounts, IsCut, IsTaken};
ghost use Rattle.lsl_lines.specs.declared.file.Step.TheVariants as steps;
ghost use Rattle.lsl_post.specs.Journal.{Tells};
ghost use Rattle.lsl_region.specs.Crossings.{CanArrive, IsSent, image_in, region_in};
ghost use Rattle.lsl_region.specs.Grids.{AreSeated};
ghost use Rattle.lsl_region.specs.ObjectParts.{parts_of_object};
ghost use Rattle.lsl_region.specs.Worlds.{World as SourceWorld};
ghost use Rattle.lsl_world.specs.Handing.{IsImageFrom};
ghost use Rattle.lsl_world.specs.Kept.{regions_of};
ghost use Rattle.lsl_world.specs.Orders.{AreInOrder, DrivesTo, Hands, SendsOf};
ghost use Rattle.lsl_world.specs.Programs.{rules_of};
ghost use Rattle.lsl_world.specs.Regions.{IsNamed, name_in};
ghost use Rattle.lsl_world.specs.Sizes.{HasNumber};
ghost use Rattle.lsl_world.specs.Sound.{IsIndexed, IsSound};
ghost use Rattle.lsl_world.specs.Stands.{IsOf, size_of};
ghost use Rattle.lsl_world.specs.Steps.{next};

use crate::naming::Regions;
use crate::timers::note_timers;
use crate::world::World;
use lsl_code::Library;
use lsl_handoff::{DepartFault, Field, Note, Parcel, Parcels, Way, hand_over};
use lsl_image::ObjectParts;
use lsl_ports::Link;
use lsl_post::Entries;
use lsl_region::Grid;
use lsl_text::NoMemory;
use lsl_value::Text;
use std::alloc::AllocError;

/// What is needed to read the parcels of offers: the objects, the names of the regions, and the units.
#[derive(Drop)]
struct Images<'a> {
    grid: &'a Grid,
    regions: &'a Regions,
    units: &'a Library,
}

impl Parcels for Images<'_> {
    ghost use Rattle.std.specs.Prelude.{length};
    ghost use Rattle.lsl_world.specs.Handing.{IsImageFrom, IsOwnImage};

    type Parts = ObjectParts;

    ghost objects = { λ s. length s.grid.now.objects };

    ghost regions = { λ s. length s.regions.now };

    ghost stands = { λ s offer parts. IsImageFrom s.units.now s.grid.now s.regions.now offer parts };

    ghost is_own = { λ s offer. IsOwnImage s.units.now s.grid.now s.regions.now offer };

    fn read(&self, offer: &Note) -> Result<Option<ObjectParts>, NoMemory> {
        self.grid.read_image(
            offer.object,
            self.regions.name(offer.from),
            offer.parcel.bytes(),
            self.units,
        )
    }

    fn own(&self, offer: &Note) -> Result<ObjectParts, NoMemory> {
        self.grid.parts(offer.object)
    }
}

impl World {
    /// Hands an object over to a named region, unless it is there.
    pub(crate) fn hand<L: Link>(
        &mut self,
        regions: &Regions,
        field: &mut Field,
        object: u32,
        region: &Text,
        link: &mut L,
        out: &mut Entries,
    ) -> Result<(), NoMemory>
        requires sound { IsSound self.old }
        requires object { HasNumber (length self.old.grid.objects) object }
        requires named { IsNamed regions.now region.now }
        requires counts { HasCounts (length self.old.grid.objects) (length regions.now) field.old }
        ensures goes { (trips : List Trip) × Went L.gives (L.trips link.old) (L.trips link.new) trips
            × ((programs : List Program) (w : SourceWorld) (entries : List (List ℕ)) → IsOf programs self.old w
            → AreInOrder regions.now field.old (regions_of w)
            → AreAllPast (length w.objects) (length regions.now) field.old entries
            → AreCarried (length w.objects) (length regions.now) entries trips
            → Hands self.old.units (rules_of programs) (IsOf programs self.new) regions.now field.old field.new
            (steps.Cross object region.now) w entries trips out.old out.new result)
            × SendsOf self.old.units regions.now self.old.grid object trips }
        ensures counts { HasCounts (length self.old.grid.objects) (length regions.now) field.new }
        ensures units { self.new.units ≡ self.old.units }
        ensures pause { self.new.pause ≡ self.old.pause }
        ensures size { size_of self.new ≡ size_of self.old }
        ensures sound { OnOk result (IsSound self.new) }
        ensures indexed { IsIndexed self.old → OnOk result (IsIndexed self.new) }
        ensures counted { L.faults link.old ≤ L.faults link.new }
    {
        let Some(way) = regions.way(object, self.grid.region(object), region) else {
            return Ok(());
        };
        let given = self.drive(regions, field, way, link)?;
        self.land(object, region, given, out)
    }

    // Puts an object with these parts into a region; without parts it stays where it is.
    fn land(
        &mut self,
        object: u32,
        region: &Text,
        given: Option<ObjectParts>,
        out: &mut Entries,
    ) -> Result<(), NoMemory>
        requires sound { IsSound self.old }
        requires object { HasNumber (length self.old.grid.objects) object }
        requires fits { IfSome given (CanArrive self.old.units self.old.grid (object - 1)) }
        ensures stays { given ≡ None → (self.new ≡ self.old) × (out.new ≡ out.old) }
        ensures comes { (programs : List Program) (w : SourceWorld) → IsOf programs self.old w
            → given ≡ Some (parts_of_object self.old.grid (object - 1))
            → region_in self.old.grid (object - 1) ≢ region.now
            → Tells result (λ v _. IsOf programs self.new v) out.old out.new
            (next (rules_of programs) (steps.Cross object region.now) w) }
        ensures units { self.new.units ≡ self.old.units }
        ensures pause { self.new.pause ≡ self.old.pause }
        ensures size { size_of self.new ≡ size_of self.old }
        ensures sound { OnOk result (IsSound self.new) }
        ensures indexed { IsIndexed self.old → OnOk result (IsIndexed self.new) }
    {
        match given {
            Some(parts) => {
                self.grid.come(object, region, parts, &self.units, out)?;
                note_timers(&self.grid, &mut self.due)
            }
            None => Ok(()),
        }
    }

    // Drives an object on its way, and returns the parts with which it arrived.
    fn drive<L: Link>(
        &self,
        regions: &Regions,
        field: &mut Field,
        way: Way,
        link: &mut L,
    ) -> Result<Option<ObjectParts>, NoMemory>
        requires seated { AreSeated self.now.units self.now.grid.seats }
        requires object { HasNumber (length self.now.grid.objects) way.object }
        requires from { IsOneOf (length regions.now) way.from }
        requires here { name_in regions.now way.from ≡ region_in self.now.grid (way.object - 1) }
        requires to { IsOneOf (length regions.now) way.to }
        requires counts { HasCounts (length self.now.grid.objects) (length regions.now) field.old }
        ensures drives { (trips : List Trip) × Went L.gives (L.trips link.old) (L.trips link.new) trips
            × MatchResult result
            (DrivesTo self.now.units regions.now self.now.grid way field.old field.new trips)
            (λ _. IsCut (length self.now.grid.objects) (length regions.now)
            (IsTaken (IsImageFrom self.now.units self.now.grid regions.now)) way
            (departure field.old way (image_in self.now.units self.now.grid (way.object - 1))) trips)
            × SendsOf self.now.units regions.now self.now.grid way.object trips }
        ensures image { OnOk result (IsSent self.now.units self.now.grid (way.object - 1)
            × CanArrive self.now.units self.now.grid (way.object - 1)
            (parts_of_object self.now.grid (way.object - 1))) }
        ensures fits { IfOk result (λ given. IfSome given (CanArrive self.now.units self.now.grid (way.object - 1))) }
        ensures counts { HasCounts (length self.now.grid.objects) (length regions.now) field.new }
        ensures counted { L.faults link.old ≤ L.faults link.new }
    {
        let image = self.grid.image(way.object, &self.units)?;
        let images = Images {
            grid: &self.grid,
            regions,
            units: &self.units,
        };
        let objects = self.grid.objects() as u32;
        match hand_over(
            self.alloc,
            field,
            way,
            Parcel::from_vec(image),
            objects,
            regions.len(),
            &images,
            link,
        ) {
            Ok(given) => Ok(given),
            Err(DepartFault::NoMemory) => Err(AllocError),
            Err(DepartFault::NotLive | DepartFault::Here | DepartFault::LastTrip) => Ok(None),
        }
    }
}
