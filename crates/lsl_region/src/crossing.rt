//! Crossings: an object's image is sent over a link, or by notes, and the object continues as what comes back says.

ghost use Rattle.std.specs.Prelude.{◌≡◌, ◌≢◌, ◌<◌, ◌≤◌, ◌-◌, ◌+◌, ◌∷◌, [], ℕ, ◌++◌, List, None, Ok as OkResult, length, map, option_map, take, All, IfOk, MatchResult, OnOk, MatchOption};
ghost use Rattle.std.specs.List.{filter_map};
ghost use Rattle.lsl_ports.specs.Counts.{Rose};
ghost use Rattle.lsl_ports.specs.Growth.{Begins};
ghost use Rattle.lsl_ports.specs.Trips.{Trip, Went, sent_of};
ghost use Rattle.lsl_post.specs.Journal.{Tells};
ghost use Rattle.lsl_image.specs.Images.{ObjectFirst, ObjectImage};
ghost use Rattle.lsl_image.specs.Valid.{shape_of};
ghost use Rattle.lsl_image.specs.declared.parts.ObjectParts.{ObjectParts as AParts};
ghost use Rattle.lsl_script.specs.Codes.{Meant};
ghost use Rattle.lsl_region.specs.Crossings.{CanArrive, ComesOf, CrossesAs, IsOneTrip, IsSent, KeepsCounts, Stays, arrived, image_in, images_to, kept_entries, region_changed, region_in};
ghost use Rattle.lsl_region.specs.Grids.{AreSeated, Stands};
ghost use Rattle.lsl_region.specs.Journeys.{Travels, arrive};
ghost use Rattle.lsl_region.specs.ObjectParts.{parts_in_seat, parts_of_object};
ghost use Rattle.lsl_region.specs.Worlds.{World};

use crate::arrival::{Arrival, Site, prepare};
use crate::grid::Grid;
use lsl_code::Library;
use lsl_image::{ImageFault, ObjectParts, Shape, read_object, write_object};
use lsl_ports::{Link, LinkFault};
use lsl_post::Entries;
use lsl_text::{NoMemory, Refusal};
use lsl_value::Text;
use std::alloc::{AllocError, Global};

/// Why an object stayed where it was.
#[derive(Clone, Copy, PartialEq, Eq)]
pub enum StayedWhy {
    /// The link failed, and counted it.
    Link,
    /// What came back isn't an image of the object; this is its first fault.
    Image(ImageFault),
}

/// What became of an object that was to cross.
#[derive(Clone, Copy, PartialEq, Eq)]
pub enum Crossed {
    /// It continues in the other region, as what came back says.
    Moved,
    /// It continues as it was, where it was.
    Stayed(StayedWhy),
    /// It is in that region already; the link wasn't called.
    Here,
}

impl Grid {
    /// Sends the object of this number over the link to this region, and posts `changed` with 256 to all its scripts if
    /// it arrived.
    ///
    /// The link is called once, unless the object is in that region already. After Stayed and Here, and when memory
    /// runs out, grid and entries are unchanged.
    ///
    /// What the posting needs is taken before the link is called. Walks the scripts, and the object's image once for
    /// each way and once for each digest.
    pub fn cross<L: Link>(
        &mut self,
        object: u32,
        region: &Text,
        library: &Library,
        link: &mut L,
        out: &mut Entries,
    ) -> Result<Crossed, NoMemory>
        requires first { 0 < object }
        requires last { object ≤ length self.old.objects }
        requires seated { AreSeated library.now self.old.seats }
        ensures crosses { (trips : List Trip) × Went L.gives (L.trips link.old) (L.trips link.new) trips
            × MatchResult result
            (CrossesAs library.now (object - 1) region.now self.old self.new out.old out.new trips)
            (λ _. Stays self.old self.new out.old out.new
            × Begins (sent_of trips) (images_to library.now self.old (object - 1) region.now))
            × ((m : Meant library.now) (clock : ℕ) (w : World) → Stands library.now None clock self.old w →
            Travels library.now m.rules clock (object - 1) region.now w trips self.new out.old out.new result) }
        ensures link { result ≡ OkResult (Crossed.Stayed StayedWhy.Link) →
            Rose (L.faults link.old) (L.faults link.new) }
        ensures counted { L.faults link.old ≤ L.faults link.new }
        ensures seated { OnOk result (AreSeated library.now self.new.seats) }
        ensures objects { map (λ o. length o.prims) self.new.objects ≡ map (λ o. length o.prims) self.old.objects }
        ensures scripts { length self.new.seats ≡ length self.old.seats }
    {
        if *self.region(object) == *region {
            return Ok(Crossed::Here);
        }
        let before = out.len();
        let outcome = self.cross_over(object, region, library, link, out);
        strike(&outcome, before, out);
        outcome
    }

    // Sends an object from another region. Where it stays, placeholder entries may be left after the others.
    fn cross_over<L: Link>(
        &mut self,
        object: u32,
        region: &Text,
        library: &Library,
        link: &mut L,
        out: &mut Entries,
    ) -> Result<Crossed, NoMemory>
        requires first { 0 < object }
        requires last { object ≤ length self.old.objects }
        requires seated { AreSeated library.now self.old.seats }
        requires elsewhere { region_in self.old (object - 1) ≢ region.now }
        ensures crosses { (trips : List Trip) × Went L.gives (L.trips link.old) (L.trips link.new) trips
            × MatchResult result
            (λ crossed. CrossesAs library.now (object - 1) region.now self.old self.new out.old
            (kept_entries crossed (length out.old) out.new) trips crossed)
            (λ _. Stays self.old self.new out.old (take (length out.old) out.new)
            × Begins (sent_of trips) (image_in library.now self.old (object - 1) ∷ [])) }
        ensures image { OnOk result (IsSent library.now self.old (object - 1)) }
        ensures link { result ≡ OkResult (Crossed.Stayed StayedWhy.Link) →
            Rose (L.faults link.old) (L.faults link.new) }
        ensures counted { L.faults link.old ≤ L.faults link.new }
        ensures kept { KeepsCounts library.now result self.old self.new }
    {
        let shape = self.shape(object)?;
        let arrival = prepare(self.alloc, shape.units.len(), region, out)?;
        let place = object as usize - 1;
        let site = Site { place, library };
        match self.send(object, library, link)? {
            Some(back) => self.receive(&site, &back, &shape, arrival, out),
            None => Ok(Crossed::Stayed(StayedWhy::Link)),
        }
    }

    // Sends the image of the object of this number, and returns what came back.
    fn send<L: Link>(
        &self,
        object: u32,
        library: &Library,
        link: &mut L,
    ) -> Result<Option<Vec<u8>>, NoMemory>
        requires first { 0 < object }
        requires last { object ≤ length self.now.objects }
        requires seated { AreSeated library.now self.now.seats }
        ensures went { (trips : List Trip) × Went L.gives (L.trips link.old) (L.trips link.new) trips
            × MatchResult result
            (λ back. IsOneTrip trips (image_in library.now self.now (object - 1)) (option_map (λ b. b.items) back))
            (λ _. Begins (sent_of trips) (image_in library.now self.now (object - 1) ∷ [])) }
        ensures image { OnOk result (IsSent library.now self.now (object - 1)) }
        ensures lost { result ≡ OkResult None → Rose (L.faults link.old) (L.faults link.new) }
        ensures counted { L.faults link.old ≤ L.faults link.new }
    {
        let image = self.image(object, library)?;
        carried(self.alloc, &image, link)
    }

    /// The image of the object of this number. Walks the scripts, and the image once more for its digest.
    pub fn image(&self, object: u32, library: &Library) -> Result<Vec<u8>, NoMemory>
        requires first { 0 < object }
        requires last { object ≤ length self.now.objects }
        requires seated { AreSeated library.now self.now.seats }
        ensures bytes { IfOk result (λ image. image.items ≡ image_in library.now self.now (object - 1)) }
        ensures image { OnOk result (IsSent library.now self.now (object - 1)) }
        ensures own { OnOk result
            (CanArrive library.now self.now (object - 1) (parts_of_object self.now (object - 1))) }
    {
        let parts = self.parts(object)?;
        write_object(self.alloc, &parts, self.region(object), library)
    }

    // Makes the object at this site what came back says.
    fn receive(
        &mut self,
        site: &Site,
        back: &[u8],
        shape: &Shape,
        arrival: Arrival,
        out: &mut Entries,
    ) -> Result<Crossed, NoMemory>
        requires place { site.now.place < length self.old.objects }
        requires seated { AreSeated site.now.library.now self.old.seats }
        requires shape { shape.now ≡ shape_of (parts_of_object self.old site.now.place) }
        requires events { All (λ e. e ≡ region_changed) arrival.events.items }
        requires count { length arrival.events.items ≡
            length (filter_map (parts_in_seat site.now.place) self.old.seats) }
        requires room { arrival.before + length arrival.events.items ≤ length out.old }
        ensures comes { MatchResult result
            (λ crossed. ComesOf site.now.library.now site.now.place arrival.region self.old self.new
            (take arrival.before out.old) (kept_entries crossed arrival.before out.new) back.now crossed)
            (λ _. Stays self.old self.new (take arrival.before out.old) (take arrival.before out.new)) }
        ensures kept { KeepsCounts site.now.library.now result self.old self.new }
    {
        let region = self.region_at(site.place);
        match read_back(self.alloc, back, region, shape, site.library)? {
            Ok(parts) => {
                self.arrive(site, parts, arrival, out)?;
                Ok(Crossed::Moved)
            }
            Err(fault) => Ok(Crossed::Stayed(StayedWhy::Image(fault))),
        }
    }

    /// The object's parts, where these bytes are an image of the object of this number that was sent from this region;
    /// none where they aren't. Walks the scripts, and the bytes once more for their digest.
    pub fn read_image(
        &self,
        object: u32,
        region: &Text,
        bytes: &[u8],
        library: &Library,
    ) -> Result<Option<ObjectParts>, NoMemory>
        requires first { 0 < object }
        requires last { object ≤ length self.now.objects }
        ensures { IfOk result (λ read. MatchOption read
            ((parts : AParts) → ObjectImage region.now (shape_of (parts_of_object self.now (object - 1))) library.now
            parts bytes.now → ⊥)
            (λ parts. ObjectImage region.now (shape_of (parts_of_object self.now (object - 1))) library.now
            parts bytes.now × CanArrive library.now self.now (object - 1) parts)) }
    {
        let shape = self.shape(object)?;
        match read_back(self.alloc, bytes, region, &shape, library)? {
            Ok(parts) => Ok(Some(parts)),
            Err(_) => Ok(None),
        }
    }

    /// Puts the object of this number into this region, with these parts, and then posts `changed` with 256 to all its
    /// scripts. When memory runs out, grid and entries are unchanged. Walks the scripts.
    pub fn come(
        &mut self,
        object: u32,
        region: &Text,
        parts: ObjectParts,
        library: &Library,
        out: &mut Entries,
    ) -> Result<(), NoMemory>
        requires first { 0 < object }
        requires last { object ≤ length self.old.objects }
        requires seated { AreSeated library.now self.old.seats }
        requires parts { CanArrive library.now self.old (object - 1) parts }
        ensures comes { MatchResult result
            (λ _. (self.new ≡ (arrived library.now self.old (object - 1) region.now parts).value)
            × (out.new ≡ out.old ++ (arrived library.now self.old (object - 1) region.now parts).entries))
            (λ _. Stays self.old self.new out.old out.new) }
        ensures means { (m : Meant library.now) (clock : ℕ) (w : World) → Stands library.now None clock self.old w
            → parts ≡ parts_of_object self.old (object - 1)
            → Tells result (λ v _. Stands library.now None clock self.new v) out.old out.new
            (arrive m.rules (object - 1) region.now w) }
        ensures seated { OnOk result (AreSeated library.now self.new.seats) }
        ensures objects { map (λ o. length o.prims) self.new.objects ≡ map (λ o. length o.prims) self.old.objects }
        ensures scripts { length self.new.seats ≡ length self.old.seats }
    {
        let before = out.len();
        match self.come_behind(object, region, parts, library, out) {
            Ok(()) => Ok(()),
            Err(error) => {
                out.truncate(before);
                Err(error)
            }
        }
    }

    // Puts the object of this number into this region, with these parts. When memory runs out, placeholder entries may
    // be left after the others.
    fn come_behind(
        &mut self,
        object: u32,
        region: &Text,
        parts: ObjectParts,
        library: &Library,
        out: &mut Entries,
    ) -> Result<(), NoMemory>
        requires first { 0 < object }
        requires last { object ≤ length self.old.objects }
        requires seated { AreSeated library.now self.old.seats }
        requires parts { CanArrive library.now self.old (object - 1) parts }
        ensures comes { MatchResult result
            (λ _. (self.new ≡ (arrived library.now self.old (object - 1) region.now parts).value)
            × (out.new ≡ out.old ++ (arrived library.now self.old (object - 1) region.now parts).entries))
            (λ _. Stays self.old self.new out.old (take (length out.old) out.new)) }
        ensures kept { KeepsCounts library.now result self.old self.new }
    {
        let arrival = prepare(self.alloc, parts.scripts.len(), region, out)?;
        let place = object as usize - 1;
        let site = Site { place, library };
        self.arrive(&site, parts, arrival, out)
    }
}

// Keeps only the first `before` entries if the object stays.
fn strike(outcome: &Result<Crossed, NoMemory>, before: usize, out: &mut Entries)
    ensures { MatchResult outcome.now
        (λ crossed. out.new ≡ kept_entries crossed before out.old) (λ _. out.new ≡ take before out.old) }
{
    match outcome {
        Ok(Crossed::Moved) => (),
        _ => out.truncate(before),
    }
}

// Sends bytes, and returns those that came back, or none where the link failed.
fn carried<L: Link>(alloc: Global, sent: &[u8], link: &mut L) -> Result<Option<Vec<u8>>, NoMemory>
    ensures went { (trips : List Trip) × Went L.gives (L.trips link.old) (L.trips link.new) trips
        × MatchResult result (λ back. IsOneTrip trips sent.now (option_map (λ b. b.items) back)) (λ _. trips ≡ []) }
    ensures lost { result ≡ OkResult None → Rose (L.faults link.old) (L.faults link.new) }
    ensures counted { L.faults link.old ≤ L.faults link.new }
{
    match link.carry(alloc, sent) {
        Ok(back) => Ok(Some(back)),
        Err(LinkFault::Failed) => Ok(None),
        Err(LinkFault::NoMemory) => Err(AllocError),
    }
}

// Reads what came back: an object's parts, or the first fault.
fn read_back(
    alloc: Global,
    back: &[u8],
    region: &Text,
    shape: &Shape,
    library: &Library,
) -> Result<Result<ObjectParts, ImageFault>, NoMemory>
    ensures { IfOk result (λ read. MatchResult read
        (λ parts. ObjectImage region.now shape.now library.now parts back.now)
        (λ fault. ObjectFirst region.now shape.now library.now back.now fault)) }
{
    match read_object(alloc, back, region, shape, library) {
        Ok(parts) => Ok(Ok(parts)),
        Err(Refusal::Fault(fault)) => Ok(Err(fault)),
        Err(Refusal::NoMemory) => Err(AllocError),
    }
}
