//! A grid: objects, and the scripts in their prims.

ghost use Rattle.std.specs.Prelude.{◌≡◌, ◌<◌, ◌≤◌, ◌-◌, [], ◌∷◌, ◌++◌, length, get_or, slice_get, None, Some, OnErr, OnOk};
ghost use Rattle.lsl_code.specs.declared.woven_units.Woven.{Woven as Code};
ghost use Rattle.lsl_region.specs.Grids.{Stands, object_in, prim_in, IsFormed, IsPlaced};
ghost use Rattle.lsl_region.specs.Worlds.{no_object, empty_world};
ghost use Rattle.lsl_region.specs.declared.grid.Seat.{Seat as Place};

use crate::chat_index::{ChannelTable, script_channels};
use crate::objects::{Linkset, Primitive};
use lsl_notes::Cards;
use lsl_script::Script;
use lsl_text::NoMemory;
use lsl_value::Text;
use std::alloc::Global;
use std::marker::Model;

/// A script with the places of its object and its prim, its name, and the number of its unit. It is out while it is
/// awake.
#[derive(Drop)]
pub struct Seat {
    pub object: usize,
    pub prim: usize,
    pub name: Text,
    pub unit: u32,
    pub script: Option<Script>,
}

/// Objects and scripts, both numbered from 1 in the order in which they were added, on which channels scripts listen,
/// and notecards.
#[derive(Drop)]
pub struct Grid {
    pub(crate) alloc: Global,
    pub(crate) objects: Vec<Linkset>,
    pub(crate) seats: Vec<Seat>,
    pub(crate) hearers: ChannelTable,
    pub(crate) cards: Cards,
}

impl Model for Grid {
    ghost use Rattle.lsl_region.specs.Grids.{Contents, ArePlaced};
    ghost use Rattle.lsl_region.specs.Hearing.{HaveRows};

    ghost Value = { Contents };

    ghost view = { λ g. record { objects = g.objects.items; seats = g.seats.items; cards = g.cards } };

    ghost invariant = { λ g. ArePlaced g.objects.items g.seats.items × HaveRows g.hearers g.seats.items };
}

impl Grid {
    /// No object, no script and no notecard. Takes no memory.
    pub fn new(alloc: Global) -> Grid
        ensures stands { (codes : _) (clock : _) → Stands codes None clock result (empty_world clock) }
        ensures none { (result.objects ≡ []) × (result.seats ≡ []) × (result.cards ≡ []) }
    {
        Grid {
            alloc,
            objects: Vec::new(alloc),
            seats: Vec::new(alloc),
            hearers: ChannelTable::new(alloc),
            cards: Cards::new(alloc),
        }
    }

    /// Sets the notecards, in place of others. Their prims are numbered from 1 on through all objects. Takes no memory.
    pub fn hold(&mut self, cards: Cards)
        ensures cards { self.new.cards ≡ cards }
        ensures objects { self.new.objects ≡ self.old.objects }
        ensures seats { self.new.seats ≡ self.old.seats }
    {
        self.cards = cards;
    }

    /// The region of the object of this number. Takes no memory.
    pub fn region(&self, object: u32) -> &Text
        requires first { 0 < object }
        requires last { object ≤ length self.now.objects }
        ensures { result.now ≡ (get_or self.now.objects (object - 1) no_object).region }
    {
        self.region_at(object as usize - 1)
    }

    /// The region of the object at this place.
    pub(crate) fn region_at(&self, place: usize) -> &Text
        requires { place < length self.now.objects }
        ensures { result.now ≡ (get_or self.now.objects place no_object).region }
    {
        &self.objects[place].region
    }

    /// The object of the script at this place.
    pub(crate) fn object_of(&self, place: usize) -> &Linkset
        requires { place < length self.now.seats }
        ensures value { (seat : Place) → slice_get self.now.seats place ≡ Some seat →
            result.now ≡ object_in self.now.objects seat }
        ensures within { (seat : Place) → slice_get self.now.seats place ≡ Some seat →
            seat.prim < length result.now.prims }
        ensures few { length result.now.prims ≤ 255 }
    {
        &self.objects[self.seats[place].object]
    }

    /// The prim of the script at this place.
    pub(crate) fn prim_of(&self, place: usize) -> &Primitive
        requires { place < length self.now.seats }
        ensures { (seat : Place) → slice_get self.now.seats place ≡ Some seat →
            result.now ≡ prim_in self.now.objects seat }
    {
        self.object_of(place).prims.prim(self.seats[place].prim)
    }

    /// Appends an object to at most 63 others. It has a root, and each of its prims a key. When memory runs out all is
    /// unchanged.
    pub fn add(&mut self, object: Linkset) -> Result<(), NoMemory>
        requires room { length self.old.objects < 64 }
        requires formed { IsFormed object }
        ensures added { OnOk result (self.new.objects ≡ self.old.objects ++ object ∷ []) }
        ensures seats { self.new.seats ≡ self.old.seats }
        ensures cards { self.new.cards ≡ self.old.cards }
        ensures unchanged { OnErr result (self.new ≡ self.old) }
    {
        self.objects.push(object)?;
        Ok(())
    }

    /// Appends a script to at most 255 others, in a prim that exists. When memory runs out all is unchanged.
    pub fn seat(&mut self, seat: Seat) -> Result<(), NoMemory>
        requires room { length self.old.seats < 256 }
        requires placed { IsPlaced self.old.objects seat }
        ensures added { OnOk result (self.new.seats ≡ self.old.seats ++ seat ∷ []) }
        ensures objects { self.new.objects ≡ self.old.objects }
        ensures cards { self.new.cards ≡ self.old.cards }
        ensures unchanged { OnErr result (self.new ≡ self.old) }
    {
        let place = self.seats.len();
        let channels = script_channels(&seat.script);
        self.hearers.push()?;
        self.hearers.tell(place, channels);
        self.seats.push(seat)?;
        Ok(())
    }

    /// How many objects there are. Takes no memory.
    pub fn objects(&self) -> usize
        ensures value { result ≡ length self.now.objects }
        ensures within { result ≤ 64 }
    {
        self.objects.len()
    }

    /// How many scripts there are. Takes no memory.
    pub fn scripts(&self) -> usize
        ensures value { result ≡ length self.now.seats }
        ensures within { result ≤ 256 }
    {
        self.seats.len()
    }
}
