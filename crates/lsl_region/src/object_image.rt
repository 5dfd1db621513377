//! The parts of objects, of which images are written, and a grid whose objects get such parts.

ghost use Rattle.std.specs.Prelude.{◌≡◌, ◌<◌, ◌≤◌, ◌-◌, ◌++◌, List, is_some, length, map, option_to_list, IfOk, OnOk, None, slice_set};
ghost use Rattle.std.specs.List.{filter_map, AllByRecursion};
ghost use Rattle.lsl_code.specs.declared.woven_units.Woven.{Woven as Code};
ghost use Rattle.lsl_image.specs.Valid.{IsObject, shape_of, unit_number, IsPlaced, placed_shape};
ghost use Rattle.lsl_region.specs.Grids.{AreSeated, Stands};
ghost use Rattle.lsl_region.specs.ObjectParts.{name_of, parts_among, parts_in_seat, parts_of_object, with_unit};
ghost use Rattle.lsl_region.specs.Crossings.{CanArrive};
ghost use Rattle.lsl_region.specs.GridParts.{AreHome, AreScripts, fixed_in, fixed_of, placed_at, placed_in};
ghost use Rattle.lsl_region.specs.Journeys.{contents_of};
ghost use Rattle.lsl_region.specs.Worlds.{World};

use crate::grid::{Grid, Seat};
use crate::objects::{Linkset, Prims};
use lsl_code::{Library, Sequence};
use lsl_data::Store;
use lsl_image::{ObjectParts, Placed, Shape, Shapes};
use lsl_post::ScriptParts;
use lsl_script::Script;
use lsl_text::NoMemory;
use lsl_value::Text;
use std::alloc::Global;

impl Grid {
    /// The parts of the object of this number, which can be written as an image. Walks the scripts.
    pub fn parts(&self, object: u32) -> Result<ObjectParts, NoMemory>
        requires first { 0 < object }
        requires last { object ≤ length self.now.objects }
        ensures parts { IfOk result (λ parts. parts ≡ parts_of_object self.now (object - 1)) }
        ensures written { (codes : List Code) → AreSeated codes self.now.seats →
            IsObject codes (parts_of_object self.now (object - 1)) }
    {
        let place = object as usize - 1;
        parts_among(self.alloc, &self.objects[place], &self.seats, place)
    }

    /// The shape of the object of this number. Walks the scripts.
    pub fn shape(&self, object: u32) -> Result<Shape, NoMemory>
        requires first { 0 < object }
        requires last { object ≤ length self.now.objects }
        ensures { IfOk result (λ shape. shape ≡ shape_of (parts_of_object self.now (object - 1))) }
    {
        let place = object as usize - 1;
        let prims = &self.objects[place].prims;
        let key = prims.prim(0).key.copy()?;
        let units = units_of(self.alloc, &self.seats, place)?;
        Ok(Shape {
            key,
            prims: prims.len() as u32,
            units,
        })
    }

    /// The parts of all objects, each with its region, which can be written as an image. Walks the scripts once for
    /// each object.
    pub fn all_parts(&self) -> Result<Sequence<Placed>, NoMemory>
        ensures parts { IfOk result (λ objects. objects ≡ placed_in self.now) }
        ensures written { IfOk result (λ objects. (codes : List Code) → AreSeated codes self.now.seats →
            AllByRecursion (IsPlaced codes) objects) }
        ensures few { IfOk result (λ objects. length objects ≤ 64) }
    {
        let mut objects = Sequence::new(self.alloc);
        for place in 0..self.objects.len() {
            objects.push(self.placed(place as u32 + 1)?)?;
        }
        Ok(objects)
    }

    // The parts of the object of this number, and its region.
    fn placed(&self, object: u32) -> Result<Placed, NoMemory>
        requires first { 0 < object }
        requires last { object ≤ length self.now.objects }
        ensures { IfOk result (λ placed. placed ≡ placed_at self.now (object - 1)) }
    {
        let region = self.region(object).copy()?;
        let object = self.parts(object)?;
        Ok(Placed { region, object })
    }

    /// The shapes of all objects. Walks the scripts once for each object.
    pub fn shapes(&self) -> Result<Shapes, NoMemory>
        ensures { IfOk result (λ shapes. shapes ≡ map placed_shape (placed_in self.now)) }
    {
        let mut shapes = Sequence::new(self.alloc);
        for place in 0..self.objects.len() {
            shapes.push(self.shape(place as u32 + 1)?)?;
        }
        Ok(shapes)
    }

    /// Gives the objects these parts and regions, in order, which have their shapes. Each script must be in its seat.
    /// Takes memory for the stores. Walks the scripts once for each object.
    pub fn thaw(&mut self, objects: Sequence<Placed>, library: &Library) -> Result<(), NoMemory>
        requires seated { AreSeated library.now self.old.seats }
        requires home { AreHome self.old.seats }
        requires valid { AllByRecursion (IsPlaced library.now) objects }
        requires shapes { map placed_shape objects ≡ map placed_shape (placed_in self.old) }
        ensures parts { OnOk result (placed_in self.new ≡ objects) }
        ensures fixed { OnOk result (fixed_of self.new ≡ fixed_of self.old) }
        ensures seated { OnOk result (AreSeated library.now self.new.seats) }
        ensures stands { (w : World) → AreScripts library.now w → fixed_in w ≡ fixed_of self.old →
            placed_in (contents_of library.now w) ≡ objects → OnOk result (Stands library.now None w.clock self.new w) }
    {
        let count = self.objects.len();
        prove_eq!(objects.len(), count);
        let mut objects = objects.into_vec();
        while let Some(placed) = objects.pop() {
            let Placed { region, object } = placed;
            self.thaw_object(objects.len(), region, object, library)?;
        }
        Ok(())
    }

    // Gives the object at this place these parts and this region.
    fn thaw_object(
        &mut self,
        place: usize,
        region: Text,
        parts: ObjectParts,
        library: &Library,
    ) -> Result<(), NoMemory>
        requires place { place < length self.old.objects }
        requires seated { AreSeated library.now self.old.seats }
        requires home { AreHome self.old.seats }
        requires parts { CanArrive library.now self.old place parts }
        ensures parts { OnOk result (placed_in self.new
            ≡ slice_set (placed_in self.old) place (record { region = region; object = parts })) }
        ensures fixed { OnOk result (fixed_of self.new ≡ fixed_of self.old) }
        ensures seated { OnOk result (AreSeated library.now self.new.seats) }
        ensures home { OnOk result (AreHome self.new.seats) }
    {
        let ObjectParts {
            key: _,
            names,
            scripts,
            store,
        } = parts;
        let store = Store::from_pairs(self.alloc, store)?;
        self.furnish(place, names, store, region);
        self.reseat(place, scripts, library);
        Ok(())
    }
}

/// Whether the script of a seat is there, and is one of the object at this place.
pub(crate) fn is_of(seat: &Seat, place: usize) -> bool
    ensures { result ≡ is_some (parts_in_seat place seat.now) }
{
    seat.object == place && seat.script.is_some()
}

// The parts of an object, whose place is this one, with its scripts among these seats.
fn parts_among(
    alloc: Global,
    object: &Linkset,
    seats: &[Seat],
    place: usize,
) -> Result<ObjectParts, NoMemory>
    requires { 0 < length object.now.prims }
    ensures { IfOk result (λ parts. parts ≡ parts_among object.now seats.now place) }
{
    let key = object.prims.prim(0).key.copy()?;
    let names = names_of(alloc, &object.prims)?;
    let store = object.store.pairs()?;
    let scripts = scripts_of(alloc, seats, place)?;
    Ok(ObjectParts {
        key,
        names,
        scripts,
        store,
    })
}

// The names of prims, in order.
fn names_of(alloc: Global, prims: &Prims) -> Result<Sequence<Text>, NoMemory>
    ensures { IfOk result (λ names. names ≡ map name_of prims.now) }
{
    let mut names = Sequence::new(alloc);
    for prim in prims.as_slice() {
        names.push(prim.name.copy()?)?;
    }
    Ok(names)
}

// The parts of a script of the unit of this number.
fn parts_with(alloc: Global, script: &Script, unit: u32) -> Result<ScriptParts, NoMemory>
    ensures { IfOk result (λ parts. parts ≡ with_unit unit script.now) }
{
    let mut parts = script.parts().copy(alloc)?;
    parts.unit = unit;
    Ok(parts)
}

// The parts of the script in a seat, where it is one of the object at this place.
fn seat_parts(alloc: Global, seat: &Seat, place: usize) -> Result<Option<ScriptParts>, NoMemory>
    ensures { IfOk result (λ parts. parts ≡ parts_in_seat place seat.now) }
{
    if seat.object != place {
        return Ok(None);
    }
    match &seat.script {
        Some(script) => Ok(Some(parts_with(alloc, script, seat.unit)?)),
        None => Ok(None),
    }
}

fn push_some(
    scripts: &mut Sequence<ScriptParts>,
    parts: Option<ScriptParts>,
) -> Result<(), NoMemory>
    ensures { OnOk result (scripts.new ≡ scripts.old ++ option_to_list parts) }
{
    match parts {
        Some(parts) => scripts.push(parts),
        None => Ok(()),
    }
}

// The scripts of the object at this place, in the order of their seats.
fn scripts_of(
    alloc: Global,
    seats: &[Seat],
    place: usize,
) -> Result<Sequence<ScriptParts>, NoMemory>
    ensures { IfOk result (λ scripts. scripts ≡ filter_map (parts_in_seat place) seats.now) }
{
    let mut scripts = Sequence::new(alloc);
    for seat in seats {
        let parts = seat_parts(alloc, seat, place)?;
        push_some(&mut scripts, parts)?;
    }
    Ok(scripts)
}

// The numbers of their units.
fn units_of(alloc: Global, seats: &[Seat], place: usize) -> Result<Sequence<u32>, NoMemory>
    ensures { IfOk result (λ units. units ≡ map unit_number (filter_map (parts_in_seat place) seats.now)) }
{
    let mut units = Sequence::new(alloc);
    for seat in seats {
        if is_of(seat, place) {
            units.push(seat.unit)?;
        }
    }
    Ok(units)
}
