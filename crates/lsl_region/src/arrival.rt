//! An object arrives with the parts of an image: they go into its prims and its seats, and then its scripts get an
//! event. What takes memory is prepared before.

ghost use Rattle.std.specs.Prelude.{◌≡◌, ◌<◌, ◌≤◌, ◌+◌, ◌∷◌, ◌++◌, [], ℤ, List, Some, false, true, is_some, length, map, option_map, option_to_list, reverse, slice_get, slice_set, take, All, IfOk, OnErr, OnOk};
ghost use Rattle.std.specs.List.{AllByRecursion, filter_map};
ghost use Rattle.lsl_post.specs.Mailbox.{with_posted};
ghost use Rattle.lsl_image.specs.Valid.{HasUnit as IsOfUnit, IsStore, unit_number};
ghost use Rattle.lsl_script.specs.Fitting.{is_exit};
ghost use Rattle.lsl_script.specs.Scripts.{entries_of_posting};
ghost use Rattle.lsl_region.specs.Crossings.{CanArrive, IsPosted, KeepsCounts, KeepsOthers, arrived_at, post_in, posted_in, region_changed, states_in, told_all_at, told_at};
ghost use Rattle.lsl_region.specs.Grids.{AreSeated, FitsSeat, IsSeated};
ghost use Rattle.lsl_region.specs.Hearing.{HasRow};
ghost use Rattle.lsl_region.specs.ObjectParts.{behind_first, named, object_in_grid, parts_in_seat, reseated, with_first};
ghost use Rattle.lsl_region.specs.declared.grid.Seat.{Seat as Place};

use crate::events::changed_event;
use crate::grid::Grid;
use crate::object_image::is_of;
use crate::objects::Prims;
use crate::posting::number;
use lsl_code::{Library, Sequence, Woven};
use lsl_data::Store;
use lsl_image::ObjectParts;
use lsl_post::{Entries, Entry, Event, Posted, ScriptParts};
use lsl_script::Script;
use lsl_text::NoMemory;
use lsl_value::Text;
use std::alloc::Global;

/// The flag of a change of region.
const CHANGED_REGION: i32 = 256;

/// What an arrival needs: the region's name, an event for each script, and the number of entries after which there is
/// room for as many.
#[derive(Drop)]
pub(crate) struct Arrival {
    pub(crate) region: Text,
    pub(crate) events: Vec<Event>,
    pub(crate) before: usize,
}

/// Where an object arrives: at this place among the objects, with the library of its scripts' units.
#[derive(Drop)]
pub(crate) struct Site<'a> {
    pub(crate) place: usize,
    pub(crate) library: &'a Library,
}

/// Prepares the arrival of `count` scripts in this region. As many placeholder entries are appended; when memory runs
/// out, fewer of them.
pub(crate) fn prepare(
    alloc: Global,
    count: usize,
    region: &Text,
    out: &mut Entries,
) -> Result<Arrival, NoMemory>
    ensures region { IfOk result (λ arrival. arrival.region ≡ region.now) }
    ensures events { IfOk result (λ arrival. All (λ e. e ≡ region_changed) arrival.events.items) }
    ensures count { IfOk result (λ arrival. length arrival.events.items ≡ count) }
    ensures before { IfOk result (λ arrival. arrival.before ≡ length out.old) }
    ensures room { OnOk result (length out.new ≡ length out.old + count) }
    ensures kept { take (length out.old) out.new ≡ out.old }
{
    let before = out.len();
    make_room(count, out)?;
    let region = region.copy()?;
    let events = region_events(alloc, count)?;
    Ok(Arrival {
        region,
        events,
        before,
    })
}

// Appends `count` placeholder entries, so that posting takes no memory later.
fn make_room(count: usize, out: &mut Entries) -> Result<(), NoMemory>
    ensures room { OnOk result (length out.new ≡ length out.old + count) }
    ensures kept { take (length out.old) out.new ≡ out.old }
{
    for _ in 0..count {
        out.push(Entry::Clear(0, 0))?;
    }
    Ok(())
}

// `count` events of a region that is another one.
fn region_events(alloc: Global, count: usize) -> Result<Vec<Event>, NoMemory>
    ensures events { IfOk result (λ events. All (λ e. e ≡ region_changed) events.items) }
    ensures count { IfOk result (λ events. length events.items ≡ count) }
{
    let mut events = Vec::new(alloc);
    for _ in 0..count {
        events.push(changed_event(alloc, CHANGED_REGION)?)?;
    }
    Ok(events)
}

// Names prims, in order.
fn rename_all(prims: &mut Prims, names: Sequence<Text>)
    requires { length names ≤ length prims.old }
    ensures { prims.new ≡ named prims.old names }
{
    let mut names = names.into_vec();
    while let Some(name) = names.pop() {
        prims.rename(names.len(), name);
    }
}

// Writes the entry of an event that was dropped to this place. Returns the place after it, or the same one.
fn keep_drop(number: u32, posted: Posted, out: &mut Entries, at: usize) -> usize
    requires { at < length out.old }
    ensures entries { take result out.new ≡ take at out.old ++ entries_of_posting number posted }
    ensures at { result ≡ at + length (entries_of_posting number posted) }
    ensures len { length out.new ≡ length out.old }
{
    let end = out.len();
    prove!(at < end);
    match posted {
        Posted::Dropped(event) => {
            out.replace(at, Entry::Drop(number, event));
            at + 1
        }
        Posted::Queued | Posted::Unheard => at,
    }
}

impl Grid {
    /// Puts the object at this place into the region of this arrival, with these parts, and posts the event to its
    /// scripts.
    ///
    /// Takes memory for the store alone; when memory runs out all is unchanged. Walks the scripts.
    pub(crate) fn arrive(
        &mut self,
        site: &Site,
        parts: ObjectParts,
        arrival: Arrival,
        out: &mut Entries,
    ) -> Result<(), NoMemory>
        requires place { site.now.place < length self.old.objects }
        requires seated { AreSeated site.now.library.now self.old.seats }
        requires parts { CanArrive site.now.library.now self.old site.now.place parts }
        requires events { All (λ e. e ≡ region_changed) arrival.events.items }
        requires count { length arrival.events.items ≡
            length (filter_map (parts_in_seat site.now.place) self.old.seats) }
        requires room { arrival.before + length arrival.events.items ≤ length out.old }
        ensures grid { OnOk result (self.new ≡ (arrived_at site.now self.old arrival.region parts).value) }
        ensures entries { OnOk result (out.new ≡
            take arrival.before out.old ++ (arrived_at site.now self.old arrival.region parts).entries) }
        ensures unchanged { OnErr result ((self.new ≡ self.old) × (out.new ≡ out.old)) }
        ensures kept { KeepsCounts site.now.library.now result self.old self.new }
    {
        let ObjectParts {
            key: _,
            names,
            scripts,
            store,
        } = parts;
        let Arrival {
            region,
            events,
            before,
        } = arrival;
        let store = Store::from_pairs(self.alloc, store)?;
        self.furnish(site.place, names, store, region);
        self.reseat(site.place, scripts, site.library);
        self.tell_all(site, events, out, before);
        Ok(())
    }

    /// Gives the object at this place these names of prims, this store and this region.
    pub(crate) fn furnish(
        &mut self,
        place: usize,
        names: Sequence<Text>,
        store: Store,
        region: Text,
    )
        requires place { place < length self.old.objects }
        requires names { length names ≤ length (object_in_grid self.old place).prims }
        requires store { IsStore store }
        ensures objects { self.new.objects ≡ slice_set self.old.objects place (record (object_in_grid self.old place) {
          region = region;
          prims = named (object_in_grid self.old place).prims names;
          store = store;
        }) }
        ensures seats { self.new.seats ≡ self.old.seats }
        ensures cards { self.new.cards ≡ self.old.cards }
        ensures prims { map (λ o. length o.prims) self.new.objects ≡ map (λ o. length o.prims) self.old.objects }
    {
        let object = &mut self.objects[place];
        rename_all(&mut object.prims, names);
        object.store = store;
        object.region = region;
    }

    /// Puts these scripts into the seats of the object at this place, in order.
    pub(crate) fn reseat(&mut self, place: usize, scripts: Sequence<ScriptParts>, library: &Library)
        requires seated { AreSeated library.now self.old.seats }
        requires valid { AllByRecursion (IsOfUnit library.now) scripts }
        requires units { map unit_number scripts ≡ map unit_number (filter_map (parts_in_seat place) self.old.seats) }
        ensures seats { self.new.seats ≡ reseated place scripts self.old.seats }
        ensures kept { KeepsOthers library.now self.old self.new }
        ensures len { length self.new.seats ≡ length self.old.seats }
        ensures count { length (filter_map (parts_in_seat place) self.new.seats) ≡
            length (filter_map (parts_in_seat place) self.old.seats) }
    {
        let mut scripts = scripts.into_vec();
        scripts.reverse();
        for seat in 0..self.seats.len() {
            self.reseat_next(seat, place, &mut scripts, library);
        }
    }

    // Puts the last of these scripts into this seat, if it is a seat of the object at this place that has a script.
    fn reseat_next(
        &mut self,
        seat: usize,
        place: usize,
        scripts: &mut Vec<ScriptParts>,
        library: &Library,
    )
        requires seat { seat < length self.old.seats }
        requires seated { AreSeated library.now self.old.seats }
        requires fits { (at : Place) (others : _) (parts : _) → slice_get self.old.seats seat ≡ Some at →
            is_some (parts_in_seat place at) ≡ true → scripts.old.items ≡ others ++ parts ∷ [] →
            IsSeated library.now (record at { script = Some parts }) }
        ensures seats { (at : Place) → slice_get self.old.seats seat ≡ Some at → self.new.seats ≡
            slice_set self.old.seats seat (with_first at (parts_in_seat place at) (reverse scripts.old.items)) }
        ensures scripts { (at : Place) → slice_get self.old.seats seat ≡ Some at →
            reverse scripts.new.items ≡ behind_first (parts_in_seat place at) (reverse scripts.old.items) }
        ensures kept { KeepsOthers library.now self.old self.new }
    {
        if !is_of(&self.seats[seat], place) {
            return;
        }
        if let Some(parts) = scripts.pop() {
            self.seat_script(seat, parts, library);
        }
    }

    // Gives the script in this seat these parts. Takes no memory.
    fn seat_script(&mut self, seat: usize, parts: ScriptParts, library: &Library)
        requires seat { seat < length self.old.seats }
        requires there { (at : Place) → slice_get self.old.seats seat ≡ Some at → is_some at.script ≡ true }
        requires seated { AreSeated library.now self.old.seats }
        requires fits { (at : Place) → slice_get self.old.seats seat ≡ Some at →
            IsSeated library.now (record at { script = Some parts }) }
        ensures seats { (at : Place) → slice_get self.old.seats seat ≡ Some at →
            self.new.seats ≡ slice_set self.old.seats seat (record at { script = Some parts }) }
        ensures kept { KeepsOthers library.now self.old self.new }
    {
        let unit = library.unit(self.seats[seat].unit);
        self.hearers.follow(seat, &parts.listens);
        let Some(script) = &mut self.seats[seat].script else {
            unreachable!();
        };
        script.set_parts(parts, unit);
    }

    // Posts these events to all scripts of the object, one to each. The entries come after the first `before`.
    fn tell_all(&mut self, site: &Site, events: Vec<Event>, out: &mut Entries, before: usize)
        requires seated { AreSeated site.now.library.now self.old.seats }
        requires events { All (λ e. e ≡ region_changed) events.items }
        requires count { length (filter_map (parts_in_seat site.now.place) self.old.seats) ≤ length events.items }
        requires room { before + length (filter_map (parts_in_seat site.now.place) self.old.seats) ≤ length out.old }
        ensures seats { self.new.seats ≡ (told_all_at site.now self.old.seats).value }
        ensures entries { out.new ≡ take before out.old ++ (told_all_at site.now self.old.seats).entries }
        ensures kept { KeepsOthers site.now.library.now self.old self.new }
        ensures len { length self.new.seats ≡ length self.old.seats }
    {
        let mut events = events;
        let mut at = before;
        for seat in 0..self.seats.len() {
            at = self.tell_next(seat, site, &mut events, out, at);
        }
        out.truncate(at);
    }

    // Posts the last of these events to the script in this seat, if it is one of the object.
    fn tell_next(
        &mut self,
        seat: usize,
        site: &Site,
        events: &mut Vec<Event>,
        out: &mut Entries,
        at: usize,
    ) -> usize
        requires seat { seat < length self.old.seats }
        requires seated { AreSeated site.now.library.now self.old.seats }
        requires events { All (λ e. e ≡ region_changed) events.old.items }
        requires there { (s : Place) → slice_get self.old.seats seat ≡ Some s →
            is_some (parts_in_seat site.now.place s) ≡ true →
            (0 < length events.old.items) × (at < length out.old) }
        ensures told { (s : Place) → slice_get self.old.seats seat ≡ Some s →
            IsPosted (told_at site.now seat s) seat self.old self.new at result out.old out.new }
        ensures len { length out.new ≡ length out.old }
        ensures events { All (λ e. e ≡ region_changed) events.new.items }
        ensures left { (s : Place) → slice_get self.old.seats seat ≡ Some s →
            length events.old.items
            ≤ length events.new.items + length (option_to_list (parts_in_seat site.now.place s)) }
        ensures kept { KeepsOthers site.now.library.now self.old self.new }
    {
        if !is_of(&self.seats[seat], site.place) {
            return at;
        }
        let Some(event) = events.pop() else {
            unreachable!();
        };
        self.tell_one(seat, event, site.library, out, at)
    }

    // Posts an event to the script in this seat.
    fn tell_one(
        &mut self,
        seat: usize,
        event: Event,
        library: &Library,
        out: &mut Entries,
        at: usize,
    ) -> usize
        requires seat { seat < length self.old.seats }
        requires seated { AreSeated library.now self.old.seats }
        requires other { is_exit event ≡ false }
        requires at { at < length out.old }
        ensures told { (s : Place) → slice_get self.old.seats seat ≡ Some s →
            IsPosted (post_in (states_in library.now s.unit) event (seat + 1) s s.script) seat self.old self.new
            at result out.old out.new }
        ensures len { length out.new ≡ length out.old }
        ensures kept { KeepsOthers library.now self.old self.new }
    {
        let to = &mut self.seats[seat];
        let unit = library.unit(to.unit);
        let posted = post_in_seat(&mut to.script, event, unit);
        keep_drop(number(seat), posted, out, at)
    }
}

// Posts an event to the script of this unit in a seat, unless it is out.
fn post_in_seat(script: &mut Option<Script>, event: Event, unit: &Woven) -> Posted
    requires fits { FitsSeat unit.now script.old }
    requires other { is_exit event ≡ false }
    ensures script { script.new ≡ option_map (with_posted unit.now.states event) script.old }
    ensures posted { result ≡ posted_in unit.now.states event script.old }
    ensures fits { FitsSeat unit.now script.new }
    ensures row { (row : List ℤ) → HasRow row script.old → HasRow row script.new }
{
    match script {
        Some(script) => script.post(unit, event),
        None => Posted::Unheard,
    }
}
