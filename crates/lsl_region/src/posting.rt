//! Events that are posted to scripts, in the order of their numbers, also while one script is out of the grid and
//! waits for an answer.

ghost use Rattle.std.specs.Prelude.{◌≡◌, ◌<◌, ◌≤◌, ◌+◌, ℕ, ℤ, List, Option, Some, None, true, false, length, slice_get, is_some, OnOk};
ghost use Rattle.lsl_value.specs.declared.names.BuiltinId.{BuiltinId};
ghost use Rattle.lsl_code.specs.declared.woven_units.Woven.{Woven as Code};
ghost use Rattle.lsl_post.specs.Journal.{Adds, Tells};
ghost use Rattle.lsl_post.specs.declared.parts.ScriptParts.{ScriptParts as Parts};
ghost use Rattle.lsl_script.specs.Codes.{HasUnit, Meant, rules_of};
ghost use Rattle.lsl_script.specs.Fitting.{FitsUnit, is_exit};
ghost use Rattle.lsl_script.specs.Parts.{parts_of};
ghost use Rattle.lsl_script.specs.Scripts.{Script as Source, entries_of_posting, post_to, Flight};
ghost use Rattle.lsl_script.specs.Awake.{IsAwake};
ghost use Rattle.lsl_script.specs.Lives.{Waits};
ghost use Rattle.lsl_region.specs.Grids.{AreHome, AreSeated, FitsSeat, Stands, is_out, key_in, outline_of, Lent};
ghost use Rattle.lsl_region.specs.Hearing.{ArePassed, HasRow, listens_on};
ghost use Rattle.lsl_region.specs.Posting.{admits, is_admitted, post_all, post_between, post_where};
ghost use Rattle.lsl_region.specs.Worlds.{Member, World};
ghost use Rattle.lsl_region.specs.declared.grid.Seat.{Seat as Place};
ghost use Rattle.lsl_region.specs.Scenes.{Does, DoesAtHome, IsAwakeIn, KeepsAwake, KeepsSeated, KeepsSet};

use crate::grid::Grid;
use crate::notice::{Audience, Notice};
use crate::scene::Scene;
use lsl_code::{Library, Woven};
use lsl_post::{Entries, Entry, Event, Listens, Posted};
use lsl_script::{Live, Script};
use lsl_text::NoMemory;
use std::alloc::Global;

/// The number of the script at this place.
pub(crate) fn number(place: usize) -> u32
    requires { place < 256 }
    ensures { result ≡ place + 1 }
{
    place as u32 + 1
}

// Writes the entry of an event that is dropped.
fn tell_posted(number: u32, posted: Posted, out: &mut Entries) -> Result<(), NoMemory>
    ensures { Adds result out.old out.new (entries_of_posting number posted) }
{
    match posted {
        Posted::Dropped(event) => out.push(Entry::Drop(number, event)),
        Posted::Queued | Posted::Unheard => Ok(()),
    }
}

// Posts an event to the script of this number, which has this unit.
pub(crate) fn post_script(
    alloc: Global,
    script: &mut Script,
    number: u32,
    event: &Event,
    unit: &Woven,
    out: &mut Entries,
) -> Result<(), NoMemory>
    requires fits { FitsUnit unit.now script.old }
    requires other { is_exit event.now ≡ false }
    ensures told { (codes : List Code) (s : Source) → HasUnit codes s.code unit.now → script.old ≡ parts_of codes s →
        Tells result (λ t _. script.new ≡ parts_of codes t) out.old out.new
        (post_to (rules_of codes) number event.now s) }
    ensures fits { OnOk result (FitsUnit unit.now script.new) }
    ensures listens { script.new.listens ≡ script.old.listens }
{
    let posted = script.post(unit, event.copy(alloc)?);
    tell_posted(number, posted, out)
}

// Posts an event to the script of this number, unless it is out.
fn post_seat(
    alloc: Global,
    seat: &mut Option<Script>,
    number: u32,
    event: &Event,
    unit: &Woven,
    out: &mut Entries,
) -> Result<(), NoMemory>
    requires fits { FitsSeat unit.now seat.old }
    requires other { is_exit event.now ≡ false }
    ensures told { (codes : List Code) (s : Source) → HasUnit codes s.code unit.now →
        seat.old ≡ Some (parts_of codes s) →
        Tells result (λ t _. seat.new ≡ Some (parts_of codes t)) out.old out.new
        (post_to (rules_of codes) number event.now s) }
    ensures fits { OnOk result (FitsSeat unit.now seat.new) }
    ensures row { (row : List ℤ) → HasRow row seat.old → HasRow row seat.new }
{
    match seat {
        Some(script) => post_script(alloc, script, number, event, unit, out),
        None => Ok(()),
    }
}

impl Grid {
    // Whether the script at this place is in the audience, if it has these listens.
    fn admits(&self, place: usize, audience: &Audience, listens: &Listens) -> bool
        requires { place < length self.now.seats }
        ensures { (seat : Place) → slice_get self.now.seats place ≡ Some seat →
            result ≡ is_admitted audience.now seat.object seat.prim (key_in self.now.objects seat) listens.now }
    {
        let seat = &self.seats[place];
        let prim = self.objects[seat.object].prims.prim(seat.prim);
        audience.admits(seat.object, seat.prim, &prim.key, listens)
    }

    // Whether the seat holds a sleeping script that is in the audience.
    fn is_addressed(&self, place: usize, audience: &Audience) -> bool
        requires { place < length self.now.seats }
        ensures { (seat : Place) (script : _) → slice_get self.now.seats place ≡ Some seat → seat.script ≡ Some script →
            result ≡ is_admitted audience.now seat.object seat.prim (key_in self.now.objects seat) script.listens }
    {
        match &self.seats[place].script {
            Some(script) => self.admits(place, audience, &script.parts().listens),
            None => false,
        }
    }

    // Posts an event to the script at this place, where it is in the audience.
    fn post_at(
        &mut self,
        place: usize,
        notice: &Notice,
        library: &Library,
        out: &mut Entries,
    ) -> Result<(), NoMemory>
        requires place { place < length self.old.seats }
        requires seated { AreSeated library.now self.old.seats }
        ensures does { (away : Option ℕ) (clock : ℕ) (w : World) →
            Stands library.now away clock self.old w → is_out away place ≡ false →
            Tells result (λ v _. Stands library.now away clock self.new v) out.old out.new
            (post_where (rules_of library.now) (admits notice.now.audience.now) notice.now.event.now place w) }
        ensures grid { KeepsSeated library.now result self.old self.new }
        ensures objects { self.new.objects ≡ self.old.objects }
    {
        if !self.is_addressed(place, notice.audience) {
            return Ok(());
        }
        let seat = &mut self.seats[place];
        let unit = library.unit(seat.unit);
        post_seat(
            self.alloc,
            &mut seat.script,
            number(place),
            notice.event,
            unit,
            out,
        )
    }

    // The next place from this one on with a script that listens on this channel, or is out; or the end.
    fn next_hearer(&self, channel: i32, from: usize, end: usize) -> usize
        requires order { from ≤ end }
        requires within { end ≤ length self.now.seats }
        ensures onward { from ≤ result }
        ensures within { result ≤ end }
        ensures passed { (place : ℕ) (seat : Place) (parts : Parts) → from ≤ place → place < result →
            slice_get self.now.seats place ≡ Some seat → seat.script ≡ Some parts →
            listens_on channel parts.listens ≡ false }
        ensures found { (seat : Place) (parts : Parts) → result < end → slice_get self.now.seats result ≡ Some seat →
            seat.script ≡ Some parts → listens_on channel parts.listens ≡ true }
    {
        self.hearers.next(channel, from).min(end)
    }

    // The next place from this one on with a script that may be in the audience, or the end. Takes no memory; asks no
    // script.
    fn next_of(&self, audience: &Audience, from: usize, end: usize) -> usize
        requires order { from ≤ end }
        requires within { end ≤ length self.now.seats }
        ensures onward { from ≤ result }
        ensures within { result ≤ end }
        ensures passed { ArePassed audience.now self.now.seats from result }
    {
        match audience {
            Audience::Hearers(said) => self.next_hearer(said.channel, from, end),
            _ => from,
        }
    }

    // Posts an event to the scripts of the audience from one place up to another; none of these is out. Of what is said
    // only the scripts with an active listen on its channel are asked, otherwise all are.
    fn post_between(
        &mut self,
        first: usize,
        end: usize,
        notice: &Notice,
        library: &Library,
        out: &mut Entries,
    ) -> Result<(), NoMemory>
        requires order { first ≤ end }
        requires within { end ≤ length self.old.seats }
        requires seated { AreSeated library.now self.old.seats }
        ensures does { (m : Meant library.now) (away : Option ℕ) (clock : ℕ) (w : World) →
            Stands library.now away clock self.old w → AreHome away first end →
            Tells result (λ v _. Stands library.now away clock self.new v) out.old out.new
            (post_between m.rules (admits notice.now.audience.now) notice.now.event.now first end w) }
        ensures grid { KeepsSeated library.now result self.old self.new }
        ensures objects { self.new.objects ≡ self.old.objects }
    {
        let mut place = self.next_of(notice.audience, first, end);
        while place < end {
            self.post_at(place, notice, library, out)?;
            place = self.next_of(notice.audience, place + 1, end);
        }
        Ok(())
    }

    /// Posts an event to all scripts of the audience. Of what is said only the scripts with an active listen on its
    /// channel are asked, otherwise all are.
    pub(crate) fn post_all(
        &mut self,
        notice: &Notice,
        library: &Library,
        out: &mut Entries,
    ) -> Result<(), NoMemory>
        requires seated { AreSeated library.now self.old.seats }
        ensures does { DoesAtHome library.now result (self.old, out.old) (self.new, out.new)
            (λ r w. post_all r (admits notice.now.audience.now) notice.now.event.now w) }
        ensures grid { KeepsSeated library.now result self.old self.new }
        ensures objects { self.new.objects ≡ self.old.objects }
    {
        let end = self.seats.len();
        self.post_between(0, end, notice, library, out)
    }

    // Whether the script at this place, which is awake, is in the audience.
    fn admits_live(&self, place: usize, live: &mut Live, audience: &Audience) -> bool
        requires { place < length self.now.seats }
        ensures same { live.new ≡ live.old }
        ensures value { (codes : List Code) (unit : Code) (clock : ℕ) (f : Flight) (id : BuiltinId) (w : World) →
            (lent : Lent codes unit clock place self.now live.old id f w) →
            result ≡ admits audience.now w lent.member }
    {
        self.admits(place, audience, live.listens())
    }

    // Posts an event to the script at this place, which is out, where it is in the audience.
    fn post_own(
        &self,
        scene: &Scene,
        live: &mut Live,
        notice: &Notice,
        out: &mut Entries,
    ) -> Result<(), NoMemory>
        requires awake { IsAwakeIn scene.now self.now live.old }
        ensures does { Does scene.now result (self.now, live.old, out.old) (self.now, live.new, out.new)
            (λ r m w. post_where (rules_of scene.now.library.now) (admits notice.now.audience.now) notice.now.event.now
            scene.now.place w) }
        ensures live { KeepsAwake scene.now live.old live.new }
    {
        if !self.admits_live(scene.place, live, notice.audience) {
            return Ok(());
        }
        post_live(self.alloc, scene, live, notice.event, out)
    }

    /// Posts an event to all scripts of the audience, where the one at this place is out and waits for an answer. Of
    /// what is said only this one and the scripts with an active listen on its channel are asked, otherwise all are.
    pub(crate) fn post_all_with(
        &mut self,
        scene: &Scene,
        live: &mut Live,
        notice: &Notice,
        out: &mut Entries,
    ) -> Result<(), NoMemory>
        requires awake { IsAwakeIn scene.now self.old live.old }
        ensures does { Does scene.now result (self.old, live.old, out.old) (self.new, live.new, out.new)
            (λ r m w. post_all r (admits notice.now.audience.now) notice.now.event.now w) }
        ensures grid { KeepsSet scene.now result self.old self.new }
        ensures objects { self.new.objects ≡ self.old.objects }
        ensures live { KeepsAwake scene.now live.old live.new }
    {
        let end = self.seats.len();
        self.post_between(0, scene.place, notice, scene.library, out)?;
        self.post_own(scene, live, notice, out)?;
        self.post_between(scene.place + 1, end, notice, scene.library, out)
    }
}

/// Posts an event to the script of the scene, which is awake.
pub(crate) fn post_live(
    alloc: Global,
    scene: &Scene,
    live: &mut Live,
    event: &Event,
    out: &mut Entries,
) -> Result<(), NoMemory>
    requires number { scene.now.place < 256 }
    requires awake { IsAwake scene.now.unit.now live.old }
    requires other { is_exit event.now ≡ false }
    ensures told { (codes : List Code) (s : Source) (f : Flight) (id : BuiltinId) →
        Waits codes scene.now.unit.now s f id live.old →
        Tells result (λ t _. Waits codes scene.now.unit.now t f id live.new) out.old out.new
        (post_to (rules_of codes) (scene.now.place + 1) event.now s) }
    ensures live { KeepsAwake scene.now live.old live.new }
{
    let posted = live.post(scene.unit, event.copy(alloc)?);
    tell_posted(number(scene.place), posted, out)
}
