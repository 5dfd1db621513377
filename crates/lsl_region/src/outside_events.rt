//! What comes from outside: chat, changes, rezzing, and touches.

ghost use Rattle.std.specs.Prelude.{◌≡◌, ◌<◌, ◌-◌, ℕ, ◌≤◌, ◌&&◌, None, false, IfOk, OnOk, nat_eq, Some, length, get_or, slice_get};
ghost use Rattle.std.specs.List.{list_any};
ghost use Rattle.lsl_value.specs.declared.names.EventId.TheVariants as events;
ghost use Rattle.lsl_code.specs.declared.woven_units.Woven.{Woven as Code};
ghost use Rattle.lsl_post.specs.Filters.{filter};
ghost use Rattle.lsl_post.specs.Journal.{Tells};
ghost use Rattle.lsl_post.specs.declared.parts.ScriptParts.{ScriptParts as Parts};
ghost use Rattle.lsl_script.specs.Codes.{Meant, HasUnit};
ghost use Rattle.lsl_script.specs.Fitting.{is_exit};
ghost use Rattle.lsl_region.specs.declared.notice.Audience.TheVariants as audiences;
ghost use Rattle.lsl_region.specs.Arrivals.{IsObjectEvent, changed_event, post_object, rez_event, say, handles_touch, is_in_prim, touch, touched, touched_prim, toucher_of};
ghost use Rattle.lsl_region.specs.Grids.{AreSeated, Stands, outline_of};
ghost use Rattle.lsl_region.specs.Posting.{said_to_all, admits, post_all};
ghost use Rattle.lsl_region.specs.Scenes.{DoesAtHome, KeepsSeated};
ghost use Rattle.lsl_region.specs.Texts.{cut_speech};
ghost use Rattle.lsl_region.specs.Worlds.{World, no_object};
ghost use Rattle.lsl_region.specs.Touching.{has_touch};
ghost use Rattle.lsl_region.specs.declared.grid.Seat.{Seat as Place};

use crate::events::{changed_event, listen_event, rez_event, touch_end, touch_held, touch_start};
use crate::grid::{Grid, Seat};
use crate::links::{link_of, prim_numbered};
use crate::notice::{Audience, Notice};
use crate::texts::cut_speech;
use lsl_code::{Library, Woven};
use lsl_post::{Entries, Event, Filter, Toucher};
use lsl_script::Script;
use lsl_text::NoMemory;
use lsl_value::{EventId, Text};
use std::alloc::Global;

impl Grid {
    /// Someone of this name and key says a text on this channel: its first 1,024 bytes are heard by every script that
    /// listens to them, except the prim of this key. When memory runs out the entries are a prefix of the call's, and
    /// the grid must be discarded. Asks exactly the scripts with an active listen on the channel, and walks their
    /// listens.
    pub fn say(
        &mut self,
        channel: i32,
        name: &Text,
        key: &Text,
        text: &Text,
        library: &Library,
        out: &mut Entries,
    ) -> Result<(), NoMemory>
        requires seated { AreSeated library.now self.old.seats }
        ensures does { (m : Meant library.now) (clock : ℕ) (w : World) → Stands library.now None clock self.old w →
            Tells result (λ v _. Stands library.now None clock self.new v) out.old out.new
            (say m.rules channel name.now key.now text.now w) }
        ensures seated { OnOk result (AreSeated library.now self.new.seats) }
        ensures outline { outline_of self.new ≡ outline_of self.old }
    {
        let said = said_by(self.alloc, channel, name, key, text)?;
        self.said_to_all(said, library, out)
    }

    /// Posts what is said to its hearers.
    fn said_to_all(
        &mut self,
        said: Filter,
        library: &Library,
        out: &mut Entries,
    ) -> Result<(), NoMemory>
        requires seated { AreSeated library.now self.old.seats }
        ensures does { DoesAtHome library.now result (self.old, out.old) (self.new, out.new)
            (λ r w. said_to_all r said w) }
        ensures grid { KeepsSeated library.now result self.old self.new }
    {
        let event = listen_event(self.alloc, &said)?;
        let hearers = Audience::Hearers(said);
        let notice = Notice {
            audience: &hearers,
            event: &event,
        };
        self.post_all(&notice, library, out)
    }

    /// Posts `changed` with these flags, or `on_rez` with this number, to all scripts of the object of this number.
    /// When memory runs out the entries are a prefix of the call's, and the grid must be discarded. Walks the
    /// scripts.
    pub fn post(
        &mut self,
        object: u32,
        id: EventId,
        n: i32,
        library: &Library,
        out: &mut Entries,
    ) -> Result<(), NoMemory>
        requires first { 0 < object }
        requires event { IsObjectEvent id }
        requires seated { AreSeated library.now self.old.seats }
        ensures changed { id ≡ events.Changed → (m : Meant library.now) (clock : ℕ) (w : World) →
            Stands library.now None clock self.old w →
            Tells result (λ v _. Stands library.now None clock self.new v) out.old out.new
            (post_object m.rules (object - 1) (changed_event n) w) }
        ensures rezzed { id ≡ events.OnRez → (m : Meant library.now) (clock : ℕ) (w : World) →
            Stands library.now None clock self.old w →
            Tells result (λ v _. Stands library.now None clock self.new v) out.old out.new
            (post_object m.rules (object - 1) (rez_event n) w) }
        ensures seated { OnOk result (AreSeated library.now self.new.seats) }
        ensures outline { outline_of self.new ≡ outline_of self.old }
    {
        let event = object_event(self.alloc, id, n)?;
        let audience = Audience::Object(object as usize - 1);
        let notice = Notice {
            audience: &audience,
            event: &event,
        };
        self.post_all(&notice, library, out)
    }

    /// Someone of this key and name touches the prim of this link number of the object of this number.
    ///
    /// The three events of a touch go, one after another, to all scripts of the prim, or of the root if no script of
    /// the prim has a handler for any of them. Nothing happens if no prim has that number. When memory runs out the
    /// entries are a prefix of the call's, and the grid must be discarded. Walks the scripts four times.
    pub fn touch(
        &mut self,
        object: u32,
        link: u32,
        key: &Text,
        name: &Text,
        library: &Library,
        out: &mut Entries,
    ) -> Result<(), NoMemory>
        requires first { 0 < object }
        requires last { object ≤ length self.old.objects }
        requires seated { AreSeated library.now self.old.seats }
        ensures does { (m : Meant library.now) (clock : ℕ) (w : World) → Stands library.now None clock self.old w →
            Tells result (λ v _. Stands library.now None clock self.new v) out.old out.new
            (touch m.rules (object - 1) link key.now name.now w) }
        ensures seated { OnOk result (AreSeated library.now self.new.seats) }
        ensures outline { outline_of self.new ≡ outline_of self.old }
    {
        let object = object as usize - 1;
        let count = self.prims_of(object);
        match prim_numbered(count, link as usize) {
            Some(prim) => {
                let toucher = toucher(count, prim, key, name)?;
                self.touch_prim(object, prim, &toucher, library, out)
            }
            None => Ok(()),
        }
    }

    // How many prims the object at this place has.
    fn prims_of(&self, object: usize) -> usize
        requires { object < length self.now.objects }
        ensures value { result ≡ length (get_or self.now.objects object no_object).prims }
        ensures few { result ≤ 255 }
    {
        self.objects[object].prims.len()
    }

    // Posts the three events of a touch to the scripts of this prim, or of the root where none of them handles a touch.
    fn touch_prim(
        &mut self,
        object: usize,
        prim: usize,
        toucher: &Toucher,
        library: &Library,
        out: &mut Entries,
    ) -> Result<(), NoMemory>
        requires { AreSeated library.now self.old.seats }
        ensures does { DoesAtHome library.now result (self.old, out.old) (self.new, out.new)
            (λ r w. touched r object (touched_prim r w object prim) toucher.now w) }
        ensures grid { KeepsSeated library.now result self.old self.new }
    {
        let prim = self.touched_prim(object, prim, library);
        let audience = Audience::Prim { object, prim };
        self.touch_all(&audience, toucher, library, out)
    }

    // Posts the three events of a touch to these scripts.
    fn touch_all(
        &mut self,
        audience: &Audience,
        toucher: &Toucher,
        library: &Library,
        out: &mut Entries,
    ) -> Result<(), NoMemory>
        requires { AreSeated library.now self.old.seats }
        ensures does { (m : Meant library.now) (clock : ℕ) (object prim : ℕ) (w : World) →
            audience.now ≡ audiences.Prim object prim → Stands library.now None clock self.old w →
            Tells result (λ v _. Stands library.now None clock self.new v) out.old out.new
            (touched m.rules object prim toucher.now w) }
        ensures grid { KeepsSeated library.now result self.old self.new }
    {
        let start = touch_start(self.alloc, toucher)?;
        self.post_one(audience, start, library, out)?;
        let held = touch_held(self.alloc, toucher)?;
        self.post_one(audience, held, library, out)?;
        let end = touch_end(self.alloc, toucher)?;
        self.post_one(audience, end, library, out)
    }

    // Posts an event made for this post alone.
    fn post_one(
        &mut self,
        audience: &Audience,
        event: Event,
        library: &Library,
        out: &mut Entries,
    ) -> Result<(), NoMemory>
        requires seated { AreSeated library.now self.old.seats }
        requires other { is_exit event ≡ false }
        ensures does { DoesAtHome library.now result (self.old, out.old) (self.new, out.new)
            (λ r w. post_all r (admits audience.now) event w) }
        ensures grid { KeepsSeated library.now result self.old self.new }
    {
        let notice = Notice {
            audience,
            event: &event,
        };
        self.post_all(&notice, library, out)
    }

    // The prim whose scripts a touch is for: the root where no script of the touched prim handles a touch.
    fn touched_prim(&self, object: usize, prim: usize, library: &Library) -> usize
        requires { AreSeated library.now self.now.seats }
        ensures { (m : Meant library.now) (clock : ℕ) (w : World) → Stands library.now None clock self.now w →
            result ≡ touched_prim m.rules w object prim }
    {
        if self.handles_touch(object, prim, library) {
            prim
        } else {
            0
        }
    }

    // Whether a script of the prim handles a touch.
    fn handles_touch(&self, object: usize, prim: usize, library: &Library) -> bool
        requires { AreSeated library.now self.now.seats }
        ensures { (m : Meant library.now) (clock : ℕ) (w : World) → Stands library.now None clock self.now w →
            result ≡ list_any (λ n. is_in_prim object prim w n && handles_touch m.rules n) w.members }
    {
        for place in 0..self.seats.len() {
            if self.handles_touch_at(place, object, prim, library) {
                return true;
            }
        }
        false
    }

    // Whether the script at this place, which isn't out, is one of the prim and handles a touch.
    fn handles_touch_at(&self, place: usize, object: usize, prim: usize, library: &Library) -> bool
        requires place { place < length self.now.seats }
        requires seated { AreSeated library.now self.now.seats }
        ensures { (seat : Place) (unit : Code) (parts : Parts) → slice_get self.now.seats place ≡ Some seat →
            HasUnit library.now seat.unit unit → seat.script ≡ Some parts →
            result ≡ ((nat_eq seat.object object && nat_eq seat.prim prim) && has_touch unit.states parts.state) }
    {
        let seat = &self.seats[place];
        if !is_in(seat, object, prim) {
            return false;
        }
        script_handles_touch(&seat.script, library.unit(seat.unit))
    }
}

// What is heard of a text that someone says.
fn said_by(
    alloc: Global,
    channel: i32,
    name: &Text,
    key: &Text,
    text: &Text,
) -> Result<Filter, NoMemory>
    ensures { IfOk result (λ said. said ≡ filter channel name.now key.now (cut_speech text.now)) }
{
    Ok(Filter {
        channel,
        name: name.copy()?,
        id: key.copy()?,
        message: cut_speech(alloc, text)?,
    })
}

// The event that is posted to a whole object.
fn object_event(alloc: Global, id: EventId, n: i32) -> Result<Event, NoMemory>
    requires { IsObjectEvent id }
    ensures changed { id ≡ events.Changed → IfOk result (λ event. event ≡ changed_event n) }
    ensures rezzed { id ≡ events.OnRez → IfOk result (λ event. event ≡ rez_event n) }
    ensures other { IfOk result (λ event. is_exit event ≡ false) }
{
    match id {
        EventId::Changed => changed_event(alloc, n),
        EventId::OnRez => rez_event(alloc, n),
        _ => unreachable!(),
    }
}

// Whether the seat is in the prim at this place of the object at this place.
fn is_in(seat: &Seat, object: usize, prim: usize) -> bool
    ensures { result ≡ (nat_eq seat.now.object object && nat_eq seat.now.prim prim) }
{
    seat.object == object && seat.prim == prim
}

// Who touches the prim at this place, among `count`.
fn toucher(count: usize, prim: usize, key: &Text, name: &Text) -> Result<Toucher, NoMemory>
    requires { prim ≤ 255 }
    ensures { IfOk result (λ toucher. toucher ≡ toucher_of count prim key.now name.now) }
{
    Ok(Toucher {
        key: key.copy()?,
        name: name.copy()?,
        link: link_of(count, prim),
    })
}

// Whether the script, which isn't out, has a handler of a touch in its state.
fn script_handles_touch(script: &Option<Script>, unit: &Woven) -> bool
    ensures { (parts : Parts) → script.now ≡ Some parts → result ≡ has_touch unit.now.states parts.state }
{
    match script {
        Some(script) => has_touch(unit, script.parts().state),
        None => false,
    }
}

// Whether a state has a handler for any of the three events of a touch.
fn has_touch(unit: &Woven, state: u16) -> bool
    ensures { result ≡ has_touch unit.now.states state }
{
    let start = unit.handler(state, EventId::TouchStart).is_some();
    let held = unit.handler(state, EventId::Touch).is_some();
    let end = unit.handler(state, EventId::TouchEnd).is_some();
    start || held || end
}
