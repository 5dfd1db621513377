//! Timers, and which scripts can run.

ghost use Rattle.std.specs.Prelude.{◌≡◌, ◌<◌, ◌≤◌, ◌-◌, ◌+◌, ℕ, ℤ, List, Option, Some, None, IsTrue, false, length, slice_get, OnOk};
ghost use Rattle.lsl_code.specs.declared.woven_units.Woven.{Woven as Code};
ghost use Rattle.lsl_post.specs.Journal.{Tells};
ghost use Rattle.lsl_post.specs.Timer.{timing_of};
ghost use Rattle.lsl_post.specs.Timing.{latest_clock};
ghost use Rattle.lsl_script.specs.Codes.{HasUnit, Meant, rules_of};
ghost use Rattle.lsl_script.specs.Fitting.{FitsUnit, are_ready};
ghost use Rattle.lsl_script.specs.Lawful.{Lawful};
ghost use Rattle.lsl_script.specs.Parts.{parts_of};
ghost use Rattle.lsl_script.specs.Scripts.{Script as Source, ring_to};
ghost use Rattle.lsl_post.specs.declared.parts.ScriptParts.{ScriptParts as Parts};
ghost use Rattle.lsl_region.specs.declared.grid.Seat.{Seat as Place};
ghost use Rattle.lsl_region.specs.Grids.{AreSeated, FitsSeat, Stands, is_out, outline_of};
ghost use Rattle.lsl_region.specs.Hearing.{HasRow};
ghost use Rattle.lsl_region.specs.Posting.{ring_at};
ghost use Rattle.lsl_region.specs.Scenes.{KeepsSeated};
ghost use Rattle.lsl_region.specs.Segments.{is_ready_at};
ghost use Rattle.lsl_region.specs.Timers.{next_due};
ghost use Rattle.lsl_region.specs.Turning.{IsReady};
ghost use Rattle.lsl_region.specs.Worlds.{Member, World};

use crate::events::timer_event;
use crate::grid::Grid;
use crate::posting::{number, post_script};
use lsl_code::{Library, Woven};
use lsl_post::{Entries, Timer};
use lsl_script::Script;
use lsl_text::NoMemory;
use std::alloc::Global;

// Reads the timer of the script of this number, which has this unit.
fn ring_script(
    alloc: Global,
    script: &mut Script,
    number: u32,
    clock: u64,
    unit: &Woven,
    out: &mut Entries,
) -> Result<(), NoMemory>
    requires fits { FitsUnit unit.now script.old }
    requires clock { clock ≤ latest_clock }
    ensures told { (codes : List Code) (s : Source) → HasUnit codes s.code unit.now → script.old ≡ parts_of codes s →
        Lawful (rules_of codes) s →
        Tells result (λ t _. script.new ≡ parts_of codes t) out.old out.new (ring_to (rules_of codes) number clock s) }
    ensures fits { OnOk result (FitsUnit unit.now script.new) }
    ensures listens { script.new.listens ≡ script.old.listens }
{
    if !script.timer().read(clock) {
        return Ok(());
    }
    post_script(alloc, script, number, &timer_event(alloc), unit, out)
}

// Reads the timer of the script on this seat, which has this unit, unless the script is out.
fn ring_seat(
    alloc: Global,
    seat: &mut Option<Script>,
    number: u32,
    clock: u64,
    unit: &Woven,
    out: &mut Entries,
) -> Result<(), NoMemory>
    requires fits { FitsSeat unit.now seat.old }
    requires clock { clock ≤ latest_clock }
    ensures told { (codes : List Code) (s : Source) → HasUnit codes s.code unit.now →
        seat.old ≡ Some (parts_of codes s) → Lawful (rules_of codes) s →
        Tells result (λ t _. seat.new ≡ Some (parts_of codes t)) out.old out.new
        (ring_to (rules_of codes) number clock s) }
    ensures fits { OnOk result (FitsSeat unit.now seat.new) }
    ensures row { (row : List ℤ) → HasRow row seat.old → HasRow row seat.new }
{
    match seat {
        Some(script) => ring_script(alloc, script, number, clock, unit, out),
        None => Ok(()),
    }
}

impl Grid {
    // Reads the timer of the script at this place.
    fn ring_at(
        &mut self,
        place: usize,
        clock: u64,
        library: &Library,
        out: &mut Entries,
    ) -> Result<(), NoMemory>
        requires place { place < length self.old.seats }
        requires clock { clock ≤ latest_clock }
        requires seated { AreSeated library.now self.old.seats }
        ensures does { (m : Meant library.now) (w : World) → Stands library.now None clock self.old w →
            Tells result (λ v _. Stands library.now None clock self.new v) out.old out.new (ring_at m.rules place w) }
        ensures grid { KeepsSeated library.now result self.old self.new }
    {
        let seat = &mut self.seats[place];
        let unit = library.unit(seat.unit);
        ring_seat(
            self.alloc,
            &mut seat.script,
            number(place),
            clock,
            unit,
            out,
        )
    }

    /// Reads the timer of the script of this number at this reading of the clock: where it is due its event is posted,
    /// and it is next due one period after the reading. When memory runs out the grid must be discarded.
    pub fn read_timer(
        &mut self,
        script: u32,
        clock: u64,
        library: &Library,
        out: &mut Entries,
    ) -> Result<(), NoMemory>
        requires first { 0 < script }
        requires last { script ≤ length self.old.seats }
        requires clock { clock ≤ latest_clock }
        requires seated { AreSeated library.now self.old.seats }
        ensures does { (m : Meant library.now) (w : World) → Stands library.now None clock self.old w →
            Tells result (λ v _. Stands library.now None clock self.new v) out.old out.new
            (ring_at m.rules (script - 1) w) }
        ensures seated { OnOk result (AreSeated library.now self.new.seats) }
        ensures outline { outline_of self.new ≡ outline_of self.old }
    {
        self.ring_at(script as usize - 1, clock, library, out)
    }

    /// Whether the script of this number can run at this reading of the clock. Takes no memory.
    pub fn ready(&self, script: u32, clock: u64) -> bool
        requires first { 0 < script }
        requires last { script ≤ length self.now.seats }
        ensures source { (codes : List Code) (w : World) → Stands codes None clock self.now w →
            result ≡ is_ready_at w (script - 1) }
        ensures fields { (seat : Place) (parts : Parts) → slice_get self.now.seats (script - 1) ≡ Some seat →
            seat.script ≡ Some parts → result ≡ are_ready clock parts }
    {
        self.is_ready_at(script as usize - 1, clock)
    }

    /// Whether the script at this place isn't out, and can run.
    pub(crate) fn is_ready_at(&self, place: usize, clock: u64) -> bool
        requires { place < length self.now.seats }
        ensures ready { (seat : Place) (parts : Parts) → slice_get self.now.seats place ≡ Some seat →
            seat.script ≡ Some parts → result ≡ are_ready clock parts }
        ensures home { IsTrue result → (seat : Place) → slice_get self.now.seats place ≡ Some seat →
            IsReady clock seat.script }
    {
        match &self.seats[place].script {
            Some(script) => script.ready(clock),
            None => false,
        }
    }

    /// When the timer of the script of this number is next due, in milliseconds of the clock; none where it doesn't
    /// run. Takes no memory.
    pub fn due(&self, script: u32) -> Option<u64>
        requires first { 0 < script }
        requires last { script ≤ length self.now.seats }
        ensures source { (codes : List Code) (clock : ℕ) (w : World) (m : Member) → Stands codes None clock self.now w →
            slice_get w.members (script - 1) ≡ Some m → result ≡ next_due m.script.mailbox.timing }
        ensures fields { (seat : Place) (parts : Parts) → slice_get self.now.seats (script - 1) ≡ Some seat →
            seat.script ≡ Some parts → result ≡ next_due (timing_of parts.timer) }
    {
        self.due_at(script as usize - 1)
    }

    // When the timer of the script at this place is next due; none where it doesn't run, or the script is out.
    fn due_at(&self, place: usize) -> Option<u64>
        requires { place < length self.now.seats }
        ensures { (seat : Place) (parts : Parts) → slice_get self.now.seats place ≡ Some seat →
            seat.script ≡ Some parts → result ≡ next_due (timing_of parts.timer) }
    {
        match &self.seats[place].script {
            Some(script) => next_due(&script.parts().timer),
            None => None,
        }
    }
}

// When the timer is next due, where it runs.
fn next_due(timer: &Timer) -> Option<u64>
    ensures { result ≡ next_due (timing_of timer.now) }
{
    if timer.period > 0 {
        Some(timer.due)
    } else {
        None
    }
}
