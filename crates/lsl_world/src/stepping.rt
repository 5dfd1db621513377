//! A case for each step.

ghost use Rattle.std.specs.Prelude.{◌≡◌, ◌≤◌, ℕ, List, None, Some, length, OnOk};
ghost use Rattle.lsl_handoff.specs.declared.card.Card.{Card};
ghost use Rattle.lsl_handoff.specs.Entries.{AreAllPast, AreCarried};
ghost use Rattle.lsl_handoff.specs.Handovers.{HasCounts};
ghost use Rattle.lsl_ports.specs.Trips.{Trip, Went};
ghost use Rattle.lsl_post.specs.Journal.{Tells};
ghost use Rattle.lsl_post.specs.Timing.{latest_clock};
ghost use Rattle.lsl_tree.specs.Program.{Program};
ghost use Rattle.lsl_lines.specs.declared.file.Step.TheVariants as steps;
ghost use Rattle.lsl_region.specs.Arrivals.{read_clock};
ghost use Rattle.lsl_region.specs.Pausing.{AreGaps, Counts, Tally, with_gaps};
ghost use Rattle.lsl_region.specs.Worlds.{World as SourceWorld};
ghost use Rattle.lsl_world.specs.Handing.{AreCarded, CanHand};
ghost use Rattle.lsl_world.specs.Kept.{regions_of};
ghost use Rattle.lsl_world.specs.Lossy.{IsFairFrom, Stage};
ghost use Rattle.lsl_world.specs.Orders.{AreInOrder, Hands, SendsOfStep};
ghost use Rattle.lsl_world.specs.Programs.{rules_of};
ghost use Rattle.lsl_world.specs.Regions.{LeadsToNamed};
ghost use Rattle.lsl_world.specs.Returns.{ComesBackAs, Returns};
ghost use Rattle.lsl_world.specs.Saves.{counted_step};
ghost use Rattle.lsl_world.specs.Sizes.{HasNumber, IsStepOf};
ghost use Rattle.lsl_world.specs.Sound.{IsCrossing, IsIndexed, IsSound};
ghost use Rattle.lsl_world.specs.Stages.{DoesAt, IsAt};
ghost use Rattle.lsl_world.specs.Stands.{IsOf, size_of};
ghost use Rattle.lsl_world.specs.Steps.{next};
ghost use Rattle.lsl_world.specs.Travels.{Does};

use crate::naming::Regions;
use crate::timers::note_timers;
use crate::world::World;
use lsl_handoff::Field;
use lsl_lines::{Gaps, Step};
use lsl_ports::Link;
use lsl_post::Entries;
use lsl_text::NoMemory;
use lsl_value::{EventId, Text};
use std::mem::replace;

impl World {
    /// Does a step, and adds what happened.
    ///
    /// Where objects are handed over by notes, a crossing carries at most 32 of them. When out of memory, a part of
    /// what happened was added, and the world must be discarded.
    pub fn step<L: Link>(
        &mut self,
        step: &Step,
        link: &mut L,
        out: &mut Entries,
    ) -> Result<(), NoMemory>
        requires sound { IsSound self.old }
        requires step { IsStepOf (size_of self.old) step.now }
        requires carded { AreCarded self.old }
        requires named { CanHand self.old step.now }
        ensures goes { (trips : List Trip) × Went L.gives (L.trips link.old) (L.trips link.new) trips
            × (self.old.cards ≡ None → (programs : List Program) (w : SourceWorld) → IsOf programs self.old w
            → Does self.old.units (rules_of programs) (IsOf programs self.new) step.now w trips out.old out.new result)
            × ((old : List (List Card)) → self.old.cards ≡ Some old
            → (new : List (List Card)) × (self.new.cards ≡ Some new)
            × ((programs : List Program) (w : SourceWorld) (entries : List (List ℕ)) → IsOf programs self.old w
            → AreInOrder self.old.regions old (regions_of w)
            → AreAllPast (length w.objects) (length self.old.regions) old entries
            → AreCarried (length w.objects) (length self.old.regions) entries trips
            → Hands self.old.units (rules_of programs) (IsOf programs self.new) self.old.regions old new step.now
            w entries trips out.old out.new result)) }
        ensures at { (trips : List Trip) × Went L.gives (L.trips link.old) (L.trips link.new) trips
            × ((programs : List Program) (stage : Stage) → IsAt programs self.old stage → IsFairFrom stage trips
            → DoesAt self.old.units (rules_of programs) self.old.regions (λ s. IsAt programs self.new s) step.now stage
            trips out.old out.new result) }
        ensures comes { self.old.cards ≡ None
            → (trips : List Trip) × Went L.gives (L.trips link.old) (L.trips link.new) trips
            × ((programs : List Program) (w : SourceWorld)
            → Returns programs self.old.units self.old.clock self.old.grid step.now trips w
            → Tells result (λ v _. IsOf programs self.new v) out.old out.new (next (rules_of programs) step.now w)) }
        ensures plain { self.old.cards ≡ None → self.new.cards ≡ None }
        ensures carded { OnOk result (AreCarded self.new) }
        ensures regions { self.new.regions ≡ self.old.regions }
        ensures units { self.new.units ≡ self.old.units }
        ensures size { OnOk result (size_of self.new ≡ size_of self.old) }
        ensures sound { OnOk result (IsSound self.new) }
        ensures indexed { IsCrossing step.now → IsIndexed self.old → OnOk result (IsIndexed self.new) }
        ensures saves { (programs : List Program) (w : SourceWorld) (t : Tally) → IsOf programs self.old w
            → Counts self.old.pause t
            → OnOk result (Counts self.new.pause (counted_step (rules_of programs) step.now w t)) }
        ensures counted { L.faults link.old ≤ L.faults link.new }
    {
        let regions = replace(&mut self.regions, Regions::new(self.alloc));
        let mut cards = self.cards.take();
        let outcome = self.step_by(&regions, &mut cards, step, link, out);
        self.regions = regions;
        self.cards = cards;
        outcome
    }

    /// Does a step, with these regions and cards.
    pub(crate) fn step_by<L: Link>(
        &mut self,
        regions: &Regions,
        cards: &mut Option<Field>,
        step: &Step,
        link: &mut L,
        out: &mut Entries,
    ) -> Result<(), NoMemory>
        requires sound { IsSound self.old }
        requires step { IsStepOf (size_of self.old) step.now }
        requires counts { (old : List (List Card)) → cards.old ≡ Some old
            → HasCounts (length self.old.grid.objects) (length regions.now) old }
        requires named { (old : List (List Card)) → cards.old ≡ Some old → LeadsToNamed regions.now step.now }
        ensures goes { (trips : List Trip) × Went L.gives (L.trips link.old) (L.trips link.new) trips
            × (cards.old ≡ None → (programs : List Program) (w : SourceWorld) → IsOf programs self.old w
            → Does self.old.units (rules_of programs) (IsOf programs self.new) step.now w trips out.old out.new result)
            × ((old : List (List Card)) → cards.old ≡ Some old → (new : List (List Card)) × (cards.new ≡ Some new)
            × ((programs : List Program) (w : SourceWorld) (entries : List (List ℕ)) → IsOf programs self.old w
            → AreInOrder regions.now old (regions_of w) → AreAllPast (length w.objects) (length regions.now) old entries
            → AreCarried (length w.objects) (length regions.now) entries trips
            → Hands self.old.units (rules_of programs) (IsOf programs self.new) regions.now old new step.now w entries
            trips out.old out.new result)
            × ((programs : List Program) (w : SourceWorld) → IsOf programs self.old w
            → SendsOfStep self.old.units regions.now self.old.grid step.now trips)) }
        ensures comes { cards.old ≡ None
            → (trips : List Trip) × Went L.gives (L.trips link.old) (L.trips link.new) trips
            × ((programs : List Program) (w : SourceWorld)
            → Returns programs self.old.units self.old.clock self.old.grid step.now trips w
            → Tells result (λ v _. IsOf programs self.new v) out.old out.new (next (rules_of programs) step.now w)) }
        ensures plain { cards.old ≡ None → cards.new ≡ None }
        ensures counts { OnOk result ((new : List (List Card)) → cards.new ≡ Some new
            → HasCounts (length self.new.grid.objects) (length regions.now) new) }
        ensures saves { (programs : List Program) (w : SourceWorld) (t : Tally) → IsOf programs self.old w
            → Counts self.old.pause t
            → OnOk result (Counts self.new.pause (counted_step (rules_of programs) step.now w t)) }
        ensures units { self.new.units ≡ self.old.units }
        ensures size { OnOk result (size_of self.new ≡ size_of self.old) }
        ensures sound { OnOk result (IsSound self.new) }
        ensures indexed { IsCrossing step.now → IsIndexed self.old → OnOk result (IsIndexed self.new) }
        ensures counted { L.faults link.old ≤ L.faults link.new }
    {
        match step {
            Step::Cross(object, region) => match cards {
                Some(field) => self.hand(regions, field, *object, region, link, out),
                None => self.do_step(step, link, out),
            },
            _ => self.do_step(step, link, out),
        }
    }

    /// Does a step.
    pub(crate) fn do_step<L: Link>(
        &mut self,
        step: &Step,
        link: &mut L,
        out: &mut Entries,
    ) -> Result<(), NoMemory>
        requires sound { IsSound self.old }
        requires step { IsStepOf (size_of self.old) step.now }
        ensures goes { (trips : List Trip) × Went L.gives (L.trips link.old) (L.trips link.new) trips
            × ((programs : List Program) (w : SourceWorld) → IsOf programs self.old w
            → Does self.old.units (rules_of programs) (IsOf programs self.new) step.now w trips
            out.old out.new result) }
        ensures comes { (trips : List Trip) × Went L.gives (L.trips link.old) (L.trips link.new) trips
            × ((programs : List Program) (w : SourceWorld)
            → Returns programs self.old.units self.old.clock self.old.grid step.now trips w
            → Tells result (λ v _. IsOf programs self.new v) out.old out.new (next (rules_of programs) step.now w)) }
        ensures units { self.new.units ≡ self.old.units }
        ensures size { OnOk result (size_of self.new ≡ size_of self.old) }
        ensures sound { OnOk result (IsSound self.new) }
        ensures indexed { IsCrossing step.now → IsIndexed self.old → OnOk result (IsIndexed self.new) }
        ensures saves { (programs : List Program) (w : SourceWorld) (t : Tally) → IsOf programs self.old w
            → Counts self.old.pause t
            → OnOk result (Counts self.new.pause (counted_step (rules_of programs) step.now w t)) }
        ensures counted { L.faults link.old ≤ L.faults link.new }
    {
        match step {
            Step::Clock(time) => self.read_clock(*time, out),
            Step::Say(channel, name, key, text) => {
                self.grid.say(*channel, name, key, text, &self.units, out)
            }
            Step::Touch(object, number, key, name) => {
                self.grid
                    .touch(*object, *number, key, name, &self.units, out)
            }
            Step::Changed(object, flags) => {
                self.grid
                    .post(*object, EventId::Changed, *flags, &self.units, out)
            }
            Step::Rez(object, n) => self
                .grid
                .post(*object, EventId::OnRez, *n, &self.units, out),
            Step::Go(script, most) => self.go(*script, *most, out),
            Step::Run(most) => self.run(*most, out),
            Step::Pause(gaps) => self.set_gaps(gaps),
            Step::Cross(object, region) => self.cross(*object, region, link, out),
        }
    }

    // Advances the clock, if the time is later, and reads the timers that are due.
    fn read_clock(&mut self, time: u64, out: &mut Entries) -> Result<(), NoMemory>
        requires sound { IsSound self.old }
        requires time { time ≤ latest_clock }
        ensures tells { (programs : List Program) (w : SourceWorld) → IsOf programs self.old w
            → Tells result (λ v _. IsOf programs self.new v) out.old out.new (read_clock (rules_of programs) time w) }
        ensures units { self.new.units ≡ self.old.units }
        ensures pause { self.new.pause ≡ self.old.pause }
        ensures size { size_of self.new ≡ size_of self.old }
        ensures sound { OnOk result (IsSound self.new) }
    {
        self.clock = self.clock.max(time);
        self.read_timers(out)
    }

    // Runs segments of a script, at most `most`.
    fn go(&mut self, script: u32, most: u32, out: &mut Entries) -> Result<(), NoMemory>
        requires sound { IsSound self.old }
        requires script { HasNumber (length self.old.grid.seats) script }
        ensures tells { (programs : List Program) (w : SourceWorld) → IsOf programs self.old w
            → Tells result (λ v _. IsOf programs self.new v) out.old out.new
            (next (rules_of programs) (steps.Go script most) w) }
        ensures saves { (programs : List Program) (w : SourceWorld) (t : Tally) → IsOf programs self.old w
            → Counts self.old.pause t
            → OnOk result (Counts self.new.pause (counted_step (rules_of programs) (steps.Go script most) w t)) }
        ensures units { self.new.units ≡ self.old.units }
        ensures size { size_of self.new ≡ size_of self.old }
        ensures sound { OnOk result (IsSound self.new) }
    {
        self.turn(script, most, out)?;
        Ok(())
    }

    // Sets the gaps.
    fn set_gaps(&mut self, gaps: &Gaps) -> Result<(), NoMemory>
        requires sound { IsSound self.old }
        requires gaps { AreGaps gaps.now }
        ensures same { (programs : List Program) (w : SourceWorld) → IsOf programs self.old w
            → IsOf programs self.new w }
        ensures saves { (t : Tally) → Counts self.old.pause t
            → OnOk result (Counts self.new.pause (with_gaps gaps.now t)) }
        ensures units { self.new.units ≡ self.old.units }
        ensures size { size_of self.new ≡ size_of self.old }
        ensures sound { OnOk result (IsSound self.new) }
    {
        let copied = gaps.first(self.alloc, gaps.len())?;
        self.pause.set(copied);
        Ok(())
    }

    // Sends an object to a region over the link, unless it is there.
    fn cross<L: Link>(
        &mut self,
        object: u32,
        region: &Text,
        link: &mut L,
        out: &mut Entries,
    ) -> Result<(), NoMemory>
        requires sound { IsSound self.old }
        requires object { HasNumber (length self.old.grid.objects) object }
        ensures goes { (trips : List Trip) × Went L.gives (L.trips link.old) (L.trips link.new) trips
            × ((programs : List Program) (w : SourceWorld) → IsOf programs self.old w
            → Does self.old.units (rules_of programs) (IsOf programs self.new) (steps.Cross object region.now) w trips
            out.old out.new result) }
        ensures comes { (trips : List Trip) × Went L.gives (L.trips link.old) (L.trips link.new) trips
            × ((programs : List Program) (w : SourceWorld)
            → ComesBackAs programs self.old.units self.old.clock self.old.grid object trips w
            → Tells result (λ v _. IsOf programs self.new v) out.old out.new
            (next (rules_of programs) (steps.Cross object region.now) w)) }
        ensures units { self.new.units ≡ self.old.units }
        ensures pause { self.new.pause ≡ self.old.pause }
        ensures size { size_of self.new ≡ size_of self.old }
        ensures sound { OnOk result (IsSound self.new) }
        ensures indexed { OnOk result (IsIndexed self.new) }
        ensures counted { L.faults link.old ≤ L.faults link.new }
    {
        self.grid.cross(object, region, &self.units, link, out)?;
        note_timers(&self.grid, &mut self.due)
    }
}
