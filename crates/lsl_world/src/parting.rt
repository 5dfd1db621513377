//! Steps in parts: the entries of a part can be written before the next part is done.

ghost use Rattle.std.specs.Prelude.{◌≡◌, ◌≤◌, List, None, IfOk, IfSome, OnOk, length};
ghost use Rattle.lsl_ports.specs.Trips.{Trip, Went};
ghost use Rattle.lsl_post.specs.Journal.{Tells};
ghost use Rattle.lsl_tree.specs.Program.{Program};
ghost use Rattle.lsl_lines.specs.declared.file.Step.TheVariants as steps;
ghost use Rattle.lsl_region.specs.Grids.{outline_of};
ghost use Rattle.lsl_region.specs.Worlds.{World as SourceWorld};
ghost use Rattle.lsl_world.specs.Handing.{AreCarded, CanHand};
ghost use Rattle.lsl_world.specs.Lossy.{IsFairFrom, Stage};
ghost use Rattle.lsl_world.specs.Parts.{DoesPartAt, IsRestOf, TellsPart};
ghost use Rattle.lsl_world.specs.Programs.{rules_of};
ghost use Rattle.lsl_world.specs.Returns.{Returns};
ghost use Rattle.lsl_world.specs.Sizes.{HasNumber, IsStepOf};
ghost use Rattle.lsl_world.specs.Sound.{IsCrossing, IsIndexed, IsSound};
ghost use Rattle.lsl_world.specs.Stages.{IsAt};
ghost use Rattle.lsl_world.specs.Stands.{IsOf, size_of};
ghost use Rattle.lsl_world.specs.Steps.{next};

use crate::world::World;
use lsl_lines::Step;
use lsl_ports::Link;
use lsl_post::Entries;
use lsl_text::NoMemory;

/// A part ends at this number of entries or more.
const ENOUGH: usize = 256;

/// The number of segments in a row between two looks at the entries: few at first, then doubled each time, up to a
/// maximum.
const FIRST_IN_ROW: u32 = 64;

const MOST_IN_ROW: u32 = 16384;

impl World {
    /// Does a step, or a first part of it, adds what happened, and returns what is left of the step.
    ///
    /// A part ends where there are 256 entries or more: in a `run` step after a round, and in a `go` step after some
    /// segments in a row, where its script is saved. All other steps are one part.
    ///
    /// When out of memory, a part of what happened was added, and the world must be discarded.
    pub fn step_part<L: Link>(
        &mut self,
        step: &Step,
        link: &mut L,
        out: &mut Entries,
    ) -> Result<Option<Step>, NoMemory>
        requires sound { IsSound self.old }
        requires step { IsStepOf (size_of self.old) step.now }
        requires carded { AreCarded self.old }
        requires named { CanHand self.old step.now }
        ensures at { (trips : List Trip) × Went L.gives (L.trips link.old) (L.trips link.new) trips
            × ((programs : List Program) (stage : Stage) → IsAt programs self.old stage → IsFairFrom stage trips
            → DoesPartAt self.old.units (rules_of programs) self.old.regions (λ s. IsAt programs self.new s) step.now
            stage trips out.old out.new result) }
        ensures comes { self.old.cards ≡ None
            → (trips : List Trip) × Went L.gives (L.trips link.old) (L.trips link.new) trips
            × ((programs : List Program) (w : SourceWorld)
            → Returns programs self.old.units self.old.clock self.old.grid step.now trips w
            → Tells result (λ v _. IsOf programs self.new v) out.old out.new (next (rules_of programs) step.now w)) }
        ensures rest { IfOk result (λ left. IfSome left (λ rest. IsRestOf step.now rest)) }
        ensures plain { self.old.cards ≡ None → self.new.cards ≡ None }
        ensures carded { OnOk result (AreCarded self.new) }
        ensures regions { self.new.regions ≡ self.old.regions }
        ensures units { self.new.units ≡ self.old.units }
        ensures size { OnOk result (size_of self.new ≡ size_of self.old) }
        ensures sound { OnOk result (IsSound self.new) }
        ensures indexed { IsCrossing step.now → IsIndexed self.old → OnOk result (IsIndexed self.new) }
        ensures counted { L.faults link.old ≤ L.faults link.new }
    {
        match step {
            Step::Go(script, most) => self.go_part(*script, *most, out),
            Step::Run(most) => self.run_part(*most, out),
            _ => {
                self.step(step, link, out)?;
                Ok(None)
            }
        }
    }

    // Runs segments of a script, at most `most`, or the first of them.
    fn go_part(
        &mut self,
        script: u32,
        most: u32,
        out: &mut Entries,
    ) -> Result<Option<Step>, NoMemory>
        requires sound { IsSound self.old }
        requires script { HasNumber (length self.old.grid.seats) script }
        ensures tells { (programs : List Program) (w : SourceWorld) → IsOf programs self.old w
            → TellsPart result (rules_of programs) (IsOf programs self.new) out.old out.new
            (next (rules_of programs) (steps.Go script most) w) }
        ensures rest { IfOk result (λ left. IfSome left (λ rest. IsRestOf (steps.Go script most) rest)) }
        ensures units { self.new.units ≡ self.old.units }
        ensures regions { self.new.regions ≡ self.old.regions }
        ensures cards { self.new.cards ≡ self.old.cards }
        ensures outline { outline_of self.new.grid ≡ outline_of self.old.grid }
        ensures sound { OnOk result (IsSound self.new) }
    {
        let mut left = most;
        let mut row = FIRST_IN_ROW;
        'rows: while 0 < left {
            let few = left.min(row);
            let spent = self.turn(script, few, out)?;
            if spent < few {
                return Ok(None);
            }
            left -= few;
            if ENOUGH <= out.len() {
                return Ok(Some(Step::Go(script, left)));
            }
            row = MOST_IN_ROW.min(row * 2);
        }
        Ok(None)
    }

    // Runs rounds, until one finds no script ready or `most` segments have run, or the first of them.
    fn run_part(&mut self, most: u32, out: &mut Entries) -> Result<Option<Step>, NoMemory>
        requires sound { IsSound self.old }
        ensures tells { (programs : List Program) (w : SourceWorld) → IsOf programs self.old w
            → TellsPart result (rules_of programs) (IsOf programs self.new) out.old out.new
            (next (rules_of programs) (steps.Run most) w) }
        ensures rest { IfOk result (λ left. IfSome left (λ rest. IsRestOf (steps.Run most) rest)) }
        ensures units { self.new.units ≡ self.old.units }
        ensures regions { self.new.regions ≡ self.old.regions }
        ensures cards { self.new.cards ≡ self.old.cards }
        ensures outline { outline_of self.new.grid ≡ outline_of self.old.grid }
        ensures sound { OnOk result (IsSound self.new) }
    {
        let mut left = most;
        'rounds: for _ in 0..most {
            let spare = self.round(left, out)?;
            if spare == left {
                return Ok(None);
            }
            left = spare;
            if ENOUGH <= out.len() {
                return Ok(Some(Step::Run(left)));
            }
        }
        Ok(None)
    }
}
