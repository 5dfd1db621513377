//! Rounds over all scripts: of timers, and of turns.

ghost use Rattle.std.specs.Prelude.{◌≡◌, ◌<◌, ◌≤◌, ◌-◌, ℕ, List, length, IfOk, OnOk};
ghost use Rattle.lsl_post.specs.Journal.{Tells};
ghost use Rattle.lsl_tree.specs.Program.{Program};
ghost use Rattle.lsl_region.specs.Grids.{outline_of};
ghost use Rattle.lsl_region.specs.PausedTurns.{counted_turn};
ghost use Rattle.lsl_region.specs.Pausing.{Counts, Tally};
ghost use Rattle.lsl_region.specs.Posting.{ring_all, ring_at};
ghost use Rattle.lsl_region.specs.Segments.{turn};
ghost use Rattle.lsl_region.specs.Worlds.{World as SourceWorld};
ghost use Rattle.lsl_world.specs.Programs.{rules_of};
ghost use Rattle.lsl_world.specs.Saves.{counted_round, counted_rounds};
ghost use Rattle.lsl_world.specs.Sizes.{HasNumber};
ghost use Rattle.lsl_world.specs.Sound.{IsSound};
ghost use Rattle.lsl_world.specs.Stands.{IsOf, size_of};
ghost use Rattle.lsl_world.specs.Steps.{round, rounds};

use crate::timers::note_timer;
use crate::world::World;
use lsl_post::Entries;
use lsl_text::NoMemory;

/// How many segments a turn within a round has at most.
const MOST_IN_TURN: u32 = 8;

impl World {
    /// Reads all timers. Cost: O(k + log n) for k due timers of n that run.
    pub(crate) fn read_timers(&mut self, out: &mut Entries) -> Result<(), NoMemory>
        requires sound { IsSound self.old }
        ensures tells { (programs : List Program) (w : SourceWorld) → IsOf programs self.old w
            → Tells result (λ v _. IsOf programs self.new v) out.old out.new (ring_all (rules_of programs) w) }
        ensures units { self.new.units ≡ self.old.units }
        ensures pause { self.new.pause ≡ self.old.pause }
        ensures size { size_of self.new ≡ size_of self.old }
        ensures sound { OnOk result (IsSound self.new) }
    {
        let ripe = self.due.ripe(self.alloc, self.clock)?;
        for script in &ripe {
            self.read_timer(*script, out)?;
        }
        Ok(())
    }

    // Reads the timer of the script of this number.
    fn read_timer(&mut self, script: u32, out: &mut Entries) -> Result<(), NoMemory>
        requires sound { IsSound self.old }
        requires script { HasNumber (length self.old.grid.seats) script }
        ensures tells { (programs : List Program) (w : SourceWorld) → IsOf programs self.old w
            → Tells result (λ v _. IsOf programs self.new v) out.old out.new
            (ring_at (rules_of programs) (script - 1) w) }
        ensures units { self.new.units ≡ self.old.units }
        ensures pause { self.new.pause ≡ self.old.pause }
        ensures size { size_of self.new ≡ size_of self.old }
        ensures sound { OnOk result (IsSound self.new) }
    {
        self.grid.read_timer(script, self.clock, &self.units, out)?;
        note_timer(&self.grid, script, &mut self.due)
    }

    /// Runs rounds, until one finds no script ready or `most` segments have run.
    ///
    /// Cost: the segments; in each round a look at every script, as long as segments are left; and one save of each
    /// that ran. A script alone has turn after turn too.
    pub(crate) fn run(&mut self, most: u32, out: &mut Entries) -> Result<(), NoMemory>
        requires sound { IsSound self.old }
        ensures tells { (programs : List Program) (w : SourceWorld) → IsOf programs self.old w
            → Tells result (λ v _. IsOf programs self.new v) out.old out.new (rounds (rules_of programs) most w) }
        ensures saves { (programs : List Program) (w : SourceWorld) (t : Tally) → IsOf programs self.old w
            → Counts self.old.pause t
            → OnOk result (Counts self.new.pause (counted_rounds (rules_of programs) most w t)) }
        ensures units { self.new.units ≡ self.old.units }
        ensures size { size_of self.new ≡ size_of self.old }
        ensures sound { OnOk result (IsSound self.new) }
    {
        let mut left = most;
        for _ in 0..most {
            let spare = self.round(left, out)?;
            if spare == left {
                return Ok(());
            }
            left = spare;
        }
        Ok(())
    }

    /// A turn for each script, in order, and the number of segments left then.
    pub(crate) fn round(&mut self, left: u32, out: &mut Entries) -> Result<u32, NoMemory>
        requires sound { IsSound self.old }
        ensures tells { (programs : List Program) (w : SourceWorld) → IsOf programs self.old w
            → Tells result (λ x n. IsOf programs self.new x.0 × (n ≡ x.1)) out.old out.new
            (round (rules_of programs) (w, left)) }
        ensures saves { (programs : List Program) (w : SourceWorld) (t : Tally) → IsOf programs self.old w
            → Counts self.old.pause t
            → OnOk result (Counts self.new.pause (counted_round (rules_of programs) ((w, left), t)).value.1) }
        ensures within { IfOk result (λ n. n ≤ left) }
        ensures units { self.new.units ≡ self.old.units }
        ensures regions { self.new.regions ≡ self.old.regions }
        ensures cards { self.new.cards ≡ self.old.cards }
        ensures outline { outline_of self.new.grid ≡ outline_of self.old.grid }
        ensures size { size_of self.new ≡ size_of self.old }
        ensures sound { OnOk result (IsSound self.new) }
    {
        let mut spare = left;
        for place in 0..self.grid.scripts() {
            let spent = self.turn(place as u32 + 1, spare.min(MOST_IN_TURN), out)?;
            spare -= spent;
        }
        Ok(spare)
    }

    /// Runs segments of the script of this number while it is ready, at most `most`, and returns how many ran. A script
    /// that isn't ready costs a look at it, or nothing where no segment is left.
    pub(crate) fn turn(
        &mut self,
        script: u32,
        most: u32,
        out: &mut Entries,
    ) -> Result<u32, NoMemory>
        requires sound { IsSound self.old }
        requires script { HasNumber (length self.old.grid.seats) script }
        ensures tells { (programs : List Program) (w : SourceWorld) → IsOf programs self.old w
            → Tells result (λ x n. IsOf programs self.new x.0 × (n ≡ x.1)) out.old out.new
            (turn (rules_of programs) most (script - 1) w) }
        ensures within { IfOk result (λ n. n ≤ most) }
        ensures saves { (programs : List Program) (w : SourceWorld) (t : Tally) → IsOf programs self.old w
            → Counts self.old.pause t
            → OnOk result (Counts self.new.pause (counted_turn (rules_of programs) most (script - 1) w t)) }
        ensures units { self.new.units ≡ self.old.units }
        ensures regions { self.new.regions ≡ self.old.regions }
        ensures cards { self.new.cards ≡ self.old.cards }
        ensures outline { outline_of self.new.grid ≡ outline_of self.old.grid }
        ensures size { size_of self.new ≡ size_of self.old }
        ensures sound { OnOk result (IsSound self.new) }
    {
        if most == 0 {
            return Ok(0);
        }
        if !self.grid.ready(script, self.clock) {
            return Ok(0);
        }
        let spent = self.grid.turn(script, most, self.clock, &mut self.pause, &self.units, out)?;
        note_timer(&self.grid, script, &mut self.due)?;
        Ok(spent)
    }
}
