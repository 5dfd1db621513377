//! Segments of one script: from one tick to the next, or to its handler's end, with all host calls on the way.

ghost use Rattle.std.specs.Prelude.{◌≡◌, ◌<◌, ◌-◌, ◌+◌, ℕ, None, false, IfOk, MatchResult, OnOk, List, Some, length, slice_get};
ghost use Rattle.lsl_code.specs.declared.woven_units.Woven.{Woven as Code};
ghost use Rattle.lsl_code.specs.Weaves.{Weaves};
ghost use Rattle.lsl_machine.specs.declared.standing.Standing.TheVariants as standings;
ghost use Rattle.lsl_machine.specs.State.{CanRun};
ghost use Rattle.lsl_post.specs.Journal.{Adds, Part, Tells};
ghost use Rattle.lsl_script.specs.Awake.{IsAskedFor, IsAwake, taken_by};
ghost use Rattle.lsl_script.specs.Codes.{Meant, HasUnit, rules_of};
ghost use Rattle.lsl_script.specs.Handlers.{given};
ghost use Rattle.lsl_script.specs.Lives.{entries_of_closing, entries_of_taking};
ghost use Rattle.lsl_script.specs.Scripts.{Flight, Script as Source};
ghost use Rattle.lsl_script.specs.Waking.{StandsWoken, WakesAs};
ghost use Rattle.lsl_script.specs.Lawful.{Lawful};
ghost use Rattle.lsl_script.specs.Parts.{parts_of};
ghost use Rattle.lsl_region.specs.Answers.{answer};
ghost use Rattle.lsl_region.specs.PausedTurns.{flies_at};
ghost use Rattle.lsl_region.specs.Scenes.{IsBegun, IsBehindSegment, IsHome, IsAwakeIn, IsPaused, IsSet, KeepsSet};
ghost use Rattle.lsl_region.specs.Segments.{asked, taken};
ghost use Rattle.lsl_region.specs.Turning.{IsEnd, IsHeld, IsLast, IsOnWay, IsOut, IsReadyInTurn, StandsAt, asks_left, with_seated};
ghost use Rattle.lsl_region.specs.Worlds.{World};
ghost use Rattle.lsl_region.specs.Grids.{FitsSeat, outline_of};
ghost use Rattle.lsl_region.specs.declared.grid.Seat.{Seat as Place};

use crate::grid::Grid;
use crate::posting::number;
use crate::scene::Scene;
use lsl_code::Woven;
use lsl_post::{Entries, Entry};
use lsl_running::{Call, Reply};
use lsl_script::{Closed, Live, Script, Turn};
use lsl_text::NoMemory;
use std::alloc::{AllocError, Global};

impl Grid {
    /// Takes the script at this place out of the grid and wakes it in this buffer, and writes the event that it takes.
    pub(crate) fn begin(
        &mut self,
        scene: &Scene,
        room: &mut Option<Live>,
        out: &mut Entries,
    ) -> Result<(), NoMemory>
        requires set { IsSet scene.now self.old }
        requires ready { IsReadyInTurn scene.now.clock self.old.seats scene.now.place None }
        ensures does { (m : Meant scene.now.library.now) (w : World) → IsHome scene.now self.old w →
            Tells result (λ v _. IsOut room.new (λ live. IsBegun scene.now self.new live v))
            out.old out.new (taken scene.now.place w) }
        ensures awake { OnOk result (IsOut room.new (IsAwake scene.now.unit.now)) }
        ensures able { OnOk result (IsOut room.new (λ live. CanRun live.machine.standing)) }
        ensures stands { OnOk result (IsOut room.new StandsWoken) }
        ensures grid { KeepsSet scene.now result self.old self.new }
    {
        let alloc = self.alloc;
        self.wake_at(scene.place, room, scene.unit)?;
        let Some(live) = room else {
            unreachable!();
        };
        tell_taken(number(scene.place), live, alloc, out)?;
        Ok(())
    }

    /// Continues from a stop to the next tick or the handler's end, and answers all host calls on the way.
    #[inline(always)]
    pub(crate) fn go_on(
        &mut self,
        scene: &Scene,
        live: &mut Option<Live>,
        turn: Turn,
        out: &mut Entries,
    ) -> Result<(), NoMemory>
        requires set { IsSet scene.now self.old }
        requires awake { IsOut live.old (IsAwake scene.now.unit.now) }
        requires stands { IsOut live.old (StandsAt scene.now.unit.now turn) }
        ensures does { (m : Meant scene.now.library.now) (f : Flight) (most : ℕ) (w : World) →
            IsOut live.old (λ l. IsPaused scene.now self.old l turn f most w) →
            Tells result (λ v _. IsBehindSegment scene.now self.new live.new v) out.old out.new
            (asked m.rules (most + 1) scene.now.place f w) }
        ensures grid { KeepsSet scene.now result self.old self.new }
        ensures held { OnOk result (IsHeld scene.now.unit.now live.new) }
    {
        let Some(awake) = live else {
            unreachable!();
        };
        match self.answer_all(scene, awake, turn, out)? {
            Turn::AtTick => Ok(()),
            last => self.finish(scene, live, last, out),
        }
    }

    // Answers all host calls up to the next tick or the handler's end.
    #[inline(always)]
    fn answer_all(
        &mut self,
        scene: &Scene,
        live: &mut Live,
        turn: Turn,
        out: &mut Entries,
    ) -> Result<Turn, NoMemory>
        requires awake { IsAwakeIn scene.now self.old live.old }
        requires stands { StandsAt scene.now.unit.now turn live.old }
        ensures does { (m : Meant scene.now.library.now) (f : Flight) (most : ℕ) (w : World) →
            IsPaused scene.now self.old live.old turn f most w →
            MatchResult result
            (λ last. IsOnWay m.rules scene.now.place (asked m.rules (most + 1) scene.now.place f w) out.old out.new
            (λ x. IsPaused scene.now self.new live.new last x.flight x.most x.world))
            (λ _. Part out.old out.new (asked m.rules (most + 1) scene.now.place f w).entries) }
        ensures awake { OnOk result (IsAwake scene.now.unit.now live.new) }
        ensures stands { IfOk result (λ last. StandsAt scene.now.unit.now last live.new) }
        ensures last { IfOk result IsLast }
        ensures grid { KeepsSet scene.now result self.old self.new }
    {
        let mut turn = turn;
        'asks: loop {
            turn = match turn {
                Turn::Asks(call) => self.answer_and_go_on(scene, live, call, out)?,
                last => return Ok(last),
            };
        }
    }

    // Answers a host call, and lets the script continue.
    #[inline(always)]
    fn answer_and_go_on(
        &mut self,
        scene: &Scene,
        live: &mut Live,
        call: Call,
        out: &mut Entries,
    ) -> Result<Turn, NoMemory>
        requires awake { IsAwakeIn scene.now self.old live.old }
        requires asking { live.old.machine.standing ≡ standings.Asking call.id }
        requires asked { IsAskedFor call }
        ensures does { (m : Meant scene.now.library.now) (f : Flight) (most : ℕ) (w : World) →
            IsPaused scene.now self.old live.old (Turn.Asks call) f most w →
            Tells result
            (λ x turn. IsPaused scene.now self.new live.new turn (given x.1 f) (most - 1) x.0)
            out.old out.new (answer m.rules scene.now.place call.id call.args w) }
        ensures awake { OnOk result (IsAwake scene.now.unit.now live.new) }
        ensures stands { IfOk result (λ turn. StandsAt scene.now.unit.now turn live.new) }
        ensures left { IfOk result (λ turn. asks_left scene.now.unit.now turn live.new
            < asks_left scene.now.unit.now (Turn.Asks call) live.old) }
        ensures grid { KeepsSet scene.now result self.old self.new }
    {
        match self.answer_at(scene, live, &call, out)? {
            Reply::Value(value) => {
                live.keep_room(call);
                live.answer(value);
                Ok(live.go(scene.unit))
            }
            Reply::Stop(fault) => Ok(Turn::Faulted(fault)),
        }
    }

    // Ends the handler of a script, and puts it back into the grid.
    #[inline(never)]
    fn finish(
        &mut self,
        scene: &Scene,
        live: &mut Option<Live>,
        end: Turn,
        out: &mut Entries,
    ) -> Result<(), NoMemory>
        requires set { IsSet scene.now self.old }
        requires awake { IsOut live.old (IsAwake scene.now.unit.now) }
        requires stands { IsOut live.old (StandsAt scene.now.unit.now end) }
        requires end { IsEnd end }
        ensures does { (m : Meant scene.now.library.now) (f : Flight) (most : ℕ) (w : World) →
            IsOut live.old (λ l. IsPaused scene.now self.old l end f most w) →
            Tells result (λ v _. IsHome scene.now self.new v × (flies_at v scene.now.place ≡ false))
            out.old out.new (asked m.rules (most + 1) scene.now.place f w) }
        ensures none { live.new ≡ None }
        ensures grid { KeepsSet scene.now result self.old self.new }
    {
        let Some(live) = live.take() else {
            unreachable!();
        };
        match end {
            Turn::Ended => {
                let Closed {
                    script,
                    charge,
                    cleared,
                } = live.close(self.alloc, scene.unit)?;
                tell_closing(number(scene.place), charge, cleared, out)?;
                self.put_back(scene.place, script);
                Ok(())
            }
            Turn::Faulted(fault) => {
                let script = live.fail(self.alloc, scene.unit, fault)?;
                out.push(Entry::Stopped(number(scene.place), fault))?;
                self.put_back(scene.place, script);
                Ok(())
            }
            Turn::NoMemory => Err(AllocError),
            Turn::AtTick | Turn::Asks(_) => unreachable!(),
        }
    }

    // Takes the script at this place, which can run, out of the grid and wakes it in this buffer. When memory runs out
    // it is gone.
    fn wake_at(
        &mut self,
        place: usize,
        room: &mut Option<Live>,
        unit: &Woven,
    ) -> Result<(), NoMemory>
        requires place { place < length self.old.seats }
        requires fits { (seat : Place) → slice_get self.old.seats place ≡ Some seat → FitsSeat unit.now seat.script }
        requires ready { (clock : ℕ) × IsReadyInTurn clock self.old.seats place None }
        requires weaves { Weaves unit.now }
        ensures seats { (seat : Place) → slice_get self.old.seats place ≡ Some seat →
            self.new ≡ with_seated self.old place seat None }
        ensures awake { OnOk result (IsOut room.new (IsAwake unit.now)) }
        ensures able { OnOk result (IsOut room.new (λ live. CanRun live.machine.standing)) }
        ensures stands { OnOk result (IsOut room.new StandsWoken) }
        ensures source { (seat : Place) (codes : List Code) (s : Source) → slice_get self.old.seats place ≡ Some seat →
            HasUnit codes s.code unit.now → seat.script ≡ Some (parts_of codes s) → Lawful (rules_of codes) s →
            OnOk result (IsOut room.new (WakesAs codes unit.now s)) }
        ensures len { length self.new.seats ≡ length self.old.seats }
        ensures outline { outline_of self.new ≡ outline_of self.old }
    {
        let seat = &mut self.seats[place];
        Script::wake_into(&mut seat.script, room, self.alloc, unit)
    }

    /// Puts a script into the seat at this place. Takes no memory. Walks its listens; each channel on which it began or
    /// ceased to listen costs a binary search.
    pub(crate) fn put_back(&mut self, place: usize, script: Script)
        requires { place < length self.old.seats }
        ensures seats { (seat : Place) → slice_get self.old.seats place ≡ Some seat →
            self.new ≡ with_seated self.old place seat (Some script) }
        ensures len { length self.new.seats ≡ length self.old.seats }
        ensures outline { outline_of self.new ≡ outline_of self.old }
    {
        self.hearers.follow(place, &script.parts().listens);
        self.seats[place].script = Some(script);
    }
}

// Writes the entry of the event that was taken, where one was.
fn tell_taken(number: u32, live: &Live, alloc: Global, out: &mut Entries) -> Result<(), NoMemory>
    ensures { Adds result out.old out.new (entries_of_taking number (taken_by live.now)) }
{
    match live.took() {
        Some(event) => out.push(Entry::Took(number, event.copy(alloc)?)),
        None => Ok(()),
    }
}

// Writes the entries of a handler's end: the charge, and how many events went.
fn tell_closing(
    number: u32,
    charge: u64,
    cleared: Option<u32>,
    out: &mut Entries,
) -> Result<(), NoMemory>
    ensures { Adds result out.old out.new (entries_of_closing number charge cleared) }
{
    out.push(Entry::Done(number, charge))?;
    match cleared {
        Some(count) => out.push(Entry::Clear(number, count)),
        None => Ok(()),
    }
}
