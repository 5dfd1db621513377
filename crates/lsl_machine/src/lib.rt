//! The machine that runs a unit's code, from one tick, call or end to the next. Its results are those of a run of the
//! code's definition, and it reads nothing but the unit.
#![tactic(auto)]

ghost use Rattle.std.specs.Prelude.{◌≡◌, ◌≢◌, ◌<◌, ◌≤◌, [], ◌∷◌, ◌-◌, ◌+◌, ℕ, true, false, List, slice_get, IfOk, OnErr, OnOk};
ghost use Rattle.lsl_running.specs.Charging.{default_limit};
ghost use Rattle.lsl_running.specs.declared.host.Reply.{Reply};
ghost use Rattle.lsl_running.specs.declared.host.Reply.TheVariants as reply;
ghost use Rattle.lsl_code.specs.Bodies.{Body};
ghost use Rattle.lsl_code.specs.Kinds.{kinds_of};
ghost use Rattle.lsl_code.specs.Wholes.{run_of, whole_of_bodies};
ghost use Rattle.lsl_code.specs.declared.woven_units.Woven.{Woven as Code};
ghost use Rattle.lsl_machine.specs.Futures.{halt_from, whole_from, ticks_passed, GoesOn, IsCut, IsAsked, RunsOn, StandsCut};
ghost use Rattle.lsl_code.specs.Frames.{AreValid, frames_of, points_of};
ghost use Rattle.lsl_code.specs.Machine.{Machine as Restored, MachineCall};
ghost use Rattle.lsl_code.specs.ModeRuns.{BackRun, SaveRun};
ghost use Rattle.lsl_code.specs.Standing.{HasFrames};
ghost use Rattle.lsl_code.specs.Weaves.{Weaves, most_steps};
ghost use Rattle.lsl_machine.specs.CallsRestored.{beside};
ghost use Rattle.lsl_machine.specs.Parking.{HasParked};
ghost use Rattle.lsl_machine.specs.Passing.{PassesTicks};
ghost use Rattle.lsl_machine.specs.Memory.{TakesNone};
ghost use Rattle.lsl_machine.specs.State.{State, IsOf, IsChained, IsCharged, CanRun, Wants, HasEnded, AreArguments, asks_ahead, bodies_of, standing_of, kept_with};

use lsl_code::{Sack, Woven};
use lsl_text::NoMemory;
use lsl_value::{Value, Values};
use std::alloc::Global;
use std::marker::Model;

mod appending;
mod asking;
mod calls;
mod entering;
mod entry_steps;
mod global_steps;
mod integers;
mod jumps;
mod layouts;
mod limits;
mod marking;
mod operands;
mod operating;
mod pausing;
mod performing;
mod racing;
mod restoring;
mod running;
mod saving;
mod slots;
mod standing;

use crate::entering::enter;
use crate::restoring::restore;
use crate::running::Running;
pub use crate::standing::Halt;
use crate::standing::{Standing, standing_at};
pub use lsl_running::{Call, Fault, Kept, Outcome, Reply};

/// A machine that was saved: its calls as frames, and its globals with the limit.
#[derive(Drop)]
pub struct Parked {
    pub sack: Sack,
    pub kept: Kept,
}

/// A handler that runs. A contract sees the definition's machine, and whether it can run.
#[derive(Drop)]
pub struct Machine {
    running: Running,
    standing: Standing,
}

impl Model for Machine {
    ghost use Rattle.lsl_machine.specs.State.{State};
    ghost use Rattle.lsl_machine.specs.Laid.{state_of, IsLaid};

    ghost Value = { State };

    ghost view = { λ m. state_of m.running m.standing };

    ghost invariant = { λ m. IsLaid m.running m.standing };
}

impl Machine {
    /// A function of the unit before its first tick, with these globals, this limit of its charge, and arguments of its
    /// parameters' kinds. Takes memory for its slots and operands.
    pub fn begin(
        alloc: Global,
        unit: &Woven,
        handler: u16,
        globals: Values,
        limit: u32,
        args: Values,
    ) -> Result<Machine, NoMemory>
        requires globals { kinds_of globals ≡ kinds_of unit.now.globals }
        requires limit { limit ≤ default_limit }
        requires args { AreArguments (slice_get (bodies_of unit.now) handler) args }
        ensures runs { IfOk result (λ begun. (ticks : ℕ) (answers : List Reply) →
            run_of (bodies_of unit.now) handler (kept_with globals limit) args ticks answers
            ≡ halt_from begun.standing (bodies_of unit.now) begun.machine ticks answers) }
        ensures whole { IfOk result (λ begun. (ticks : ℕ) (answers : List Reply) →
            whole_of_bodies (bodies_of unit.now) handler (kept_with globals limit) args ticks answers
            ≡ whole_from (bodies_of unit.now) begun ticks answers) }
        ensures silent { IfOk result (λ begun. begun.machine.answers ≡ []) }
        ensures ready { IfOk result (λ begun. CanRun begun.standing) }
        ensures behind { IfOk result (λ begun. ticks_passed begun.standing ≡ 0) }
        ensures of { IfOk result (IsOf unit.now) }
        ensures chained { IfOk result (IsChained (bodies_of unit.now) handler) }
        ensures charged { IfOk result IsCharged }
    {
        let (running, standing) = enter(alloc, unit, handler, globals, limit, args)?;
        Ok(Machine { running, standing })
    }

    /// Continues to the next tick, host call or end. From a tick it passes that tick; a machine just begun or answered
    /// passes none. After `NoMemory` or `Faulted` the machine must be dropped.
    ///
    /// Takes no memory on integers, except to enter a function and to make a host call.
    #[inline(always)]
    pub fn run(&mut self, unit: &Woven) -> Halt
        requires able { CanRun self.old.standing }
        requires of { IsOf unit.now self.old }
        ensures runs { RunsOn (bodies_of unit.now) self.old result self.new }
        ensures whole { GoesOn (bodies_of unit.now) self.old result self.new }
        ensures stands { result ≡ Halt.AtTick → StandsCut (bodies_of unit.now) self.new }
        ensures cut { result ≡ Halt.AtTick → IsCut (bodies_of unit.now) self.new }
        ensures asked { IsAsked result }
        ensures listens { result ≢ Halt.Faulted Fault.TooManyListens }
        ensures standing { self.new.standing ≡ standing_of result }
        ensures silent { self.new.machine.answers ≡ [] }
        ensures of { IsOf unit.now self.new }
        ensures chained { (handler : ℕ) → IsChained (bodies_of unit.now) handler self.old →
            IsChained (bodies_of unit.now) handler self.new }
        ensures charged { IsCharged self.new }
        // On integers alone it takes no memory, except to enter a function and to make a host call.
        ensures memory { TakesNone (bodies_of unit.now) self.old → result ≢ Halt.NoMemory }
        // Where it asks and has passed no tick, fewer host calls are ahead of it.
        ensures ahead { (call : Call) → result ≡ Halt.Asks call → ticks_passed self.old.standing ≡ 0 →
            asks_ahead (bodies_of unit.now) self.new < asks_ahead (bodies_of unit.now) self.old }
    {
        let halt = self.running.run_to_halt(self.standing, unit);
        self.standing = standing_at(&halt);
        halt
    }

    /// Passes the current tick, and continues while it meets nothing but integers and calls of functions. Returns
    /// whether it is at a tick again; otherwise it can run on from where it is.
    ///
    /// Takes memory only to enter a function, and stops before it if there is none.
    #[inline(always)]
    pub fn pass_tick(&mut self, unit: &Woven) -> bool
        requires stands { self.old.standing ≡ Standing.AtTick }
        requires of { IsOf unit.now self.old }
        ensures runs { (ticks : ℕ) (answers : List Reply) →
            halt_from self.old.standing (bodies_of unit.now) self.old.machine (1 + ticks) answers
            ≡ halt_from self.new.standing (bodies_of unit.now) self.new.machine ticks answers }
        ensures ticks { result ≡ true → self.new.standing ≡ Standing.AtTick }
        ensures cut { result ≡ true → StandsCut (bodies_of unit.now) self.new }
        ensures ready { result ≡ false → self.new.standing ≡ Standing.Ready }
        ensures silent { self.new.machine.answers ≡ [] }
        ensures of { IsOf unit.now self.new }
        ensures chained { (handler : ℕ) → IsChained (bodies_of unit.now) handler self.old →
            IsChained (bodies_of unit.now) handler self.new }
        ensures charged { IsCharged self.new }
        // On integers alone the rest of the run takes no memory, except to enter a function and to make a host call.
        ensures memory { result ≡ false → TakesNone (bodies_of unit.now) self.old →
            TakesNone (bodies_of unit.now) self.new }
    {
        let (_, at_tick) = self.pass_ticks(unit, 1);
        at_tick
    }

    /// Passes the current tick and further ones, at most `ticks` in all, while it meets nothing but integers and calls
    /// of functions. Returns the number of ticks passed, and whether it is at a tick again; otherwise it can run on
    /// from where it is.
    ///
    /// Takes memory only to enter a function, and stops before it if there is none.
    pub fn pass_ticks(&mut self, unit: &Woven, ticks: u32) -> (u32, bool)
        requires some { 0 < ticks }
        requires stands { self.old.standing ≡ Standing.AtTick }
        requires of { IsOf unit.now self.old }
        ensures runs { (more : ℕ) (answers : List Reply) →
            halt_from self.old.standing (bodies_of unit.now) self.old.machine (result.0 + more) answers
            ≡ halt_from self.new.standing (bodies_of unit.now) self.new.machine more answers }
        ensures passed { PassesTicks unit.now result.0 self.old self.new }
        ensures some { 0 < result.0 }
        ensures most { result.0 ≤ ticks }
        ensures ticks { result.1 ≡ true → self.new.standing ≡ Standing.AtTick }
        ensures cut { result.1 ≡ true → StandsCut (bodies_of unit.now) self.new }
        ensures ready { result.1 ≡ false → self.new.standing ≡ Standing.Ready }
        ensures silent { self.new.machine.answers ≡ [] }
        ensures of { IsOf unit.now self.new }
        ensures chained { (handler : ℕ) → IsChained (bodies_of unit.now) handler self.old →
            IsChained (bodies_of unit.now) handler self.new }
        ensures charged { IsCharged self.new }
    {
        let (passed, at_tick) = self.running.passes_ticks(unit, ticks);
        if at_tick {
            return (passed, true);
        }
        self.standing = Standing::Ready;
        (passed, false)
    }

    /// Gives the answer to the pending call: a value of the call's result, or none if it has none. Takes no memory.
    pub fn answer(&mut self, value: Option<Value>)
        requires { Wants self.old.standing value }
        ensures runs { (bodies : List Body) (ticks : ℕ) (more : List Reply) →
            halt_from self.old.standing bodies self.old.machine ticks (reply.Value value ∷ more)
            ≡ halt_from self.new.standing bodies self.new.machine ticks more }
        ensures whole { (bodies : List Body) (ticks : ℕ) (more : List Reply) →
            whole_from bodies self.old ticks (reply.Value value ∷ more) ≡ whole_from bodies self.new ticks more }
        ensures silent { self.new.machine.answers ≡ [] }
        ensures ready { CanRun self.new.standing }
        ensures behind { ticks_passed self.new.standing ≡ 0 }
        ensures of { (unit : Code) → IsOf unit self.old → IsOf unit self.new }
        ensures chained { (bodies : List Body) (handler : ℕ) → IsChained bodies handler self.old →
            IsChained bodies handler self.new }
        ensures charged { IsCharged self.new }
        ensures ahead { (bodies : List Body) → asks_ahead bodies self.new ≤ asks_ahead bodies self.old }
    {
        self.standing = self.running.receive(value);
    }

    /// Keeps the buffer of a finished call, for the next. Takes no memory.
    #[inline(always)]
    pub fn keep_room(&mut self, call: Call)
        ensures { self.new ≡ self.old }
    {
        self.running.keep_room(call);
    }

    /// Saves the machine, which is at a tick, by the unit's own code: its calls as frames, and its globals with the
    /// limit. The values move.
    pub fn save(self, unit: &Woven) -> Result<Parked, NoMemory>
        requires stands { self.standing ≡ Standing.AtTick }
        requires of { IsOf unit.now self }
        ensures saved { IfOk result (λ parked.
            SaveRun (bodies_of unit.now) self.machine parked.sack (beside parked.kept)) }
        ensures kept { IfOk result (λ parked. parked.kept ≡ self.machine.kept) }
        ensures kinds { IfOk result (λ parked. kinds_of parked.kept.globals ≡ kinds_of unit.now.globals) }
        ensures valid { IfOk result (λ parked. (handler : ℕ) → IsChained (bodies_of unit.now) handler self →
            AreValid (points_of (bodies_of unit.now)) handler parked.kept.globals parked.kept.limit parked.sack) }
        // A unit that weaves saves the machine's frames.
        ensures frames { IfOk result (λ parked. Weaves unit.now →
            parked.sack ≡ frames_of (bodies_of unit.now) self.machine.calls) }
        ensures moves { IfOk result (λ parked. Weaves unit.now → (handler : ℕ) →
            IsChained (bodies_of unit.now) handler self →
            HasParked (bodies_of unit.now) handler self parked.sack parked.kept) }
    {
        let Machine {
            running,
            standing: _,
        } = self;
        let (sack, kept) = running.save(unit)?;
        Ok(Parked { sack, kept })
    }

    /// The machine that the unit's own code makes of what was saved, at its tick. The count of steps grows by one for
    /// each instruction.
    pub fn restore(
        alloc: Global,
        unit: &Woven,
        handler: u16,
        parked: Parked,
        steps: &mut u64,
    ) -> Result<Machine, NoMemory>
        requires valid { AreValid (points_of (bodies_of unit.now)) handler parked.kept.globals parked.kept.limit
            parked.sack }
        requires globals { kinds_of parked.kept.globals ≡ kinds_of unit.now.globals }
        requires limit { parked.kept.limit ≤ default_limit }
        requires steps { steps.old ≤ 9223372036854775807 }
        ensures restored { IfOk result (λ restored. BackRun (bodies_of unit.now) handler parked.sack
            (beside parked.kept) restored.machine (steps.new - steps.old)) }
        ensures stands { IfOk result (λ restored. restored.standing ≡ Standing.AtTick) }
        ensures of { IfOk result (IsOf unit.now) }
        ensures chained { IfOk result (IsChained (bodies_of unit.now) handler) }
        ensures charged { IfOk result IsCharged }
        ensures kept { IfOk result (λ restored. restored.machine.kept ≡ parked.kept) }
        ensures silent { IfOk result (λ restored. restored.machine.answers ≡ []) }
        // A unit that weaves makes the machine that was saved, with few instructions.
        ensures same { IfOk result (λ restored. Weaves unit.now → (calls : List MachineCall) →
            HasFrames (bodies_of unit.now) handler calls parked.sack → restored.machine.calls ≡ calls) }
        ensures moved { IfOk result (λ restored. Weaves unit.now → (saved : State) →
            HasParked (bodies_of unit.now) handler saved parked.sack parked.kept →
            (restored.machine ≡ saved.machine) × (restored.standing ≡ saved.standing)) }
        ensures bound { IfOk result (λ restored. Weaves unit.now →
            steps.new - steps.old ≤ most_steps parked.sack) }
        ensures counted { steps.old ≤ steps.new }
        ensures lacking { OnErr result ((m : Restored) (n : ℕ) →
            BackRun (bodies_of unit.now) handler parked.sack (beside parked.kept) m n → steps.new - steps.old ≤ n) }
    {
        let Parked { sack, kept } = parked;
        let running = restore(alloc, unit, handler, sack, kept, steps)?;
        let standing = Standing::AtTick;
        Ok(Machine { running, standing })
    }

    /// Saves the calls by the unit's own code, and restores them in their old buffers. After `NoMemory` the machine is
    /// lost.
    #[inline(never)]
    pub fn pause(&mut self, unit: &Woven, handler: u16) -> Result<(), NoMemory>
        requires stands { self.old.standing ≡ Standing.AtTick }
        requires of { IsOf unit.now self.old }
        requires weaves { Weaves unit.now }
        requires chained { IsChained (bodies_of unit.now) handler self.old }
        ensures machine { OnOk result (self.new.machine ≡ self.old.machine) }
        ensures standing { OnOk result (self.new.standing ≡ self.old.standing) }
        ensures of { OnOk result (IsOf unit.now self.new) }
    {
        self.standing = Standing::Lost;
        self.running.pause(unit, handler)?;
        self.standing = Standing::AtTick;
        Ok(())
    }

    /// The globals and the limit of a handler that ended. Takes no memory.
    pub fn finish(self) -> Kept
        requires { HasEnded self.standing }
        ensures { result ≡ self.machine.kept }
    {
        let Machine {
            running,
            standing: _,
        } = self;
        running.kept()
    }
}
