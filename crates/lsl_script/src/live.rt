//! A script that is awake: its machine runs the handler of the current event.

ghost use Rattle.std.specs.Prelude.{◌≡◌, ◌≢◌, ◌<◌, ◌≤◌, ℕ, List, nat_le, true, false, IfSome, option_copied};
ghost use Rattle.std.specs.Borrow.{Lends, sem};
ghost use Rattle.lsl_value.specs.declared.names.BuiltinId.{BuiltinId};
ghost use Rattle.lsl_running.specs.declared.host.Reply.TheVariants as reply;
ghost use Rattle.lsl_code.specs.Bodies.{Body};
ghost use Rattle.lsl_code.specs.declared.woven_units.Woven.{Woven as Code};
ghost use Rattle.lsl_machine.specs.Futures.{ticks_passed};
ghost use Rattle.lsl_machine.specs.declared.standing.Standing.TheVariants as standings;
ghost use Rattle.lsl_machine.specs.Memory.{TakesNone};
ghost use Rattle.lsl_machine.specs.State.{CanRun, Wants, asks_ahead, bodies_of};
ghost use Rattle.lsl_post.specs.declared.timer.Timer.{Timer as Ticking};
ghost use Rattle.lsl_post.specs.Listens.{Standing};
ghost use Rattle.lsl_post.specs.Mailbox.{posted_to, with_posted};
ghost use Rattle.lsl_post.specs.Timer.{timing_of};
ghost use Rattle.lsl_post.specs.Timing.{Timing};
ghost use Rattle.lsl_script.specs.Awake.{IsAwake, IsBeside, StandsAfter, taken_by};
ghost use Rattle.lsl_script.specs.Codes.{HasUnit, rules_of};
ghost use Rattle.lsl_script.specs.Fitting.{is_exit};
ghost use Rattle.lsl_script.specs.Handlers.{given};
ghost use Rattle.lsl_script.specs.Lives.{Lives, Rests, Turns, Waits};
ghost use Rattle.lsl_script.specs.Mailing.{LendsListens, LendsTimer, listening, ticking, turn_of, with_halt, with_listens, with_timer, with_wake};
ghost use Rattle.lsl_script.specs.Passing.{PassesTo};
ghost use Rattle.lsl_script.specs.Scripts.{Flight, Script as Source, entries_of_posting, is_ready, napped, post_to};
ghost use Rattle.lsl_script.specs.Waking.{StandsWoken};

use crate::scripts::Script;
use lsl_code::Woven;
use lsl_machine::{Halt, Machine};
use lsl_post::{Event, Listens, Posted, Timer};
use lsl_running::{Call, Fault, Outcome};
use lsl_value::Value;

/// A script that is awake. Its parts have neither its globals, which the machine has, nor the calls that were saved.
#[derive(Drop)]
pub struct Live {
    pub(crate) parts: Script,
    pub(crate) event: Event,
    /// the function of the event's handler
    pub(crate) handler: u16,
    /// whether the handler was begun when the script woke
    pub(crate) began: bool,
    /// whether the handler was begun and hasn't continued since
    pub(crate) fresh: bool,
    /// how the handler ended, once it has
    pub(crate) outcome: Option<Outcome>,
    pub(crate) machine: Machine,
}

/// How far a script came.
#[derive(Drop)]
pub enum Turn {
    /// to this host call, which it waits on
    Asks(Call),
    AtTick,
    /// to its handler's end
    Ended,
    Faulted(Fault),
    NoMemory,
}

impl Live {
    /// The event that was taken when the script woke: none if it took up a saved handler. Takes no memory.
    pub fn took(&self) -> Option<&Event>
        ensures { option_copied result ≡ taken_by self.now }
    {
        if self.began { Some(&self.event) } else { None }
    }

    /// The current event. Takes no memory.
    pub fn event(&self) -> &Event
        ensures { result.now ≡ self.now.event }
    {
        &self.event
    }

    /// Whether the script, which is at a tick, isn't asleep. Takes no memory.
    pub fn ready(&self, clock: u64) -> bool
        ensures value { result ≡ nat_le self.now.parts.wake clock }
        ensures source { (codes : List Code) (unit : Code) (s : Source) (f : Flight) → Rests codes unit s f self.now →
            result ≡ is_ready clock s }
    {
        self.parts.parts.wake <= clock
    }

    /// Continues to the next tick, call or end. A handler that was just begun passes its first tick too. After
    /// `NoMemory` the script must be dropped.
    #[inline(always)]
    pub fn go(&mut self, unit: &Woven) -> Turn
        requires able { CanRun self.old.machine.standing }
        requires awake { IsAwake unit.now self.old }
        ensures awake { IsAwake unit.now self.new }
        ensures stands { StandsAfter unit.now result self.new }
        ensures beside { IsBeside self.old self.new }
        ensures source { (codes : List Code) (s : Source) (f : Flight) → Lives codes unit.now s f self.old →
            Turns codes unit.now s f result self.new }
        // On integers alone it takes no memory, except to enter a function and to make a host call.
        ensures memory { self.old.fresh ≡ false → TakesNone (bodies_of unit.now) self.old.machine →
            result ≢ Turn.NoMemory }
        // Where it asks and has passed no tick, fewer host calls are ahead of it.
        ensures ahead { self.old.fresh ≡ false → ticks_passed self.old.machine.standing ≡ 0 → (call : Call) →
            result ≡ Turn.Asks call →
            asks_ahead (bodies_of unit.now) self.new.machine < asks_ahead (bodies_of unit.now) self.old.machine }
    {
        if self.fresh {
            self.go_first(unit)
        } else {
            self.go_on(unit)
        }
    }

    /// Passes the current tick, and continues while the machine meets nothing but integers and calls of functions.
    /// Returns whether the script is at a tick again; otherwise it can continue from where it is.
    ///
    /// Takes memory only to enter a function, and stops before it if there is none.
    #[inline(always)]
    pub fn pass_tick(&mut self, unit: &Woven) -> bool
        requires stands { self.old.machine.standing ≡ standings.AtTick }
        requires awake { IsAwake unit.now self.old }
        ensures awake { IsAwake unit.now self.new }
        ensures ticks { result ≡ true → self.new.machine.standing ≡ standings.AtTick }
        ensures able { CanRun self.new.machine.standing }
        ensures beside { IsBeside self.old self.new }
        ensures source { result ≡ true → (codes : List Code) (s : Source) (f : Flight) →
            Rests codes unit.now s f self.old → Turns codes unit.now s f Turn.AtTick self.new }
        ensures goes { result ≡ false → (codes : List Code) (s : Source) (f : Flight) →
            Rests codes unit.now s f self.old → Lives codes unit.now s f self.new }
        ensures fresh { self.new.fresh ≡ self.old.fresh }
        // On integers alone it takes no memory to continue from there, except to enter a function and to make a host
        // call.
        ensures memory { result ≡ false → TakesNone (bodies_of unit.now) self.old.machine →
            TakesNone (bodies_of unit.now) self.new.machine }
    {
        let passed = self.machine.pass_ticks(unit, 1);
        passed.1
    }

    /// Passes the current tick and further ones, at most `most` in all, while the machine meets nothing but integers
    /// and calls of functions. Returns the number of segments that were passed whole, and whether the script is at a
    /// tick again; otherwise it can continue to the end of the next segment.
    ///
    /// Takes memory only to enter a function, and stops before it if there is none.
    #[inline(always)]
    pub fn pass_ticks(&mut self, unit: &Woven, most: u32) -> (u32, bool)
        requires some { 0 < most }
        requires stands { self.old.machine.standing ≡ standings.AtTick }
        requires awake { IsAwake unit.now self.old }
        ensures passed { PassesTo result.1 unit.now result.0 self.old self.new }
        ensures some { result.1 ≡ true → 0 < result.0 }
        ensures most { result.0 ≤ most }
        ensures left { result.1 ≡ false → result.0 < most }
        ensures awake { IsAwake unit.now self.new }
        ensures ticks { result.1 ≡ true → self.new.machine.standing ≡ standings.AtTick }
        ensures able { CanRun self.new.machine.standing }
        ensures beside { IsBeside self.old self.new }
        ensures fresh { self.new.fresh ≡ self.old.fresh }
    {
        let (passed, stands) = self.machine.pass_ticks(unit, most);
        if stands {
            return (passed, true);
        }
        (passed - 1, false)
    }

    /// Continues from where the script woke, as `go` does.
    #[inline(always)]
    pub fn start(&mut self, unit: &Woven) -> Turn
        requires able { CanRun self.old.machine.standing }
        requires awake { IsAwake unit.now self.old }
        requires woken { StandsWoken self.old }
        ensures awake { IsAwake unit.now self.new }
        ensures stands { StandsAfter unit.now result self.new }
        ensures beside { IsBeside self.old self.new }
        ensures source { (codes : List Code) (s : Source) (f : Flight) → Lives codes unit.now s f self.old →
            (self.old.began ≡ false → Rests codes unit.now s f self.old) → Turns codes unit.now s f result self.new }
    {
        if self.began {
            self.go(unit)
        } else {
            self.go_from_tick(unit)
        }
    }

    // From the current tick.
    #[inline(always)]
    fn go_from_tick(&mut self, unit: &Woven) -> Turn
        requires stands { self.old.machine.standing ≡ standings.AtTick }
        requires awake { IsAwake unit.now self.old }
        ensures awake { IsAwake unit.now self.new }
        ensures stands { StandsAfter unit.now result self.new }
        ensures beside { IsBeside self.old self.new }
        ensures source { (codes : List Code) (s : Source) (f : Flight) → Rests codes unit.now s f self.old →
            Turns codes unit.now s f result self.new }
    {
        if self.pass_tick(unit) {
            return Turn::AtTick;
        }
        self.go(unit)
    }

    // From the handler's start: to its first tick, and then on.
    #[inline(always)]
    fn go_first(&mut self, unit: &Woven) -> Turn
        requires fresh { self.old.fresh ≡ true }
        requires able { CanRun self.old.machine.standing }
        requires awake { IsAwake unit.now self.old }
        ensures awake { IsAwake unit.now self.new }
        ensures stands { StandsAfter unit.now result self.new }
        ensures beside { IsBeside self.old self.new }
        ensures source { (codes : List Code) (s : Source) (f : Flight) → Lives codes unit.now s f self.old →
            Turns codes unit.now s f result self.new }
    {
        self.fresh = false;
        match self.machine.run(unit) {
            Halt::AtTick => self.go_on(unit),
            halt => self.halted(halt),
        }
    }

    // From a tick or an answer.
    #[inline(always)]
    fn go_on(&mut self, unit: &Woven) -> Turn
        requires fresh { self.old.fresh ≡ false }
        requires able { CanRun self.old.machine.standing }
        requires awake { IsAwake unit.now self.old }
        ensures awake { IsAwake unit.now self.new }
        ensures stands { StandsAfter unit.now result self.new }
        ensures beside { IsBeside self.old self.new }
        ensures source { (codes : List Code) (s : Source) (f : Flight) → Lives codes unit.now s f self.old →
            Turns codes unit.now s f result self.new }
        ensures memory { TakesNone (bodies_of unit.now) self.old.machine → result ≢ Turn.NoMemory }
        ensures ahead { ticks_passed self.old.machine.standing ≡ 0 → (call : Call) → result ≡ Turn.Asks call →
            asks_ahead (bodies_of unit.now) self.new.machine < asks_ahead (bodies_of unit.now) self.old.machine }
    {
        let halt = self.machine.run(unit);
        self.halted(halt)
    }

    // What a halt of the machine is to the script.
    fn halted(&mut self, halt: Halt) -> Turn
        ensures live { self.new ≡ with_halt halt self.old }
        ensures turn { result ≡ turn_of halt }
    {
        match halt {
            Halt::Asks(call) => Turn::Asks(call),
            Halt::AtTick => Turn::AtTick,
            Halt::Ended(outcome) => {
                self.outcome = Some(outcome);
                Turn::Ended
            }
            Halt::Faulted(fault) => Turn::Faulted(fault),
            Halt::NoMemory => Turn::NoMemory,
        }
    }

    /// Gives the answer to the pending call: a value of the call's result, or none if it has none. Takes no memory.
    pub fn answer(&mut self, value: Option<Value>)
        requires { Wants self.old.machine.standing value }
        ensures able { CanRun self.new.machine.standing }
        ensures awake { (unit : Code) → IsAwake unit self.old → IsAwake unit self.new }
        ensures beside { IsBeside self.old self.new }
        ensures source { (codes : List Code) (unit : Code) (s : Source) (f : Flight) (id : BuiltinId) →
            Waits codes unit s f id self.old → Lives codes unit s (given (reply.Value value) f) self.new }
        ensures begun { (unit : Code) → IsAwake unit self.old → self.new.fresh ≡ false }
        ensures behind { ticks_passed self.new.machine.standing ≡ 0 }
        ensures ahead { (bodies : List Body) →
            asks_ahead bodies self.new.machine ≤ asks_ahead bodies self.old.machine }
    {
        self.machine.answer(value);
    }

    /// Keeps the buffer of a finished call, for the next. Takes no memory.
    #[inline(always)]
    pub fn keep_room(&mut self, call: Call)
        ensures { self.new ≡ self.old }
    {
        self.machine.keep_room(call);
    }

    /// Posts an event, which isn't `state_exit`. Takes no memory; walks the state's handlers, and at a timer event the
    /// queue.
    pub fn post(&mut self, unit: &Woven, event: Event) -> Posted
        requires awake { IsAwake unit.now self.old }
        requires other { is_exit event ≡ false }
        ensures posted { result ≡ posted_to unit.now.states event self.old.parts }
        ensures parts { self.new ≡ record self.old { parts = with_posted unit.now.states event self.old.parts } }
        ensures awake { IsAwake unit.now self.new }
        ensures source { (codes : List Code) (s : Source) (f : Flight) (id : BuiltinId) (number : ℕ) →
            Waits codes unit.now s f id self.old →
            let told = post_to (rules_of codes) number event s in
            Waits codes unit.now told.value f id self.new × (told.entries ≡ entries_of_posting number result) }
    {
        self.parts.parts.post(unit, event)
    }

    /// Its listens. Takes no memory.
    pub fn listens(&mut self) -> &mut Listens
        ensures* lends { sem 𝓛 (LendsListens self.entry result) }
        ensures value { result.now ≡ self.old.parts.listens }
    {
        let parts = &mut self.parts.parts;
        &mut parts.listens
    }

    /// Its timer. Takes no memory.
    pub fn timer(&mut self) -> &mut Timer
        ensures* lends { sem 𝓛 (LendsTimer self.entry result) }
        ensures value { result.now ≡ self.old.parts.timer }
    {
        let parts = &mut self.parts.parts;
        &mut parts.timer
    }

    /// Sets the reading of the clock until which the script sleeps. Takes no memory.
    pub fn nap(&mut self, wake: u64)
        ensures wake { self.new ≡ with_wake wake self.old }
        ensures awake { (unit : Code) → IsAwake unit self.old → IsAwake unit self.new }
        ensures source { (codes : List Code) (unit : Code) (s : Source) (f : Flight) (id : BuiltinId) →
            Waits codes unit s f id self.old → Waits codes unit (napped wake s) f id self.new }
    {
        self.parts.parts.wake = wake;
    }
}
