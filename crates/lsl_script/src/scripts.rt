//! A script between turns.

ghost use Rattle.std.specs.Prelude.{◌≡◌, ℕ, length, false, IfOk};
ghost use Rattle.std.specs.Borrow.{Lends, sem};
ghost use Rattle.lsl_code.specs.declared.woven_units.Woven.{Woven as Code};
ghost use Rattle.lsl_code.specs.Units.{handler_of};
ghost use Rattle.lsl_post.specs.declared.parts.ScriptParts.{ScriptParts as Parts};
ghost use Rattle.lsl_post.specs.Mailbox.{posted_to, with_posted};
ghost use Rattle.lsl_script.specs.Codes.{HasUnit, rules_of};
ghost use Rattle.lsl_script.specs.Fitting.{FitsUnit, are_ready, is_exit};
ghost use Rattle.lsl_script.specs.Lawful.{Lawful};
ghost use Rattle.lsl_script.specs.Parts.{parts_of};
ghost use Rattle.lsl_post.specs.declared.timer.Timer.{Timer as Ticking};
ghost use Rattle.lsl_post.specs.Timer.{timing_of};
ghost use Rattle.lsl_script.specs.Mailing.{ticking};
ghost use Rattle.lsl_script.specs.Lending.{LendsPartsTimer, parts_with_timer};
ghost use Rattle.lsl_script.specs.Scripts.{Script as Source, entries_of_posting, is_ready, new_script, post_to, state_entry, state_exit};

use lsl_code::Woven;
use lsl_post::{Event, Listens, Posted, Queue, Rest, ScriptParts, Timer};
use lsl_running::DEFAULT_LIMIT;
use lsl_text::NoMemory;
use lsl_value::{EventId, Values};
use std::alloc::Global;
use std::marker::Model;

/// A script between turns, which moves as one pointer. A contract sees its parts.
#[derive(Drop)]
pub struct Script {
    pub(crate) parts: Box<ScriptParts>,
}

impl Model for Script {
    ghost use Rattle.lsl_post.specs.declared.parts.ScriptParts.{ScriptParts as Parts};

    ghost Value = { Parts };

    ghost view = { λ s. s.parts.value };
}

impl Script {
    /// A script at its start, of the unit of this number: it is in its first state, and the entry is posted.
    pub fn new(alloc: Global, number: u32, unit: &Woven) -> Result<Script, NoMemory>
        ensures fits { IfOk result (FitsUnit unit.now) }
        ensures script { (codes : _) → HasUnit codes number unit.now →
            IfOk result (λ script. script ≡ parts_of codes (new_script (rules_of codes) number)) }
        ensures lawful { (codes : _) → HasUnit codes number unit.now →
            Lawful (rules_of codes) (new_script (rules_of codes) number) }
    {
        let mut parts = ScriptParts {
            unit: number,
            globals: unit.globals().copy(alloc)?,
            limit: DEFAULT_LIMIT,
            state: 0,
            leaving: None,
            queue: Queue::new(alloc)?,
            listens: Listens::new(alloc),
            timer: Timer::new(),
            wake: 0,
            rest: Rest::Idle,
        };
        drop(parts.post(unit, entry(alloc)));
        Ok(Script {
            parts: Box::new(alloc, parts)?,
        })
    }

    /// Its parts. Takes no memory.
    pub fn parts(&self) -> &ScriptParts
        ensures { result.now ≡ self.now }
    {
        &self.parts
    }

    /// Sets the script's parts, which fit its unit. Takes no memory.
    pub fn set_parts(&mut self, parts: ScriptParts, unit: &Woven)
        requires { FitsUnit unit.now parts }
        ensures { self.new ≡ parts }
    {
        let _unit = unit;
        *self.parts = parts;
    }

    /// Whether the script can run: it didn't stop, and either its handler in flight isn't asleep, or without one it is
    /// leaving its state or an event waits. Takes no memory.
    pub fn ready(&self, clock: u64) -> bool
        ensures value { result ≡ are_ready clock self.now }
        ensures source { (codes : _) (s : Source) → self.now ≡ parts_of codes s → result ≡ is_ready clock s }
    {
        match &self.parts.rest {
            Rest::Idle => self.parts.leaving.is_some() || self.parts.queue.count() > 0,
            Rest::Saved(_, _) => self.parts.wake <= clock,
            Rest::Dead(_) => false,
        }
    }

    /// Posts an event, which isn't `state_exit`. Takes no memory; walks the state's handlers, and at a timer event the
    /// queue.
    pub fn post(&mut self, unit: &Woven, event: Event) -> Posted
        requires fits { FitsUnit unit.now self.old }
        requires other { is_exit event ≡ false }
        ensures posted { result ≡ posted_to unit.now.states event self.old }
        ensures parts { self.new ≡ with_posted unit.now.states event self.old }
        ensures fits { FitsUnit unit.now self.new }
        ensures source { (codes : _) (s : Source) → HasUnit codes s.code unit.now → self.old ≡ parts_of codes s →
            (number : ℕ) → let told = post_to (rules_of codes) number event s in
            (self.new ≡ parts_of codes told.value) × (told.entries ≡ entries_of_posting number result) }
    {
        self.parts.post(unit, event)
    }

    /// Its timer. Takes no memory.
    pub fn timer(&mut self) -> &mut Timer
        ensures* lends { sem 𝓛 (LendsPartsTimer self.entry result) }
        ensures value { result.now ≡ self.old.timer }
    {
        let parts = &mut self.parts;
        &mut parts.timer
    }
}

/// The event of an entry into a state.
pub fn entry(alloc: Global) -> Event
    ensures { result ≡ state_entry }
{
    Event {
        id: EventId::StateEntry,
        args: Values::new(alloc),
        toucher: None,
    }
}

/// The event of a state's exit.
pub fn state_exit_event(alloc: Global) -> Event
    ensures { result ≡ state_exit }
{
    Event {
        id: EventId::StateExit,
        args: Values::new(alloc),
        toucher: None,
    }
}
