//! A script wakes: it takes its next event and begins the handler, or takes up the one that was saved.

ghost use Rattle.std.specs.Prelude.{◌≡◌, ℕ, Some, None, true, false, is_some, IfOk, IfErr, OnOk};
ghost use Rattle.lsl_code.specs.Frames.{AreValid, points_of};
ghost use Rattle.lsl_code.specs.Kinds.{kinds_of};
ghost use Rattle.lsl_code.specs.Units.{handler_of};
ghost use Rattle.lsl_post.specs.declared.parts.Rest.TheVariants as rests;
ghost use Rattle.lsl_running.specs.Charging.{default_limit};
ghost use Rattle.lsl_machine.specs.State.{CanRun, bodies_of};
ghost use Rattle.lsl_code.specs.Weaves.{Weaves};
ghost use Rattle.lsl_script.specs.Awake.{IsAwake, taken_by};
ghost use Rattle.lsl_script.specs.Codes.{HasUnit, rules_of};
ghost use Rattle.lsl_script.specs.Fitting.{FitsUnit, FitsStates, IsInHand, are_ready, has_handler};
ghost use Rattle.lsl_script.specs.Lawful.{Lawful};
ghost use Rattle.lsl_script.specs.Parts.{parts_of};
ghost use Rattle.lsl_script.specs.Scripts.{Script as Source, state_exit};
ghost use Rattle.lsl_script.specs.Waking.{CanWake, IsEmptied, IsRefused, IsThere, StandsWoken, TakesNext, WakesAs, awake_with, event_in, queue_behind, resting_parts};

use crate::live::Live;
use crate::scripts::{Script, state_exit_event};
use lsl_code::{Sack, Woven};
use lsl_machine::{Machine, Parked};
use lsl_post::{Event, Queue, Rest, ScriptParts};
use lsl_running::Kept;
use lsl_text::NoMemory;
use lsl_value::Values;
use std::alloc::Global;
use std::mem::replace;

/// Why a script doesn't wake.
#[derive(Drop)]
pub enum WakeFault {
    /// it can't run; here it is, unchanged
    NotReady(Script),
    NoMemory,
}

/// A handler that a waking script begins or takes up: the current event, the event's handler, whether it begins, and
/// the machine that runs it.
#[derive(Drop)]
struct Handling {
    event: Event,
    handler: u16,
    began: bool,
    machine: Machine,
}

impl From<NoMemory> for WakeFault {
    ghost use Rattle.std.specs.Prelude.{◌≡◌};
    ghost use Rattle.lsl_script.specs.declared.waking.WakeFault.TheVariants.{NoMemory};

    ghost from_gives = { λ _ e. e ≡ NoMemory };

    fn from(_e: NoMemory) -> WakeFault {
        WakeFault::NoMemory
    }
}

impl Script {
    /// Wakes the script: without a handler in flight it takes its next event, and begins the handler; otherwise it
    /// takes up the one that was saved. After `NoMemory` the script is gone.
    pub fn wake(self, alloc: Global, unit: &Woven, clock: u64) -> Result<Live, WakeFault>
        requires fits { FitsUnit unit.now self }
        requires weaves { Weaves unit.now }
        ensures ready { IfOk result (λ _. are_ready clock self ≡ true) }
        ensures refused { IfErr result (IsRefused clock self) }
        ensures awake { IfOk result (IsAwake unit.now) }
        ensures able { IfOk result (λ live. CanRun live.machine.standing) }
        ensures took { IfOk result (TakesNext unit.now self) }
        ensures source { (codes : _) (s : Source) → HasUnit codes s.code unit.now → self ≡ parts_of codes s →
            Lawful (rules_of codes) s → IfOk result (WakesAs codes unit.now s) }
    {
        if !self.ready(clock) {
            return Err(WakeFault::NotReady(self));
        }
        let mut script = self;
        let handling = Handling::of(alloc, unit, &mut script.parts)?;
        Ok(handling.with(script))
    }

    /// Wakes the script in this seat, which is ready, as `wake` does. It moves from the seat into the buffer; after
    /// `NoMemory` it is gone.
    pub fn wake_into(
        seat: &mut Option<Script>,
        room: &mut Option<Live>,
        alloc: Global,
        unit: &Woven,
    ) -> Result<(), NoMemory>
        requires fits { IsThere seat.old (FitsUnit unit.now) }
        requires ready { IsThere seat.old CanWake }
        requires weaves { Weaves unit.now }
        ensures gone { seat.new ≡ None }
        ensures awake { OnOk result (IsThere room.new (IsAwake unit.now)) }
        ensures able { OnOk result (IsThere room.new (λ live. CanRun live.machine.standing)) }
        ensures stands { OnOk result (IsThere room.new StandsWoken) }
        ensures source { (codes : _) (s : Source) → HasUnit codes s.code unit.now → seat.old ≡ Some (parts_of codes s) →
            Lawful (rules_of codes) s → OnOk result (IsThere room.new (WakesAs codes unit.now s)) }
    {
        let Some(mut script) = seat.take() else {
            unreachable!();
        };
        let handling = Handling::of(alloc, unit, &mut script.parts)?;
        *room = Some(handling.with(script));
        Ok(())
    }
}

impl Handling {
    // Wakes these parts, which are ready; they keep what stays beside the handler.
    fn of(alloc: Global, unit: &Woven, parts: &mut ScriptParts) -> Result<Handling, NoMemory>
        requires fits { FitsUnit unit.now parts.old }
        requires ready { CanWake parts.old }
        requires weaves { Weaves unit.now }
        ensures awake { IfOk result (λ handling. IsAwake unit.now (awake_with parts.new handling)) }
        ensures able { IfOk result (λ handling. CanRun handling.machine.standing) }
        ensures took { IfOk result (λ handling. TakesNext unit.now parts.old (awake_with parts.new handling)) }
        ensures source { (codes : _) (s : Source) → HasUnit codes s.code unit.now → parts.old ≡ parts_of codes s →
            Lawful (rules_of codes) s →
            IfOk result (λ handling. WakesAs codes unit.now s (awake_with parts.new handling)) }
    {
        let kept = Kept {
            globals: replace(&mut parts.globals, Values::new(alloc)),
            limit: parts.limit,
        };
        match replace(&mut parts.rest, Rest::Idle) {
            Rest::Idle => Handling::begin(alloc, unit, parts, kept),
            Rest::Saved(event, sack) => Handling::take_up(alloc, unit, parts, kept, event, sack),
            Rest::Dead(_) => unreachable!(),
        }
    }

    // The next event is taken, and its handler begins.
    fn begin(
        alloc: Global,
        unit: &Woven,
        parts: &mut ScriptParts,
        kept: Kept,
    ) -> Result<Handling, NoMemory>
        requires fits { FitsUnit unit.now (resting_parts parts.old kept rests.Idle) }
        requires due { is_some (event_in parts.old.leaving parts.old.queue) ≡ true }
        requires idle { IsEmptied parts.old }
        ensures awake { IfOk result (λ handling. IsAwake unit.now (awake_with parts.new handling)) }
        ensures able { IfOk result (λ handling. CanRun handling.machine.standing) }
        ensures took { IfOk result (λ handling.
            TakesNext unit.now (resting_parts parts.old kept rests.Idle) (awake_with parts.new handling)) }
        ensures source { (codes : _) (s : Source) → HasUnit codes s.code unit.now →
            resting_parts parts.old kept rests.Idle ≡ parts_of codes s → Lawful (rules_of codes) s →
            IfOk result (λ handling. WakesAs codes unit.now s (awake_with parts.new handling)) }
    {
        let event = next_event(alloc, parts.leaving, &mut parts.queue);
        let handler = handler_of(unit, parts.state, &event);
        let Kept { globals, limit } = kept;
        let machine = Machine::begin(
            alloc,
            unit,
            handler,
            globals,
            limit,
            event.args.copy(alloc)?,
        )?;
        Ok(Handling {
            event,
            handler,
            began: true,
            machine,
        })
    }

    // The handler that was saved is taken up.
    fn take_up(
        alloc: Global,
        unit: &Woven,
        parts: &ScriptParts,
        kept: Kept,
        event: Event,
        sack: Sack,
    ) -> Result<Handling, NoMemory>
        requires fits { FitsUnit unit.now (resting_parts parts.now kept (rests.Saved event sack)) }
        requires idle { IsEmptied parts.now }
        requires weaves { Weaves unit.now }
        ensures awake { IfOk result (λ handling. IsAwake unit.now (awake_with parts.now handling)) }
        ensures able { IfOk result (λ handling. CanRun handling.machine.standing) }
        ensures took { IfOk result (λ handling. TakesNext unit.now
            (resting_parts parts.now kept (rests.Saved event sack)) (awake_with parts.now handling)) }
        ensures source { (codes : _) (s : Source) → HasUnit codes s.code unit.now →
            resting_parts parts.now kept (rests.Saved event sack) ≡ parts_of codes s → Lawful (rules_of codes) s →
            IfOk result (λ handling. WakesAs codes unit.now s (awake_with parts.now handling)) }
    {
        let handler = handler_of(unit, parts.state, &event);
        let mut steps = 0;
        let machine = Machine::restore(alloc, unit, handler, Parked { sack, kept }, &mut steps)?;
        Ok(Handling {
            event,
            handler,
            began: false,
            machine,
        })
    }

    // This script, awake.
    fn with(self, script: Script) -> Live
        ensures { result ≡ awake_with script self }
    {
        let Handling {
            event,
            handler,
            began,
            machine,
        } = self;
        Live {
            parts: script,
            event,
            handler,
            began,
            fresh: began,
            outcome: None,
            machine,
        }
    }
}

// The next event: a script that leaves its state takes its exit before any that waits.
fn next_event(alloc: Global, leaving: Option<u16>, queue: &mut Queue) -> Event
    requires { is_some (event_in leaving queue.old) ≡ true }
    ensures event { event_in leaving queue.old ≡ Some result }
    ensures queue { queue.new ≡ queue_behind leaving queue.old }
{
    match leaving {
        Some(_) => state_exit_event(alloc),
        None => match queue.take() {
            Some(event) => event,
            None => unreachable!(),
        },
    }
}

// The function of the event's handler, which the state has.
fn handler_of(unit: &Woven, state: u16, event: &Event) -> u16
    requires { has_handler unit.now.states state event.now.id ≡ true }
    ensures { handler_of unit.now.states state event.now.id ≡ Some result }
{
    match unit.handler(state, event.id) {
        Some(handler) => handler,
        None => unreachable!(),
    }
}
