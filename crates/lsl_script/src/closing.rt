//! A handler ends.

ghost use Rattle.std.specs.Prelude.{◌≡◌, ℕ, List, length, Some, IfOk};
ghost use Rattle.lsl_running.specs.declared.ends.Outcome.{Outcome};
ghost use Rattle.lsl_code.specs.declared.woven_units.Woven.{Woven as Code};
ghost use Rattle.lsl_script.specs.Awake.{HasEnded, IsAwake};
ghost use Rattle.lsl_script.specs.Closing.{ClosesAs, begun_again, count_gone, entering, forgotten, going_after, gone_parts, initial_of};
ghost use Rattle.lsl_script.specs.Fitting.{FitsUnit};
ghost use Rattle.lsl_script.specs.Handlers.{resting_charge};
ghost use Rattle.lsl_script.specs.Lives.{Ends};
ghost use Rattle.lsl_script.specs.Resting.{keeping};
ghost use Rattle.lsl_script.specs.Scripts.{Flight, Script as Source};

use crate::going::Going;
use crate::live::Live;
use crate::resting::keep;
use crate::scripts::{Script, entry};
use lsl_code::Woven;
use lsl_post::{Listens, ScriptParts, Timer};
use lsl_running::{DEFAULT_LIMIT, Kept, SCRIPT_CHARGE, charged_with_values};
use lsl_text::NoMemory;
use lsl_value::EventId;
use std::alloc::Global;

/// The result of a handler's end: the script at rest, its charge then, and the number of events that went if it changed
/// its state or began again.
#[derive(Drop)]
pub struct Closed {
    pub script: Script,
    pub charge: u64,
    pub cleared: Option<u32>,
}

impl Live {
    /// The handler has ended.
    pub fn close(self, alloc: Global, unit: &Woven) -> Result<Closed, NoMemory>
        requires awake { IsAwake unit.now self }
        requires ended { HasEnded unit.now self }
        ensures fits { IfOk result (λ closed. FitsUnit unit.now closed.script) }
        ensures charge { IfOk result (λ closed. closed.charge ≡ resting_charge self.machine.machine.kept) }
        ensures parts { (way : Outcome) → self.outcome ≡ Some way → IfOk result (λ closed. closed.script ≡
            gone_parts unit.now (going_after unit.now self.parts way) (keeping self.machine.machine.kept self.parts)) }
        ensures cleared { (way : Outcome) → self.outcome ≡ Some way → IfOk result (λ closed. closed.cleared
            ≡ count_gone (going_after unit.now self.parts way) self.parts.queue) }
        ensures source { (codes : List Code) (s : Source) (f : Flight) (number : ℕ) →
            (ends : Ends codes unit.now s f self) →
            IfOk result (ClosesAs codes number s self.machine.machine.kept ends.way) }
    {
        let Live {
            parts: mut script,
            outcome,
            machine,
            ..
        } = self;
        let Some(outcome) = outcome else {
            unreachable!();
        };
        let kept = machine.finish();
        let charge = charged_with_values(SCRIPT_CHARGE, kept.globals.as_slice());
        let parts = &mut *script.parts;
        keep(parts, kept);
        let exits = unit.handler(parts.state, EventId::StateExit).is_some();
        let going = Going::of(parts.leaving, parts.state, exits, outcome);
        let cleared = go(alloc, unit, parts, going)?;
        Ok(Closed {
            script,
            charge,
            cleared,
        })
    }
}

// Moves the script there. Returns the number of events that went, if any could.
fn go(
    alloc: Global,
    unit: &Woven,
    parts: &mut ScriptParts,
    going: Going,
) -> Result<Option<u32>, NoMemory>
    ensures { IfOk result (λ cleared. (parts.new ≡ gone_parts unit.now going parts.old)
        × (cleared ≡ count_gone going parts.old.queue)) }
{
    match going {
        Going::Stays => Ok(None),
        Going::Leaves(to) => {
            parts.leaving = Some(to);
            Ok(None)
        }
        Going::Enters(to) => Ok(Some(enter(alloc, unit, parts, to))),
        Going::Restarts => Ok(Some(restart(alloc, unit, parts)?)),
    }
}

// Puts the script into this state, and posts the entry. Returns the number of events that went.
fn enter(alloc: Global, unit: &Woven, parts: &mut ScriptParts, to: u16) -> u32
    ensures parts { parts.new ≡ entering unit.now.states to parts.old }
    ensures count { result ≡ length parts.old.queue }
{
    parts.state = to;
    parts.leaving = None;
    parts.listens.clear();
    let count = parts.queue.clear();
    drop(parts.post(unit, entry(alloc)));
    count
}

// Starts the script again. Returns the number of events that went.
fn restart(alloc: Global, unit: &Woven, parts: &mut ScriptParts) -> Result<u32, NoMemory>
    ensures { IfOk result (λ count. (parts.new ≡ begun_again unit.now parts.old) × (count ≡ length parts.old.queue)) }
{
    keep(parts, initial(alloc, unit)?);
    parts.state = 0;
    parts.leaving = None;
    let count = forget(alloc, parts);
    drop(parts.post(unit, entry(alloc)));
    Ok(count)
}

/// Discards all that waits, the listens and the timer. Returns the number of events that went.
pub fn forget(alloc: Global, parts: &mut ScriptParts) -> u32
    ensures parts { parts.new ≡ forgotten parts.old }
    ensures count { result ≡ length parts.old.queue }
{
    parts.listens = Listens::new(alloc);
    parts.timer = Timer::new();
    parts.queue.clear()
}

/// What a script has at its start.
pub fn initial(alloc: Global, unit: &Woven) -> Result<Kept, NoMemory>
    ensures { IfOk result (λ kept. kept ≡ initial_of unit.now) }
{
    Ok(Kept {
        globals: unit.globals().copy(alloc)?,
        limit: DEFAULT_LIMIT,
    })
}
