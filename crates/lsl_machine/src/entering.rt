//! The start of a handler, and answers to it.

ghost use Rattle.std.specs.Prelude.{◌≡◌, ◌+◌, ◌≤◌, ◌<◌, List, cond, nat_le, length, slice_get, IfOk, Some, vec_capacity};
ghost use Rattle.lsl_running.specs.Charging.{default_limit};
ghost use Rattle.lsl_running.specs.declared.host.Reply.TheVariants as reply;
ghost use Rattle.lsl_code.specs.Acts.{first_slots};
ghost use Rattle.lsl_code.specs.Bodies.{Body};
ghost use Rattle.lsl_machine.specs.Entry.{Begins, IsReady, went};
ghost use Rattle.lsl_machine.specs.Laid.{Held, IsLaid, kept_of, machine_of};
ghost use Rattle.lsl_machine.specs.State.{AreArguments, bodies_of, replied_to};
ghost use Rattle.lsl_machine.specs.Reservations.{HasEntered, KeepsRoom};
ghost use Rattle.lsl_running.specs.declared.host.Reply.{Reply};

use crate::calls::{behind, push_empties};
use crate::running::{Activation, Running, Step};
use crate::standing::Standing;
use lsl_code::Woven;
use lsl_running::{CALL_CHARGE, Kept, SCRIPT_CHARGE, charged_with_values};
use lsl_text::NoMemory;
use lsl_value::{Value, Values};
use std::alloc::Global;

/// A function before its first tick, and whether it can run: it may be charged more than the limit.
pub fn enter(
    alloc: Global,
    unit: &Woven,
    handler: u16,
    globals: Values,
    limit: u32,
    args: Values,
) -> Result<(Running, Standing), NoMemory>
    requires limit { limit ≤ default_limit }
    requires args { AreArguments (slice_get (bodies_of unit.now) handler) args }
    ensures begun { IfOk result (λ begun. (body : Body) → slice_get (bodies_of unit.now) handler ≡ Some body →
        Begins handler globals limit (first_slots body args) begun.0 begun.1) }
    ensures entered { IfOk result (λ begun. HasEntered (bodies_of unit.now) begun.0) }
{
    let function = &unit.functions.as_slice()[handler as usize];
    let kinds = behind(function.slots.as_slice(), function.params.len());
    let mut stack = args.into_vec();
    push_empties(alloc, &mut stack, kinds, function.most)?;
    let globals = globals.into_vec();
    let charge = charged_with_values(SCRIPT_CHARGE + CALL_CHARGE, stack.as_slice());
    let global_charge = charged_with_values(0, globals.as_slice());
    let running = Running {
        alloc,
        globals,
        global_charge,
        limit,
        active: Activation {
            function: handler,
            place: 0,
            base: 0,
            floor: stack.len(),
            charge,
        },
        callers: Vec::new(alloc),
        stack,
        spare: None,
    };
    Ok((running, standing_within(charge, global_charge, limit)))
}

/// Where a machine is with this charge beside its globals, and that charge of its globals.
fn standing_within(charge: u64, global_charge: u64, limit: u32) -> Standing
    ensures { result ≡ cond (nat_le (charge + global_charge) limit) Standing.Ready Standing.Full }
{
    let limit = u64::from(limit);
    if global_charge <= limit && charge <= limit - global_charge {
        return Standing::Ready;
    }
    Standing::Full
}

impl Running {
    /// Takes the answer to the pending call, and returns where the machine is then. Takes no memory.
    pub fn receive(&mut self, value: Option<Value>) -> Standing
        requires held { Held self.old }
        requires room { length self.old.stack.items < vec_capacity self.old.stack }
        ensures ready { IsReady result }
        ensures laid { IsLaid self.new result }
        ensures room { KeepsRoom self.old self.new }
        ensures went { (more : List Reply) →
            replied_to (reply.Value value) (machine_of self.old).kept more (machine_of self.old).calls
            ≡ went result more (machine_of self.new) }
    {
        match value {
            Some(value) => match self.push(value) {
                Step::Goes => Standing::Ready,
                Step::Faults(_) => Standing::Full,
                _ => unreachable!(),
            },
            None => Standing::Ready,
        }
    }

    /// The globals and the limit.
    pub fn kept(self) -> Kept
        ensures { result ≡ kept_of self }
    {
        let Running { globals, limit, .. } = self;
        Kept {
            globals: Values::from_vec(globals),
            limit,
        }
    }
}
