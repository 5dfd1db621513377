//! Whether a machine can run, and how it halts.

ghost use Rattle.std.specs.Prelude.{◌≡◌};
ghost use Rattle.lsl_machine.specs.Steps.{HasHalted, halt_at};
ghost use Rattle.lsl_machine.specs.State.{standing_of};

use crate::running::Step;
use lsl_running::{Call, Fault, Outcome};
use lsl_value::BuiltinId;

/// Where a machine is between calls.
#[derive(Clone, Copy)]
pub enum Standing {
    /// It was begun or answered, and can run.
    Ready,
    /// It was begun or answered, and is charged more than its limit.
    Full,
    /// It is at a tick, and can run.
    AtTick,
    /// It asked for this host call, and waits for the answer.
    Asking(BuiltinId),
    /// Its handler ended.
    Ended(Outcome),
    /// It faulted or ran out of memory in the middle, and must be dropped.
    Lost,
}

/// Why a run came to a halt.
#[derive(Drop)]
pub enum Halt {
    Asks(Call),
    AtTick,
    Ended(Outcome),
    Faulted(Fault),
    NoMemory,
}

/// The halt that a step results in.
pub fn halt_of(step: Step) -> Halt
    requires { HasHalted step }
    ensures { result ≡ halt_at step }
{
    match step {
        Step::Ticks => Halt::AtTick,
        Step::Asks(call) => Halt::Asks(call),
        Step::Ends(outcome) => Halt::Ended(outcome),
        Step::Faults(fault) => Halt::Faulted(fault),
        Step::NoMemory => Halt::NoMemory,
        Step::Goes | Step::Lost => unreachable!(),
    }
}

/// Where a machine is after a halt.
pub fn standing_at(halt: &Halt) -> Standing
    ensures { result ≡ standing_of halt.now }
{
    match halt {
        Halt::Asks(call) => Standing::Asking(call.id()),
        Halt::AtTick => Standing::AtTick,
        Halt::Ended(outcome) => Standing::Ended(*outcome),
        Halt::Faulted(_) | Halt::NoMemory => Standing::Lost,
    }
}
