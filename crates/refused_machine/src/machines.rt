//! Clauses of `lsl_machine`.

ghost use Rattle.std.specs.Prelude.{◌≡◌, ◌<◌, ◌≤◌, ◌-◌, IfOk};
ghost use Rattle.lsl_running.specs.Charging.{default_limit};
ghost use Rattle.lsl_code.specs.Frames.{AreValid, points_of};
ghost use Rattle.lsl_code.specs.Kinds.{kinds_of};
ghost use Rattle.lsl_code.specs.ModeRuns.{BackRun, SaveRun};
ghost use Rattle.lsl_machine.specs.CallsRestored.{beside};
ghost use Rattle.lsl_machine.specs.State.{HasEnded, IsOf, bodies_of};
ghost use Rattle.lsl_machine.specs.declared.standing.Standing.TheVariants as standings;

use lsl_code::Woven;
use lsl_machine::{Kept, Machine, Parked};
use lsl_text::NoMemory;
use std::alloc::Global;

/// As `Machine::pass_ticks`.
pub fn passed(machine: &mut Machine, unit: &Woven, ticks: u32) -> (u32, bool)
    requires some { 0 < ticks }
    requires stands { machine.old.standing ≡ standings.AtTick }
    requires of { IsOf unit.now machine.old }
    ensures { result.0 ≤ ticks }
{
    machine.pass_ticks(unit, ticks)
}

/// As `Machine::save`; the allocator is for a wrong body alone.
pub fn saved(alloc: Global, machine: Machine, unit: &Woven) -> Result<Parked, NoMemory>
    requires stands { machine.standing ≡ standings.AtTick }
    requires of { IsOf unit.now machine }
    ensures { IfOk result (λ parked.
        SaveRun (bodies_of unit.now) machine.machine parked.sack (beside parked.kept)) }
{
    let _alloc = alloc;
    machine.save(unit)
}

/// As `Machine::restore`.
pub fn restored(
    alloc: Global,
    unit: &Woven,
    handler: u16,
    parked: Parked,
    steps: &mut u64,
) -> Result<Machine, NoMemory>
    requires valid { AreValid (points_of (bodies_of unit.now)) handler parked.kept.globals parked.kept.limit
        parked.sack }
    requires globals { kinds_of parked.kept.globals ≡ kinds_of unit.now.globals }
    requires limit { parked.kept.limit ≤ default_limit }
    requires steps { steps.old ≤ 9223372036854775807 }
    ensures { IfOk result (λ machine. BackRun (bodies_of unit.now) handler parked.sack
        (beside parked.kept) machine.machine (steps.new - steps.old)) }
{
    Machine::restore(alloc, unit, handler, parked, steps)
}

/// As `Machine::finish`.
pub fn finished(machine: Machine) -> Kept
    requires { HasEnded machine.standing }
    ensures { result ≡ machine.machine.kept }
{
    machine.finish()
}
