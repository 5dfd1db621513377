//! Clauses of `lsl_script`.

ghost use Rattle.std.specs.Prelude.{◌≡◌, true, Some, IfOk};
ghost use Rattle.lsl_code.specs.Weaves.{Weaves};
ghost use Rattle.lsl_running.specs.declared.ends.Outcome.{Outcome};
ghost use Rattle.lsl_script.specs.Awake.{HasEnded, IsAwake};
ghost use Rattle.lsl_script.specs.Closing.{going_after, gone_parts};
ghost use Rattle.lsl_script.specs.Fitting.{FitsUnit, are_ready};
ghost use Rattle.lsl_script.specs.Resting.{failed_parts, keeping};
ghost use Rattle.lsl_script.specs.Waking.{TakesNext};

use lsl_code::Woven;
use lsl_running::Fault;
use lsl_script::{Closed, Live, Script, WakeFault};
use lsl_text::NoMemory;
use std::alloc::Global;

/// As `Script::wake`.
pub fn woken(script: Script, alloc: Global, unit: &Woven, clock: u64) -> Result<Live, WakeFault>
    requires fits { FitsUnit unit.now script }
    requires weaves { Weaves unit.now }
    ensures ready { IfOk result (λ _. are_ready clock script ≡ true) }
    ensures took { IfOk result (TakesNext unit.now script) }
{
    script.wake(alloc, unit, clock)
}

/// As `Live::close`.
pub fn closed(live: Live, alloc: Global, unit: &Woven) -> Result<Closed, NoMemory>
    requires awake { IsAwake unit.now live }
    requires ended { HasEnded unit.now live }
    ensures { (way : Outcome) → live.outcome ≡ Some way → IfOk result (λ closed. closed.script ≡
        gone_parts unit.now (going_after unit.now live.parts way) (keeping live.machine.machine.kept live.parts)) }
{
    live.close(alloc, unit)
}

/// As `Live::fail`.
pub fn stopped(live: Live, alloc: Global, unit: &Woven, fault: Fault) -> Result<Script, NoMemory>
    requires { IsAwake unit.now live }
    ensures { IfOk result (λ script. script ≡ failed_parts unit.now fault live.parts) }
{
    live.fail(alloc, unit, fault)
}
