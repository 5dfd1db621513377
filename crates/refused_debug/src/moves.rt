//! Clauses of `lsl_seek`.

ghost use Rattle.std.specs.Prelude.{IfOk};
ghost use Rattle.lsl_seek.specs.Leads.{Leads};

use lsl_seek::{Move, Trace};
use lsl_text::NoMemory;
use std::alloc::Global;

/// As `Trace::find`.
pub fn found(
    alloc: Global,
    trace: &Trace,
    from: usize,
    it: &Move,
) -> Result<Option<usize>, NoMemory>
    ensures { IfOk result (λ found. Leads trace.now it.now from found) }
{
    trace.find(alloc, from, it)
}
