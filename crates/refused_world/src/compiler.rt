//! Clauses of `lsl_build`.

ghost use Rattle.std.specs.Prelude.{IfOk, IsErrOf};
ghost use Rattle.lsl_text.specs.declared.Refusal.TheVariants as refusals;
ghost use Rattle.lsl_tree.specs.Program.{program_of};
ghost use Rattle.lsl_build.specs.Codes.{IsCodeOf};
ghost use Rattle.lsl_build.specs.Faults.{FirstFault};
ghost use Rattle.lsl_build.specs.declared.faults.BuildFault.{BuildFault as Fault};

use lsl_build::{BuildFault, Built, accept, build};
use lsl_text::Refusal;
use lsl_tree::Program;
use std::alloc::Global;

/// As `accept`.
pub fn accepted(alloc: Global, text: &[u8]) -> Result<Program, Refusal<BuildFault>>
    ensures { (fault : Fault) → IsErrOf result (refusals.Fault fault) → FirstFault text.now fault }
{
    accept(alloc, text)
}

/// As `build`.
pub fn built(alloc: Global, text: &[u8]) -> Result<Built, Refusal<BuildFault>>
    ensures { IfOk result (λ b. IsCodeOf text.now (program_of b.program) b.code) }
{
    build(alloc, text)
}
