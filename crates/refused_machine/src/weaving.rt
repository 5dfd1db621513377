//! Clauses of `lsl_weave`.

ghost use Rattle.std.specs.Prelude.{◌≡◌, IfOk};
ghost use Rattle.lsl_weave.specs.Weaving.{woven_function};

use lsl_code::{FunctionCode, WovenCode};
use lsl_text::NoMemory;
use lsl_weave::weave_function;
use std::alloc::Global;

/// As `weave_function`.
pub fn code_with_saves(alloc: Global, function: FunctionCode) -> Result<WovenCode, NoMemory>
    ensures { IfOk result (λ woven. woven ≡ woven_function function) }
{
    weave_function(alloc, function)
}
