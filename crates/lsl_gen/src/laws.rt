//! Laws of the code of programs. Each law is a function whose clause is the law; it does nothing.

ghost use Rattle.lsl_gen.specs.Laws.{CodeRunsAsMeant, UnitsAreWellFormed, AsksSoOften};
ghost use Rattle.lsl_gen.specs.LossLaws.{IsNeverLost};
ghost use Rattle.lsl_code.specs.declared.instructions.Instr.TheVariants.{SetLimit};
ghost use Rattle.lsl_gen.specs.OwnCalls.{FreeMemoryIsTheRest, HasCode, LimitIsKept, LimitIsSet, LimitIsTold, OwnCallsAreThese, UsedMemoryIsTheCharge};
ghost use Rattle.lsl_value.specs.declared.names.BuiltinId.TheVariants.{SetMemoryLimit};

/// A routine's code, run from its start, results in what the routine means.
pub fn code_runs_as_meant()
    ensures { CodeRunsAsMeant }
{}

/// The unit of a program is well formed, where its numbers are small enough.
pub fn units_are_well_formed()
    ensures { UnitsAreWellFormed }
{}

/// A handler that is cut, and continues with one tick more, makes at most this many calls before its next tick.
pub fn a_segment_asks_so_often()
    ensures { AsksSoOften }
{}

/// A routine of a checked program is never lost, where each answer is one to the call that asked for it: it is
/// cut, asks, ends or stops.
pub fn a_program_is_never_lost()
    ensures { IsNeverLost }
{}

/// `llGetUsedMemory` gives all that is charged and `llGetFreeMemory` what the limit leaves of it; `llGetMemoryLimit`
/// gives the limit, and `llSetMemoryLimit` sets it exactly where all that is charged is within it with the answer, and
/// it isn't above the one at the start. Each is an instruction of its own, and has a home in the table that no other
/// call has.
pub fn own_calls_are_named()
    ensures used { UsedMemoryIsTheCharge }
    ensures free { FreeMemoryIsTheRest }
    ensures told { LimitIsTold }
    ensures set { LimitIsSet }
    ensures kept { LimitIsKept }
    ensures code { HasCode SetMemoryLimit SetLimit }
    ensures table { OwnCallsAreThese }
{}
