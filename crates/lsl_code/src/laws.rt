//! Laws of code and of its runs.

ghost use Rattle.lsl_code.specs.Laws.{AnswersChangeNothing, AsksSoOften, IsStepAndRun, MoreAnswers, MoreTicks, TicksChangeNothing};
ghost use Rattle.lsl_code.specs.Kinded.{BeginsKinded, NothingIsStuck};
ghost use Rattle.lsl_code.specs.WellFormed.{FitsTells, WovenTells};

/// Where control goes back only after ticks, a run is one step, and the run from there.
pub fn runs_are_steps()
    ensures { IsStepAndRun }
{}

/// A run with more ticks is the run with fewer, continued from where it was cut. So more ticks change nothing that
/// wasn't cut.
pub fn more_ticks()
    ensures run { MoreTicks }
    ensures whole { TicksChangeNothing }
{}

/// A run with further answers is the run without them, continued from where it asked. So further answers change nothing
/// that didn't ask.
pub fn more_answers()
    ensures run { MoreAnswers }
    ensures whole { AnswersChangeNothing }
{}

/// Between two ticks a run makes at most 2,048 host calls for each instruction of its code that makes one.
pub fn a_segment_asks_so_often()
    ensures { AsksSoOften }
{}

/// What the types of units keep, plain and woven: each instruction finds what it needs, control goes back only after
/// ticks, each point occurs once, and each handler is a function with its event's parameters.
pub fn units_are_well_formed()
    ensures plain { FitsTells }
    ensures woven { WovenTells }
{}

/// A machine of a unit, plain or woven, never meets a missing or a wrong operand while it runs, if the answers are of
/// their calls' kinds: each step leads to a machine of right kinds, and no run is lost. The machine in which a handler
/// begins is such a machine.
pub fn nothing_is_stuck()
    ensures step { NothingIsStuck }
    ensures beginning { BeginsKinded }
{}
