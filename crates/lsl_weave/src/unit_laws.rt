//! Laws of the woven code of a unit.

ghost use Rattle.lsl_weave.specs.UnitLaws.{AsksAlike, UnitsComeToSame, UnitsGoForward, UnitsMove, UnitsRestore, UnitsRunAlike, UnitsSave, UnitsWeave};

/// The woven code of a unit weaves: saving any machine of it at a tick ends with its frames and the same globals and
/// limit, and restoring any frames that fit ends with the machine that has them, within the bound.
pub fn units_weave()
    ensures save { UnitsSave }
    ensures restore { UnitsRestore }
    ensures back { UnitsMove }
    ensures weaves { UnitsWeave }
{}

/// While it runs, it has the host calls, ticks, ends and faults of the plain code, and goes back only after ticks. A
/// handler of it has the result that it has in the plain code. It has as many instructions that make a host call.
pub fn units_run_alike()
    ensures run { UnitsRunAlike }
    ensures forward { UnitsGoForward }
    ensures whole { UnitsComeToSame }
    ensures asks { AsksAlike }
{}
