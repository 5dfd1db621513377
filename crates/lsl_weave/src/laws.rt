//! Laws of woven code.

ghost use Rattle.lsl_weave.specs.Laws.{ChargesAlike, FramesAreCharged, GoesOn, RestoresTheMachine, RunsAlike, SavesItsFrames};

/// Saving a machine at a tick ends with its frames, at any depth of calls, with any operands waiting, and with the same
/// globals and limit.
pub fn frames_saved()
    ensures { SavesItsFrames }
{}

/// Restoring the frames ends with the machine that had them, after at most 16 instructions, 8 a frame and 4 a value.
pub fn frames_restored()
    ensures { RestoresTheMachine }
{}

/// While it runs, woven code has the host calls, ticks, ends and faults of the plain code.
pub fn runs_alike()
    ensures run { RunsAlike }
    ensures on { GoesOn }
{}

/// A machine is charged the same in woven code, and as much as its frames are with the globals.
pub fn charge_stays()
    ensures woven { ChargesAlike }
    ensures frames { FramesAreCharged }
{}
