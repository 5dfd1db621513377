//! Laws of frames.

ghost use Rattle.lsl_code.specs.FrameLaws.{FramesFit, FramesHaveCalls, StaysChained, TicksHaveFrames};

/// Calls wait for one another, from the innermost to the handler's, and each step leaves them so. A machine of a unit
/// whose calls wait like this at a tick, and in which all kinds are right, has frames, which fit.
pub fn ticks_have_frames()
    ensures chained { StaysChained }
    ensures frames { TicksHaveFrames }
    ensures fit { FramesFit }
{}

/// Frames that fit, as those that `Sack::check` accepts do, are those of a machine of the unit at a tick, in
/// which all kinds are right.
pub fn frames_have_calls()
    ensures calls { FramesHaveCalls }
{}
