//! Laws of woven units, from whatever source.

ghost use Rattle.lsl_weave.specs.ToldLaws.{RestoringIsTold, SavingIsTold};
ghost use Rattle.lsl_weave.specs.WovenLaws.{FramesAreTold, FramesHaveOneMachine, KindedMachinesRest, RestingCallsAreKinded, RestoredRest, SavedFramesFit, WeavingMakesWoven, WovenRestores, WovenSaves};

/// Saving a machine of a woven unit at a tick never gets stuck: it ends, with frames that fit, also where the
/// code keeps the values in an order of its own.
pub fn woven_units_save()
    ensures ends { WovenSaves }
    ensures valid { SavedFramesFit }
{}

/// Restoring frames that fit never gets stuck: it ends with a machine at a tick, with calls that have the kinds of
/// their points.
pub fn woven_units_restore()
    ensures ends { WovenRestores }
    ensures valid { RestoredRest }
{}

/// Machines of a woven unit at a tick, in which all kinds are right, are those with calls that rest at points.
pub fn kinded_machines_rest()
    ensures rest { KindedMachinesRest }
    ensures kinded { RestingCallsAreKinded }
{}

/// The woven code of a well-formed unit is a woven unit's.
pub fn weaving_makes_woven()
    ensures { WeavingMakesWoven }
{}

/// A machine at a tick has one list of frames, and frames are those of one machine at most, in plain and in woven code.
pub fn frames_have_one_machine()
    ensures calls { FramesHaveOneMachine }
    ensures frames { FramesAreTold }
{}

/// While a woven unit's machine saves, the operands of the innermost call have the kinds that its function declares
/// there.
pub fn saving_is_told()
    ensures { SavingIsTold }
{}

/// While frames that fit are restored, up to the end, the operands of the innermost call have the kinds that its
/// function declares there for restoring.
pub fn restoring_is_told()
    ensures { RestoringIsTold }
{}
