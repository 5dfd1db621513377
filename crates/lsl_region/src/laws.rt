//! Laws of worlds. Each law is a function whose clause is the law; it does nothing.

ghost use Rattle.lsl_value.specs.declared.names.BuiltinId.TheVariants as calls;
ghost use Rattle.lsl_post.specs.declared.entries.Voice.TheVariants as voices;
ghost use Rattle.lsl_region.specs.ChatLaws.{OwnersAreTold, PrimsAreNamed, ScriptsHearByTheirListens, SpeaksAs};
ghost use Rattle.lsl_region.specs.CrossingLaws.{CrossingsAreOneEvent, CrossingsToTheSameRegionAreNone};
ghost use Rattle.lsl_region.specs.CutLaws.{NamesAreLongest, SpeechIsLongest};
ghost use Rattle.lsl_region.specs.Laws.{CutsAreShort, NoSegmentDoesNothing, RegionIsSilentOnZero, RootHasTwoNumbers, ShortTextsAreWhole};
ghost use Rattle.lsl_region.specs.LinkLaws.{ChildrenAreAllButTheRoot, NumbersMeanTheirPrim, OtherNumbersMeanNone, OthersAreAllButTheSender, PrimsAreNumbered, SetIsAll, ThisIsTheSender};
ghost use Rattle.lsl_region.specs.PauseLaws.{NoneIsPausingWithoutGaps, PausesAreSumsOfGaps, TurnsWithoutGapsCountTheirEnds};
ghost use Rattle.lsl_region.specs.TellingLaws.{CallsAreAnswered, NegativeNumbersAreNone, NumbersBeyondAreNone, ObjectIsTold, OtherPlacesAreNobody, OwnPrimIsTold, OwnPrimIsToldByThis, PrimsAreToldByNumber, TouchersAreTold, UntouchedIsNobody};
ghost use Rattle.lsl_region.specs.TouchLaws.{TouchesAreThreeEvents, TouchesGoToThePrim, TouchesGoToTheRoot};

/// A text that is cut has at most the bytes that it may have, and one that is short enough is whole.
pub fn texts_are_cut()
    ensures short { CutsAreShort }
    ensures whole { ShortTextsAreWhole }
{}

/// Nothing is said on channel 0 of a region.
pub fn region_is_silent_on_zero()
    ensures { RegionIsSilentOnZero }
{}

/// 0 and 1 both name the root.
pub fn root_has_two_numbers()
    ensures { RootHasTwoNumbers }
{}

/// A turn of no segments does nothing.
pub fn no_segment_does_nothing()
    ensures { NoSegmentDoesNothing }
{}

/// A segment is pausing exactly where its number is a sum of the first gaps, repeated. Without gaps none is, and a turn
/// counts a save at its end alone.
pub fn pauses_are_sums_of_gaps()
    ensures sums { PausesAreSumsOfGaps }
    ensures none { NoneIsPausingWithoutGaps }
    ensures ends { TurnsWithoutGapsCountTheirEnds }
{}

/// What is said, and a prim's name, is the longest prefix of a text that has at most the bytes it may have.
pub fn longest_beginnings_are_kept()
    ensures speech { SpeechIsLongest }
    ensures names { NamesAreLongest }
{}

/// Whom each link number means: LINK_SET, LINK_ALL_OTHERS, LINK_ALL_CHILDREN, LINK_THIS, and the numbers of prims.
pub fn link_numbers_mean_prims()
    ensures numbered { PrimsAreNumbered }
    ensures all { SetIsAll }
    ensures others { OthersAreAllButTheSender }
    ensures children { ChildrenAreAllButTheRoot }
    ensures this { ThisIsTheSender }
    ensures numbers { NumbersMeanTheirPrim }
    ensures none { OtherNumbersMeanNone }
{}

/// A script reads its own prim and its object, and other prims by their link numbers.
pub fn prims_are_told()
    ensures own { OwnPrimIsTold }
    ensures object { ObjectIsTold }
    ensures numbered { PrimsAreToldByNumber }
    ensures this { OwnPrimIsToldByThis }
    ensures beyond { NumbersBeyondAreNone }
    ensures negative { NegativeNumbersAreNone }
{}

/// Who touched is answered at place 0 alone, and while a touch is handled.
pub fn touchers_are_told()
    ensures toucher { TouchersAreTold }
    ensures other { OtherPlacesAreNobody }
    ensures nobody { UntouchedIsNobody }
{}

/// No host call that only reads the world is forgotten.
pub fn calls_are_answered()
    ensures { CallsAreAnswered }
{}

/// A touch is `touch_start`, `touch` and `touch_end`, for the prim where a script of it handles one of them, otherwise
/// for the root.
pub fn touches_are_three_events()
    ensures events { TouchesAreThreeEvents }
    ensures prim { TouchesGoToThePrim }
    ensures root { TouchesGoToTheRoot }
{}

/// Each call says its text in its own voice, with the name and key of the script's own prim.
pub fn calls_speak_in_their_voices()
    ensures say { SpeaksAs calls.Say voices.Say }
    ensures whisper { SpeaksAs calls.Whisper voices.Whisper }
    ensures shout { SpeaksAs calls.Shout voices.Shout }
    ensures owner { OwnersAreTold }
{}

/// A prim that is named has the name, cut, and keeps its key.
pub fn prims_are_named()
    ensures { PrimsAreNamed }
{}

/// A script hears what another prim than its own says, by any of its listens that asks it.
pub fn scripts_hear_by_their_listens()
    ensures { ScriptsHearByTheirListens }
{}

/// An object that crosses is in the other region, and then its scripts get `changed` with CHANGED_REGION. To
/// the region in which it is, nothing happens.
pub fn crossings_are_one_event()
    ensures elsewhere { CrossingsAreOneEvent }
    ensures here { CrossingsToTheSameRegionAreNone }
{}
