//! Laws of the handoff. Each law is a function whose clause is the law; it does nothing.

ghost use Rattle.lsl_handoff.specs.DriveLaws.{DrivesComeToRest};
ghost use Rattle.lsl_handoff.specs.Laws.{RunsKeepOnePlace};
ghost use Rattle.lsl_handoff.specs.NoteLaws.{NotesAreOne, NotesAreSpelled, NotesHaveNoFault, NotesHaveOneSpelling, OthersHaveOne};

/// After each run, whatever is lost, repeated or late, each object is live in one region at most, as the parcel of its
/// last departure that did something. If it is live in none, some region holds it as that parcel and is leaving or
/// cancelling, at the greatest trip of its cards.
pub fn an_object_is_in_one_place()
    ensures { RunsKeepOnePlace }
{}

/// Each drive comes to rest, if each object was at rest, all earlier notes were past, and nothing came back that wasn't
/// handed over. The object is live in the other region, as the parcel of its departure, exactly if its offer came and
/// not after its cancel, and otherwise where it was; and all notes are past again.
pub fn each_drive_comes_to_rest()
    ensures { DrivesComeToRest }
{}

/// Bytes are those of one note at most, and a note has one spelling.
pub fn notes_are_of_one()
    ensures one { NotesAreOne }
    ensures spelling { NotesHaveOneSpelling }
{}

/// The bytes of a note have no fault, and other bytes have a first one: so a note that was written is read back, and
/// what is read is written as it was.
pub fn notes_or_faults()
    ensures spelled { NotesAreSpelled }
    ensures notes { NotesHaveNoFault }
    ensures others { OthersHaveOne }
{}
