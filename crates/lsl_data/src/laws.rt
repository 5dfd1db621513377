//! Laws of stores. Each law is a function whose clause is the law; it does nothing.

ghost use Rattle.lsl_data.specs.Laws.{GivenIsRead, NamesAreTexts, ReadsAreLastAccepted, StoresAreKept, TakenIsNotRead};

/// After any commands from an empty store, a read gives the value of the last command on the name that was accepted
/// since the last reset: none if that took the name out, or if there was none.
pub fn reads_are_last_accepted()
    ensures { ReadsAreLastAccepted }
{}

/// After any commands from an empty store, an image may hold the pairs: names rise, no text is empty, and
/// all together have at most 65,536 bytes.
pub fn stores_are_kept()
    ensures { StoresAreKept }
{}

/// A pair that is stored changes the value of its name alone, and so does one that is taken out.
pub fn changes_are_read()
    ensures given { GivenIsRead }
    ensures taken { TakenIsNotRead }
{}

/// Texts are one name where they are the same.
pub fn names_are_texts()
    ensures { NamesAreTexts }
{}
