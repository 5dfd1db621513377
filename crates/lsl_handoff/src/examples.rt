//! Small runs of the protocol, and the bytes of its notes. Each example is a function whose clauses say it; it does
//! nothing.

ghost use Rattle.std.specs.Prelude.{◌≡◌, [], ◌∷◌, ◌++◌};
ghost use Rattle.lsl_handoff.specs.Examples.{begun, called_back, cancel, cancel_bytes, cancelled, good_handoff, handed_over, late_cancel, lost_answer, offer, offer_bytes, refused, refused_bytes, stale_offer, taken, taken_bytes};
ghost use Rattle.lsl_handoff.specs.NoteBytes.{fields_bytes, head_bytes};
ghost use Rattle.lsl_handoff.specs.Runs.{after};

/// An object is handed over, even if the first answer is lost, or comes only to the cancel.
pub fn handed_over_in_the_end()
    ensures good { after begun good_handoff ≡ record { field = handed_over; sent = offer ∷ taken ∷ [] } }
    ensures lost { after begun lost_answer
        ≡ record { field = handed_over; sent = offer ∷ taken ∷ offer ∷ taken ∷ [] } }
    ensures late { after begun late_cancel
        ≡ record { field = handed_over; sent = offer ∷ taken ∷ cancel ∷ taken ∷ [] } }
{}

/// An object is called back, and an offer of that trip that comes later is refused.
pub fn called_back_for_good()
    ensures cancelled { after begun cancelled
        ≡ record { field = called_back; sent = offer ∷ cancel ∷ refused ∷ [] } }
    ensures stale { after begun stale_offer
        ≡ record { field = called_back; sent = offer ∷ cancel ∷ refused ∷ refused ∷ [] } }
{}

/// An offer of three bytes and its answer, and a cancel and its answer, before their digests: 46 bytes and three times
/// 35, and 78 and 67 with them.
pub fn notes_in_bytes()
    ensures offer { head_bytes 78 ++ fields_bytes offer ≡ offer_bytes }
    ensures taken { head_bytes 67 ++ fields_bytes taken ≡ taken_bytes }
    ensures cancel { head_bytes 67 ++ fields_bytes cancel ≡ cancel_bytes }
    ensures refused { head_bytes 67 ++ fields_bytes refused ≡ refused_bytes }
{}
