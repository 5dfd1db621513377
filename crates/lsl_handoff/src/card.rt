//! Cards: what a region knows of an object, and the effect of each event on it.

ghost use Rattle.std.specs.Prelude.{◌≡◌, nat_eq, if◌then◌else◌, is_some, IfOk, MatchResult, OnErr};
ghost use Rattle.lsl_handoff.specs.declared.note.NoteKind.TheVariants.{Offer, Cancel};
ghost use Rattle.lsl_handoff.specs.Cards.{blank, cause, depart_fault, home_card, is_live};
ghost use Rattle.lsl_handoff.specs.Rules.{awaited, call_back, delivered, departs, known_answer, was_refused, was_taken};

use crate::faults::DepartFault;
use crate::note::{Note, NoteKind};
use crate::parcel::Parcel;
use lsl_text::NoMemory;
use std::mem::replace;

/// The state of an object as a region sees it.
#[derive(Drop)]
pub enum Phase {
    /// It isn't here.
    Away,
    /// It is here, and came as this parcel.
    Live(Parcel),
    /// It left for this region as this parcel, and no answer came.
    Leaving(u32, Parcel),
    /// It left for this region as this parcel, was called back, and no answer came.
    Cancelling(u32, Parcel),
}

/// What a region knows of an object: the last trip that it heard of, whether it took the object on that trip, and the
/// object's phase.
#[derive(Drop)]
pub struct Card {
    pub trip: u64,
    pub took: bool,
    pub phase: Phase,
}

impl Card {
    /// The card of an object that was never here.
    pub(crate) fn blank() -> Card
        ensures { result ≡ blank }
    {
        Card {
            trip: 0,
            took: false,
            phase: Phase::Away,
        }
    }

    /// The card of an object that begins here.
    pub(crate) fn home() -> Card
        ensures { result ≡ home_card }
    {
        Card {
            trip: 0,
            took: false,
            phase: Phase::Live(Parcel::empty()),
        }
    }

    /// Whether the object is live here.
    pub(crate) fn is_live(&self) -> bool
        ensures { result ≡ is_live self.now.phase }
    {
        matches!(&self.phase, Phase::Live(_))
    }

    /// The first reason why the object doesn't depart from this region to another.
    fn departure(&self, region: u32, to: u32) -> Result<(), DepartFault>
        ensures { MatchResult result (λ _. depart_fault self.now region to ≡ None)
            (λ fault. depart_fault self.now region to ≡ Some fault) }
    {
        if !self.is_live() {
            return Err(DepartFault::NotLive);
        }
        if to == region {
            return Err(DepartFault::Here);
        }
        if self.trip == u64::MAX {
            return Err(DepartFault::LastTrip);
        }
        Ok(())
    }

    /// The object leaves for another region on its next trip. Takes memory for the note's parcel.
    pub(crate) fn depart(
        &mut self,
        region: u32,
        object: u32,
        to: u32,
        parcel: Parcel,
    ) -> Result<Note, DepartFault>
        ensures ok { IfOk result (λ note. departs self.old region object to parcel ≡ (self.new, Some note)) }
        ensures unchanged { OnErr result (self.new ≡ self.old) }
        ensures first { MatchResult result (λ _. depart_fault self.old region to ≡ None)
            (λ fault. depart_fault self.old region to ≡ cause fault) }
    {
        self.departure(region, to)?;
        let kept = parcel.copy()?;
        let trip = self.trip + 1;
        *self = Card {
            trip,
            took: false,
            phase: Phase::Leaving(to, kept),
        };
        Ok(Note::offer(object, trip, region, to, parcel))
    }

    /// The pending note, once more. Takes memory for its parcel.
    pub(crate) fn again(&self, region: u32, object: u32) -> Result<Option<Note>, NoMemory>
        ensures { IfOk result (λ note. note ≡ awaited self.now.phase self.now.trip region object) }
    {
        match &self.phase {
            Phase::Leaving(to, parcel) => {
                Ok(Some(Note::offer(object, self.trip, region, *to, parcel.copy()?)))
            }
            Phase::Cancelling(to, _) => Ok(Some(Note::cancel(object, self.trip, region, *to))),
            Phase::Away | Phase::Live(_) => Ok(None),
        }
    }

    /// Whether an answer is awaited.
    pub(crate) fn awaits(&self, region: u32, object: u32) -> bool
        ensures { result ≡ is_some (awaited self.now.phase self.now.trip region object) }
    {
        matches!(&self.phase, Phase::Leaving(_, _) | Phase::Cancelling(_, _))
    }

    /// Calls the object back, if it is leaving.
    pub(crate) fn give_up(&mut self, region: u32, object: u32) -> Option<Note>
        ensures { call_back self.old.phase self.old region object ≡ (self.new, result) }
    {
        match replace(&mut self.phase, Phase::Away) {
            Phase::Leaving(to, parcel) => {
                self.phase = Phase::Cancelling(to, parcel);
                Some(Note::cancel(object, self.trip, region, to))
            }
            other => {
                self.phase = other;
                None
            }
        }
    }

    /// Delivers a note. Returns the answer, which an offer and a cancel have.
    pub(crate) fn deliver(&mut self, note: Note) -> Option<Note>
        ensures { delivered note.kind self.old note ≡ (self.new, result) }
    {
        match note.kind {
            NoteKind::Offer => Some(self.offered(note)),
            NoteKind::Cancel => Some(self.called_back(&note)),
            NoteKind::Taken => {
                self.was_taken(note.trip);
                None
            }
            NoteKind::Refused => {
                self.was_refused(note.trip);
                None
            }
        }
    }

    // Delivers an offer. That of a later trip makes the object live.
    fn offered(&mut self, note: Note) -> Note
        ensures { delivered Offer self.old note ≡ (self.new, Some result) }
    {
        if self.trip >= note.trip {
            return self.known_answer(&note);
        }
        let answer = note.answer(NoteKind::Taken);
        *self = Card {
            trip: note.trip,
            took: true,
            phase: Phase::Live(note.parcel),
        };
        answer
    }

    // Delivers a cancel. That of a later trip closes the region to that trip.
    fn called_back(&mut self, note: &Note) -> Note
        ensures { delivered Cancel self.old note.now ≡ (self.new, Some result) }
    {
        if note.trip <= self.trip {
            return self.known_answer(note);
        }
        self.trip = note.trip;
        self.took = false;
        self.phase = Phase::Away;
        note.answer(NoteKind::Refused)
    }

    // The outcome of the trip of a note, which is this card's or an earlier one.
    fn known_answer(&self, note: &Note) -> Note
        ensures { result ≡ known_answer self.now note.now }
    {
        if note.trip < self.trip || self.took {
            note.answer(NoteKind::Taken)
        } else {
            note.answer(NoteKind::Refused)
        }
    }

    // The object was taken on this trip.
    fn was_taken(&mut self, trip: u64)
        ensures { (if nat_eq self.old.trip trip then record self.old { phase = was_taken self.old.phase } else self.old)
            ≡ self.new }
    {
        if trip != self.trip {
            return;
        }
        match self.phase {
            Phase::Leaving(_, _) | Phase::Cancelling(_, _) => self.phase = Phase::Away,
            Phase::Away | Phase::Live(_) => {}
        }
    }

    // The object was refused on this trip.
    fn was_refused(&mut self, trip: u64)
        ensures { (if nat_eq self.old.trip trip then record self.old { phase = was_refused self.old.phase }
            else self.old) ≡ self.new }
    {
        if trip != self.trip {
            return;
        }
        match replace(&mut self.phase, Phase::Away) {
            Phase::Cancelling(_, parcel) => self.phase = Phase::Live(parcel),
            other => self.phase = other,
        }
    }
}
