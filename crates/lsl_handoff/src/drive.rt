//! A drive: an object goes from a region to another over a link that loses, repeats and reorders notes.

ghost use Rattle.std.specs.Prelude.{◌≡◌, Some, None, IfOk, IfSome, IsSome, MatchResult, OnErr, OnOk, is_some};
ghost use Rattle.lsl_handoff.specs.Cards.{cause, depart_fault};
ghost use Rattle.lsl_handoff.specs.Drives.{HasWay, asks, awaited_in, departed, hears, landing, lands, moment, received, rested, settled};
ghost use Rattle.lsl_handoff.specs.Fields.{HasCard, card_at, does};
ghost use Rattle.lsl_handoff.specs.Rules.{Depart};

use crate::faults::DepartFault;
use crate::field::Field;
use crate::note::{Note, NoteKind};
use crate::parcel::Parcel;
use lsl_text::NoMemory;

/// The most times that a note asks.
const MOST_ROUNDS: u32 = 8;

/// An object that goes, and its two regions.
#[derive(Clone, Copy, PartialEq, Eq)]
pub struct Way {
    pub object: u32,
    pub from: u32,
    pub to: u32,
}

/// A drive between two notes: how often the asking note was carried, the next answer to carry, and the offer that made
/// the object live in the other region.
#[derive(Drop)]
pub struct Drive {
    way: Way,
    rounds: u32,
    reply: Option<Note>,
    landed: Option<Note>,
}

impl Drive {
    /// Starts the drive of the object as this parcel. Takes memory for the parcel; after an error the field is
    /// unchanged.
    pub fn depart(field: &mut Field, way: Way, parcel: Parcel) -> Result<Drive, DepartFault>
        requires { HasWay field.old way }
        ensures ok { IfOk result (λ drive. (drive.way ≡ way) × (moment drive field.new
            ≡ departed (does field.old (Depart way.from way.object way.to parcel)).0)) }
        ensures unchanged { OnErr result (field.new ≡ field.old) }
        ensures first { MatchResult result
            (λ _. depart_fault (card_at field.old way.object way.from) way.from way.to ≡ None)
            (λ fault. depart_fault (card_at field.old way.object way.from) way.from way.to ≡ cause fault) }
    {
        field.depart(way.from, way.object, way.to, parcel)?;
        Ok(Drive {
            way,
            rounds: 0,
            reply: None,
            landed: None,
        })
    }

    /// The note that is carried next: an answer, or the note that asks. None once the object came to rest, or no answer
    /// came to a cancel. Takes memory for an offer's parcel.
    pub fn asks(&self, field: &Field) -> Result<Option<Note>, NoMemory>
        requires { HasWay field.now self.now.way }
        ensures { IfOk result (λ note. note ≡ asks self.now.way (moment self.now field.now)) }
    {
        match &self.reply {
            Some(reply) => Ok(Some(reply.copy()?)),
            None => self.question(field),
        }
    }

    // The note that asks.
    fn question(&self, field: &Field) -> Result<Option<Note>, NoMemory>
        requires way { HasWay field.now self.now.way }
        requires none { self.now.reply ≡ None }
        ensures { IfOk result (λ note. note ≡ asks self.now.way (moment self.now field.now)) }
    {
        if self.rounds < MOST_ROUNDS {
            field.again(self.way.from, self.way.object)
        } else {
            Ok(None)
        }
    }

    // Whether a note is carried next.
    fn is_asking(&self, field: &Field) -> bool
        requires { HasWay field.now self.now.way }
        ensures { result ≡ is_some (asks self.now.way (moment self.now field.now)) }
    {
        self.reply.is_some()
            || (self.rounds < MOST_ROUNDS && field.awaits(self.way.from, self.way.object))
    }

    /// Delivers what came back for the note that was carried. An offer that was carried often enough is called back
    /// then. Takes memory for the parcel of an offer that makes the object live.
    pub fn hears(&mut self, field: &mut Field, back: Option<Note>) -> Result<(), NoMemory>
        requires way { HasWay field.old self.old.way }
        requires asks { IsSome (asks self.old.way (moment self.old field.old)) }
        requires back { IfSome back (λ note. HasCard field.old note.object note.to) }
        ensures hears { OnOk result
            (moment self.new field.new ≡ hears self.old.way (moment self.old field.old) back) }
        ensures way { self.new.way ≡ self.old.way }
        ensures unchanged { OnErr result ((self.new ≡ self.old) × (field.new ≡ field.old)) }
    {
        if let Some(note) = &back {
            self.land(field, note)?;
        }
        let answer = receive(field, back);
        if self.reply.is_some() {
            self.reply = None;
        } else {
            self.rounds += 1;
            self.reply = answer;
        }
        self.settle(field);
        Ok(())
    }

    // Keeps a note that will make the object live in the other region.
    fn land(&mut self, field: &Field, note: &Note) -> Result<(), NoMemory>
        requires { HasWay field.now self.old.way }
        ensures lands { OnOk result (self.new ≡ record self.old {
          landed = landing self.old.way field.now note.now self.old.landed;
        }) }
        ensures unchanged { OnErr result (self.new ≡ self.old) }
    {
        if self.lands(field, note) {
            self.landed = Some(note.copy()?);
        }
        Ok(())
    }

    /// Whether a note will make the object live in the other region. Takes no memory.
    pub(crate) fn lands(&self, field: &Field, note: &Note) -> bool
        requires { HasWay field.now self.now.way }
        ensures { result ≡ lands self.now.way field.now note.now }
    {
        note.object == self.way.object
            && note.to == self.way.to
            && note.kind == NoteKind::Offer
            && field.trip(self.way.to, self.way.object) < note.trip
    }

    // Calls an object back that is still leaving, once nothing is asked any more; then the cancel asks.
    fn settle(&mut self, field: &mut Field)
        requires { HasWay field.old self.old.way }
        ensures settles { moment self.new field.new ≡ settled self.old.way (moment self.old field.old) }
        ensures way { self.new.way ≡ self.old.way }
    {
        if self.is_asking(field) {
            return;
        }
        if field.give_up(self.way.from, self.way.object).is_some() {
            self.rounds = 0;
        }
    }

    /// Ends the drive: nothing is asked any more.
    ///
    /// A cancel without an answer is delivered, and so is its answer, since both regions are in one process. Returns
    /// the offer that made the object live in the other region, if one did.
    pub fn rest(self, field: &mut Field) -> Result<Option<Note>, NoMemory>
        requires way { HasWay field.old self.way }
        requires there { IfSome (awaited_in field.old self.way) (λ note. HasCard field.old note.object note.to) }
        ensures rests { OnOk result (field.new ≡ rested field.old self.way) }
        ensures landed { IfOk result (λ landed. landed ≡ self.landed) }
        ensures unchanged { OnErr result (field.new ≡ field.old) }
    {
        let note = field.again(self.way.from, self.way.object)?;
        let answer = receive(field, note);
        receive(field, answer);
        Ok(self.landed)
    }
}

// Delivers a note, and returns its answer; what was lost does nothing.
fn receive(field: &mut Field, note: Option<Note>) -> Option<Note>
    requires { IfSome note (λ note. HasCard field.old note.object note.to) }
    ensures { received field.old note ≡ (field.new, result) }
{
    match note {
        Some(note) => field.deliver(note),
        None => None,
    }
}
