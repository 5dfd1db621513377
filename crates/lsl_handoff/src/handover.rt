//! Hands an object over: the notes of its drive go over a link as bytes.

ghost use Rattle.std.specs.Prelude.{◌≡◌, ◌<◌, ◌≤◌, ◌^◌, [], List, ℕ, Option, Some, None, length, option_map, IfOk, IfSome, IsSome, MatchOption, MatchResult, OnErr, OnOk};
ghost use Rattle.lsl_ports.specs.Trips.{Trip, Went};
ghost use Rattle.lsl_handoff.specs.declared.note.Note.{Note as ANote};
ghost use Rattle.lsl_handoff.specs.declared.note.NoteKind.TheVariants.{Offer};
ghost use Rattle.lsl_handoff.specs.Cards.{is_live};
ghost use Rattle.lsl_handoff.specs.Drives.{HasWay, asks, hears, moment};
ghost use Rattle.lsl_handoff.specs.Fields.{HasCard, card_at};
ghost use Rattle.lsl_handoff.specs.Entries.{MayRest, Rests};
ghost use Rattle.lsl_handoff.specs.Handovers.{HasCounts, IsGivenOf, IsHandedOver, IsHeard, IsOneTrip, IsOneTripOrNone, IsTaken, IsToldOf, IsToldWith, IsntHandedOver, Passes, given_by, landed_unless, note_of};
ghost use Rattle.lsl_handoff.specs.NoteBytes.{IsNote, note_bytes};
ghost use Rattle.lsl_handoff.specs.Notes.{offer_of};

use crate::drive::{Drive, Way};
use crate::faults::DepartFault;
use crate::field::Field;
use crate::note::{Note, NoteKind};
use crate::parcel::Parcel;
use crate::reader::read_note;
use crate::writer::write_note;
use lsl_ports::{Link, LinkFault};
use lsl_text::{NoMemory, Refusal};
use std::alloc::{AllocError, Global};

/// What the parcels of offers mean: they are read, but those of own offers needn't be.
pub trait Parcels {
    /// What a parcel means.
    type Parts: Drop;

    ghost objects: { Self → ℕ };

    ghost regions: { Self → ℕ };

    ghost stands: { Self → ANote → Self.Parts → Type 0 };

    ghost is_own: { Self → ANote → Type 0 };

    /// What the parcel of an offer means; none if it means nothing, so that the offer may not be taken.
    fn read(&self, offer: &Note) -> Result<Option<Self::Parts>, NoMemory>
        requires { IsNote (objects self.now) (regions self.now) offer.now }
        ensures { IfOk result (λ parts. MatchOption parts ((p : Self.Parts) → stands self.now offer.now p → ⊥)
            (stands self.now offer.now)) };

    /// What the parcel of an own offer means.
    fn own(&self, offer: &Note) -> Result<Self::Parts, NoMemory>
        requires note { IsNote (objects self.now) (regions self.now) offer.now }
        requires own { is_own self.now offer.now }
        ensures { IfOk result (stands self.now offer.now) };
}

/// What came back: a note, and what its parcel means, if it is an offer.
#[derive(Drop)]
pub struct Back<T: Drop> {
    note: Note,
    parts: Option<T>,
}

/// Starts the object's drive as this parcel, and drives it over the link until it rests.
///
/// Returns the parts from the offer that made it live in the other region, if one did and the object isn't live again
/// where it was. What comes back and can't be read as a note is lost, and so is an offer with a parcel that means
/// nothing; a note that comes back as it was sent isn't read. At most 32 notes are carried.
///
/// When out of memory, the field is somewhere on the way; after another fault it is unchanged, and nothing was carried.
pub fn hand_over<L: Link, P: Parcels>(
    alloc: Global,
    field: &mut Field,
    way: Way,
    parcel: Parcel,
    objects: u32,
    regions: u32,
    parcels: &P,
    link: &mut L,
) -> Result<Option<P::Parts>, DepartFault>
    requires way { HasWay field.old way }
    requires counts { HasCounts objects regions field.old }
    requires short { length parcel < 2 ^ 63 }
    requires parcels { (P.objects parcels.now ≡ objects) × (P.regions parcels.now ≡ regions) }
    requires own { (trip : ℕ) → P.is_own parcels.now (offer_of way.object trip way.from way.to parcel) }
    ensures goes { (trips : List Trip) × Went L.gives (L.trips link.old) (L.trips link.new) trips
        × MatchResult result
        (λ given. (landed : Option ANote)
        × IsHandedOver objects regions (IsTaken (P.stands parcels.now)) way parcel trips field.old field.new landed
        × IsGivenOf (P.stands parcels.now) landed given
        × ((place : ℕ → ℕ) (entries : List (List ℕ))
        → MayRest objects regions (IsTaken (P.stands parcels.now)) place field.old way parcel entries trips
        → Rests objects regions field.old field.new way parcel entries trips landed))
        (IsntHandedOver objects regions (IsTaken (P.stands parcels.now)) way parcel trips field.old field.new) }
    ensures counts { HasCounts objects regions field.new }
    ensures counted { L.faults link.old ≤ L.faults link.new }
{
    let mut drive = Drive::depart(field, way, parcel)?;
    let mut given = None;
    'notes: while let Some(note) = drive.asks(field)? {
        trip_fits(note.trip);
        let back = carry(alloc, note, objects, regions, parcels, link)?;
        given = hear(&mut drive, field, back, given)?;
    }
    drive.rest(field)?;
    Ok(came(given, field, way))
}

// Hears what came back. Returns the parts of the offer, if it made the object live in the other region, or the earlier
// parts.
fn hear<T: Drop>(
    drive: &mut Drive,
    field: &mut Field,
    back: Option<Back<T>>,
    given: Option<T>,
) -> Result<Option<T>, NoMemory>
    requires way { HasWay field.old drive.old.way }
    requires asks { IsSome (asks drive.old.way (moment drive.old field.old)) }
    requires back { IfSome back (λ back. HasCard field.old back.note.object back.note.to) }
    ensures hears { OnOk result
        (moment drive.new field.new ≡ hears drive.old.way (moment drive.old field.old) (note_of back)) }
    ensures given { IfOk result (λ parts. parts ≡ given_by drive.old.way field.old back given) }
    ensures way { drive.new.way ≡ drive.old.way }
    ensures unchanged { OnErr result (field.new ≡ field.old) }
{
    match back {
        Some(Back { note, parts }) => {
            let lands = drive.lands(field, &note);
            drive.hears(field, Some(note))?;
            Ok(if lands { parts } else { given })
        }
        None => {
            drive.hears(field, None)?;
            Ok(given)
        }
    }
}

// What arrived in the other region, unless the object is live again where it was.
fn came<T: Drop>(given: Option<T>, field: &Field, way: Way) -> Option<T>
    requires { HasCard field.now way.object way.from }
    ensures { result ≡ landed_unless (is_live (card_at field.now way.object way.from).phase) given }
{
    if field.is_live(way.from, way.object) {
        None
    } else {
        given
    }
}

// Each trip has a number that fits its field.
fn trip_fits(trip: u64)
    ensures { trip < 2 ^ 64 }
{}

// Carries a note, and returns what came back.
fn carry<L: Link, P: Parcels>(
    alloc: Global,
    note: Note,
    objects: u32,
    regions: u32,
    parcels: &P,
    link: &mut L,
) -> Result<Option<Back<P::Parts>>, NoMemory>
    requires parcels { (P.objects parcels.now ≡ objects) × (P.regions parcels.now ≡ regions) }
    requires note { IsNote objects regions note }
    requires own { note.kind ≡ Offer → P.is_own parcels.now note }
    ensures went { (trips : List Trip) × Went L.gives (L.trips link.old) (L.trips link.new) trips
        × MatchResult result
        (λ back. (bytes : Option (List ℕ)) × IsOneTrip trips (note_bytes note) bytes
        × IsHeard objects regions (IsTaken (P.stands parcels.now)) bytes (note_of back)
        × IsToldWith (P.stands parcels.now) back)
        (λ _. IsOneTripOrNone trips (note_bytes note)) }
    ensures counted { L.faults link.old ≤ L.faults link.new }
{
    let bytes = write_note(alloc, &note)?;
    let Some(back) = carried(alloc, bytes.as_slice(), link)? else {
        return Ok(None);
    };
    if back.as_slice() == bytes.as_slice() {
        Ok(Some(as_sent(note, parcels)?))
    } else {
        read_back(alloc, back.as_slice(), objects, regions, parcels)
    }
}

// A note that came back as it was sent.
fn as_sent<P: Parcels>(note: Note, parcels: &P) -> Result<Back<P::Parts>, NoMemory>
    requires note { IsNote (P.objects parcels.now) (P.regions parcels.now) note }
    requires own { note.kind ≡ Offer → P.is_own parcels.now note }
    ensures { IfOk result (λ back. (back.note ≡ note) × IsToldOf (P.stands parcels.now) note.kind note back.parts) }
{
    let parts = match note.kind {
        NoteKind::Offer => Some(parcels.own(&note)?),
        NoteKind::Taken | NoteKind::Cancel | NoteKind::Refused => None,
    };
    Ok(Back { note, parts })
}

// Sends bytes, and returns those that came back, or none if the link failed.
fn carried<L: Link>(alloc: Global, sent: &[u8], link: &mut L) -> Result<Option<Vec<u8>>, NoMemory>
    ensures went { (trips : List Trip) × Went L.gives (L.trips link.old) (L.trips link.new) trips
        × MatchResult result (λ back. IsOneTrip trips sent.now (option_map (λ b. b.items) back)) (λ _. trips ≡ []) }
    ensures counted { L.faults link.old ≤ L.faults link.new }
{
    match link.carry(alloc, sent) {
        Ok(back) => Ok(Some(back)),
        Err(LinkFault::Failed) => Ok(None),
        Err(LinkFault::NoMemory) => Err(AllocError),
    }
}

// The note of bytes that came back, if they can be read and it may be delivered.
fn read_back<P: Parcels>(
    alloc: Global,
    bytes: &[u8],
    objects: u32,
    regions: u32,
    parcels: &P,
) -> Result<Option<Back<P::Parts>>, NoMemory>
    requires { (P.objects parcels.now ≡ objects) × (P.regions parcels.now ≡ regions) }
    ensures { IfOk result (λ back.
        IsHeard objects regions (IsTaken (P.stands parcels.now)) (Some bytes.now) (note_of back)
        × IsToldWith (P.stands parcels.now) back) }
{
    match read_note(alloc, bytes, objects, regions) {
        Ok(note) => pass(note, parcels),
        Err(Refusal::Fault(_)) => Ok(None),
        Err(Refusal::NoMemory) => Err(AllocError),
    }
}

// The note, unless it is an offer with a parcel that means nothing.
fn pass<P: Parcels>(note: Note, parcels: &P) -> Result<Option<Back<P::Parts>>, NoMemory>
    requires { IsNote (P.objects parcels.now) (P.regions parcels.now) note }
    ensures { IfOk result (λ passed.
        MatchOption passed (Passes (IsTaken (P.stands parcels.now)) note.kind note → ⊥)
        (λ it. (it.note ≡ note) × Passes (IsTaken (P.stands parcels.now)) note.kind note
        × IsToldOf (P.stands parcels.now) note.kind note it.parts)) }
{
    match note.kind {
        NoteKind::Offer => match parcels.read(&note)? {
            Some(parts) => Ok(Some(Back {
                note,
                parts: Some(parts),
            })),
            None => Ok(None),
        },
        NoteKind::Taken | NoteKind::Cancel | NoteKind::Refused => {
            Ok(Some(Back { note, parts: None }))
        }
    }
}
