//! Notes: what one region sends another about an object.

ghost use Rattle.std.specs.Prelude.{◌≡◌, IfOk};

use crate::parcel::Parcel;
use lsl_text::NoMemory;

/// What a note says.
#[derive(Clone, Copy, Debug, PartialEq, Eq)]
pub enum NoteKind {
    /// The object comes as this parcel.
    Offer,
    /// The object was taken.
    Taken,
    /// The object shall not be taken.
    Cancel,
    /// The object won't be taken.
    Refused,
}

/// A note about an object on one of its trips, from a region to another. Regions and objects are numbered from 1. The
/// parcel is empty but in an offer.
#[derive(Drop)]
pub struct Note {
    pub kind: NoteKind,
    pub object: u32,
    pub trip: u64,
    pub from: u32,
    pub to: u32,
    pub parcel: Parcel,
}

impl Note {
    ghost use Rattle.lsl_handoff.specs.Notes.{answer_of, cancel_of, offer_of};

    /// The object of this trip leaves for this region as this parcel.
    pub(crate) fn offer(object: u32, trip: u64, from: u32, to: u32, parcel: Parcel) -> Note
        ensures { result ≡ offer_of object trip from to parcel }
    {
        Note {
            kind: NoteKind::Offer,
            object,
            trip,
            from,
            to,
            parcel,
        }
    }

    /// The object of this trip is called back.
    pub(crate) fn cancel(object: u32, trip: u64, from: u32, to: u32) -> Note
        ensures { result ≡ cancel_of object trip from to }
    {
        Note {
            kind: NoteKind::Cancel,
            object,
            trip,
            from,
            to,
            parcel: Parcel::empty(),
        }
    }

    /// An equal note. Takes memory for its parcel, unless there is none.
    pub fn copy(&self) -> Result<Note, NoMemory>
        ensures { IfOk result (λ note. note ≡ self.now) }
    {
        Ok(Note {
            kind: self.kind,
            object: self.object,
            trip: self.trip,
            from: self.from,
            to: self.to,
            parcel: self.parcel.copy()?,
        })
    }

    /// The answer of this kind to a note.
    pub(crate) fn answer(&self, kind: NoteKind) -> Note
        ensures { result ≡ answer_of kind self.now }
    {
        Note {
            kind,
            object: self.object,
            trip: self.trip,
            from: self.to,
            to: self.from,
            parcel: Parcel::empty(),
        }
    }
}
