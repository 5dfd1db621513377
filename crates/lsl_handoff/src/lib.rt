//! The handoff of objects among regions by numbered notes, over a link that loses, repeats and reorders them.
//!
//! A [`Field`] holds the cards of all regions. Each of its calls is one event of the protocol, and no run of events
//! leaves an object live in two regions.
#![tactic(auto)]

mod card;
mod drive;
mod examples;
mod faults;
mod field;
mod handover;
mod laws;
mod note;
mod parcel;
mod reader;
mod seal;
mod writer;

pub use crate::card::{Card, Phase};
pub use crate::drive::{Drive, Way};
pub use crate::examples::{called_back_for_good, handed_over_in_the_end, notes_in_bytes};
pub use crate::faults::{DepartFault, NoteFault};
pub use crate::field::Field;
pub use crate::handover::{Parcels, hand_over};
pub use crate::laws::{
    an_object_is_in_one_place, each_drive_comes_to_rest, notes_are_of_one, notes_or_faults,
};
pub use crate::note::{Note, NoteKind};
pub use crate::parcel::Parcel;
pub use crate::reader::read_note;
pub use crate::writer::write_note;
