//! Scripts with markers: copies that report which statement comes and what values variables have, and the journals of
//! such copies.
#![tactic(auto)]

mod beginnings;
mod blocks;
mod bodies;
mod calls;
mod entries;
mod journal_lines;
mod lines;
mod lists;
mod markers;
mod reader;
mod returns;
mod statements;
mod tiers;
mod tokens;
mod told;
mod units;
mod variables;
mod writer;

pub use crate::entries::{Arrival, Entry, Guilty, Told, Value, What};
pub use crate::journal_lines::told_by_owner;
pub use crate::lines::{
    push_entries, push_files, push_globals, push_marks, push_number, push_text,
};
pub use crate::markers::Marker;
pub use crate::reader::Played;
pub use crate::tiers::Tier;
pub use crate::tokens::Part;
pub use crate::told::{read_plain, read_told};
pub use crate::units::{MAX_SCRIPT_BYTES, Unit};
