//! The outside as the program sees it: files by name, a sink for bytes, a link that carries bytes.
//! Faults are counted, and a call fails only where a count rose. Nothing here reaches the system.
#![tactic(auto)]

mod carrying;
mod memory_link;
mod memory_shelf;
mod memory_sink;
mod reading;
mod writing;

pub use carrying::{Link, LinkFault};
pub use memory_link::{Damage, MemoryLink, Replacement, StoredTrip};
pub use memory_shelf::{MemoryShelf, StoredFile};
pub use memory_sink::MemorySink;
pub use reading::{Shelf, ShelfFault, read_all};
pub use writing::{Sink, write_all};

/// The outside failed in this call, and counted it.
#[derive(Clone, Copy, Debug, PartialEq, Eq)]
pub struct Failed;
