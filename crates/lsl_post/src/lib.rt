//! What waits for a script and what it waits for: events in a queue, listens and a timer; a script at rest;
//! when scripts are due; and the journal's entries. Nothing here runs a script.
#![tactic(auto)]

mod due;
mod entries;
mod events;
mod filters;
mod listen;
mod listen_table;
mod listens;
mod numbers;
mod parts;
mod queue;
mod timer;
mod timing;

pub use crate::due::Due;
pub use crate::entries::{Entries, Entry, Voice};
pub use crate::events::{Event, Toucher};
pub use crate::filters::Filter;
pub use crate::listen::{Listen, ListenFault};
pub use crate::listens::Listens;
pub use crate::parts::{Pair, Posted, Rest, ScriptParts};
pub use crate::queue::Queue;
pub use crate::timer::Timer;
