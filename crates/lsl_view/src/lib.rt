//! The call stacks of a world at rest as text: of each script its state, what it rests in and the number of events that
//! wait, and of a handler in flight each active call with its name, its current line and its slots. Nothing here runs a
//! script.
#![tactic(auto)]

mod calls;
mod globals;
mod holding;
mod known;
pub mod laws;
mod mailbox;
mod names;
mod scripts;
mod standing;
mod values;
mod viewing;
mod words;

pub use crate::globals::global_names;
pub use crate::known::{NameList, Names};
pub use crate::names::script_names;
pub use crate::standing::state;
pub use crate::viewing::view;
