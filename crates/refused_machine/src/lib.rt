//! Public calls of the crates from charges to scripts, each with one clause that its own crate promises. An edit of a
//! body here is a wrong body there, and the clause refuses it.
#![tactic(auto)]

pub mod code;
pub mod emitting;
pub mod images;
pub mod machines;
pub mod mailbox;
pub mod meaning;
pub mod running;
pub mod scripts;
pub mod stores;
pub mod weaving;
