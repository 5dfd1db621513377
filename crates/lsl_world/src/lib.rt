//! Runs of world files as the texts of their scripts mean them: the start, what each step does, and where each object
//! is in the end.
#![tactic(auto)]

mod freezing;
mod handing;
mod homes;
pub mod laws;
mod naming;
mod parting;
mod rounds;
mod starting;
mod stepping;
mod timers;
mod world;

pub use crate::world::World;
