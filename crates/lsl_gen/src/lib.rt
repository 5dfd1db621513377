//! The plain code of a checked program, and that it runs as the program's meaning says. Nothing here runs it.
#![tactic(auto)]

mod expressions;
mod functions;
mod globals;
mod jumps;
mod label_places;
mod labels;
pub mod laws;
mod numbers;
mod programs;
mod statements;
mod texts;

pub use crate::programs::generate;
