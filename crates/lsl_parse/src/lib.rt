//! Token lists as syntax trees, or their first fault: what the readers of `lsl_read` find, or where they stop.
#![tactic(auto)]

mod answer;
mod fault;
pub mod laws;

pub use crate::answer::parse;
pub use crate::fault::{ParseFault, ParseKind};
pub use lsl_signs::{DEPTH, HEIGHT, TOKENS};
