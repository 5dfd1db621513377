//! What a checked script means, evaluated from its text alone: definitions in specs/, and laws over them.
#![tactic(auto)]

pub mod examples;
pub mod laws;
