//! Public calls of the crates from regions to the top call, each with one clause that its own crate promises. An edit
//! of a body here is a wrong body there, and the clause refuses it.
#![tactic(auto)]

pub mod compiler;
pub mod handoff;
pub mod lines;
pub mod regions;
pub mod worlds;
