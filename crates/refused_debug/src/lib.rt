//! Public calls of the debugger's crates, each with one clause that its own crate promises. An edit of a body here is a
//! wrong body there, and the clause refuses it.
#![tactic(auto)]

pub mod moves;
pub mod traces;
