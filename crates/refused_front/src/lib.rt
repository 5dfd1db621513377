//! Public calls of the crates up to the compiler, each with one clause of its contract: an edit of a body here is a
//! wrong body of that call, which the clause must refuse.
#![tactic(auto)]

pub mod ports;
pub mod pure;
pub mod stored;
pub mod tables;
pub mod texts;
pub mod trees;
pub mod values;
