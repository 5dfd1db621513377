//! Woven code: a unit's code with code added that saves and restores its own calls.
#![tactic(auto)]

mod blocks;
mod copies;
pub mod laws;
mod numbers;
mod stacks;
mod tables;
pub mod unit_laws;
mod weaving;
pub mod woven_laws;

pub use crate::weaving::{weave, weave_function, weave_functions};
