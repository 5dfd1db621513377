//! The limits of a script, and the signs of its grammar with their meaning.
#![tactic(auto)]

mod limits;
mod signs;

pub use crate::limits::{DEPTH, HEIGHT, TOKENS, grammar_limits};
pub use crate::signs::{LEVELS, assign_op, binary_op, level_of, prefix_op, step_op, type_kind};
