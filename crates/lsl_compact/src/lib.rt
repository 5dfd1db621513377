//! Lists that take less memory than their length: stacks that share their first elements.
#![tactic(auto)]

mod pieces;
mod stacks;

pub use crate::pieces::{Pieces, PiecesDraft};
pub use crate::stacks::{KindStack, KindStacks, PlacedStacks, Placing};
