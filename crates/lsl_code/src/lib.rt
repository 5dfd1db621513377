//! Compiled code: instructions, functions, units that are well formed by their type, drafts of functions, and the
//! results of a machine that runs them (in `specs/`). Nothing here runs a unit.
#![tactic(auto)]

mod blocks;
mod checking;
mod drafts;
mod effects;
mod finishing;
pub mod frame_laws;
mod frames;
mod functions;
mod fused;
mod fused_functions;
mod fusing;
mod fusing_globals;
mod instructions;
pub mod laws;
mod library;
pub mod mode_laws;
mod naming;
mod packs;
mod passages;
mod sacks;
mod sequence;
mod signatures;
mod skipping;
mod tables;
mod units;
mod woven_functions;
mod woven_units;

pub use crate::checking::FrameFault;
pub use crate::drafts::Draft;
pub use crate::finishing::finish;
pub use crate::frames::{Frame, Mark};
pub use crate::functions::{FunctionCode, Handler, Point, StateCode};
pub use crate::fused::Fused;
pub use crate::fused_functions::FusedFunctions;
pub use crate::instructions::Instr;
pub use crate::library::Library;
pub use crate::packs::Pack;
pub use crate::passages::Passage;
pub use crate::sacks::{Laid, Sack};
pub use crate::sequence::Sequence;
pub use crate::signatures::{Names, Signature};
pub use crate::tables::Entrance;
pub use crate::units::Unit;
pub use crate::woven_functions::WovenCode;
pub use crate::woven_units::Woven;
