//! The tables of built-in calls, events and constants: names, kinds, homes and values. Nothing here takes memory.
#![tactic(auto)]

mod calls;
mod constants;
mod events;
mod kinds;
pub mod laws;
mod rows;

pub use crate::calls::{BuiltinRow, Home, Row, find};
pub use crate::constants::{ConstantValue, constant, constant_kind, constant_name, constant_value};
pub use crate::events::{event, event_name, signature};
pub use crate::kinds::Kinds;
pub use crate::rows::Rows;
pub use lsl_value::{BuiltinId, ConstantId, EventId};
