//! A world of objects and scripts as their texts mean it: what the host answers, what comes from outside, and
//! what a turn of a script does.
#![tactic(auto)]

mod arguments;
mod arrival;
mod chat_calls;
mod chat_index;
mod crossing;
mod events;
mod grid;
mod host_calls;
pub mod laws;
mod links;
mod mailbox_calls;
mod notecard_calls;
mod notice;
mod object_image;
mod objects;
mod outside_events;
mod pause;
mod posting;
mod query_calls;
mod scene;
mod segment;
mod store_calls;
mod texts;
mod timers;
mod turn;

pub use crate::crossing::{Crossed, StayedWhy};
pub use crate::grid::{Grid, Seat};
pub use crate::objects::{Linkset, Primitive, Prims};
pub use crate::pause::Pause;
