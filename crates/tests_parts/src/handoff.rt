//! The handoff: notes as bytes, and schedules of a crossing.

pub mod notes;
pub mod schedules;
