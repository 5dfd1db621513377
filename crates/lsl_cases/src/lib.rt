//! Cases as text: a command, its files, and how it must end. A person can read and extend a file of cases.
#![tactic(auto)]

mod bytes;
mod case;
mod play;
mod telling;

pub use bytes::bytes_of;
pub use case::{Case, Ending, case_of};
pub use play::{Player, play_named};
