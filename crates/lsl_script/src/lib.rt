//! One script as its text means it: what it does with an event, and what happens to it when a handler ends or stops. A
//! script between turns has no machine: waking restores one from saved calls or begins a handler, and coming to rest
//! saves it.
#![tactic(auto)]

mod closing;
mod failing;
mod going;
pub mod laws;
mod live;
mod resting;
mod scripts;
mod waking;

pub use crate::closing::Closed;
pub use crate::live::{Live, Turn};
pub use crate::scripts::Script;
pub use crate::waking::WakeFault;
pub use lsl_running::{Call, Fault, Outcome, Reply};
