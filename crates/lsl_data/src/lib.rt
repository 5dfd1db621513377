//! The store of an object: values by name, in rising order of the names' bytes, which cross with their
//! object.
#![tactic(auto)]

mod answers;
pub mod laws;
mod listing;
mod pairs;
mod store;

pub use crate::answers::Wrote;
pub use crate::store::Store;
