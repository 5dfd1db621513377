//! Values of the language: integers, strings, keys and lists, and the names of operators, calls, events and constants.
#![tactic(auto)]

mod characters;
mod charges;
mod counted;
mod keys;
mod list;
mod names;
mod operators;
mod shared;
mod tagged;

pub use crate::characters::{MAX_TEXT_BYTES, Text};
pub use crate::charges::{ELEMENT_CHARGE, INT_CHARGE, LIST_CHARGE, MOST_CHARGE, TEXT_CHARGE};
pub use crate::keys::valid_key;
pub use crate::list::{Atom, Items, MAX_ITEMS};
pub use crate::names::{BuiltinId, ConstantId, EventId};
pub use crate::operators::{BinaryOp, UnaryOp};
pub use crate::tagged::{Kind, Value, Values, charge, copy, truth};
