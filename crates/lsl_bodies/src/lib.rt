//! The checker of bodies: the meaning of a function's or handler's body, or its first fault of names and kinds.
#![tactic(auto)]

mod assignments;
mod blocks;
mod calls;
mod checker;
mod conversions;
mod declarations;
mod effects;
mod faults;
mod forms;
mod frame;
mod known;
mod leaving;
mod names;
mod operators;
mod places;
mod routine;
mod scope;
mod spans;
mod statements;
mod table;
mod values;
mod variables;

pub use crate::checker::Checker;
pub use crate::faults::{Refused, TypeFault, TypeKind, fault};
pub use crate::frame::{Frame, Home, Scope, Variable};
pub use crate::known::{Known, Signature};
pub use crate::names::Names;
pub use crate::spans::{atom_span, initial_span};
pub use crate::table::{constant, constant_kind, event, event_params, is_reserved};
