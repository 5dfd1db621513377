//! String and list calls: the value of each, or that it is too big.
//!
//! [`call`] takes a pure call's arguments and answers with its value. It looks at nothing else and changes nothing.
#![tactic(auto)]

use lsl_text::NoMemory;
use std::alloc::AllocFailed;

mod arguments;
mod bounds;
mod csv;
mod cuts;
mod dispatch;
mod elements;
mod firsts;
mod joining;
pub mod laws;
mod list_cuts;
mod marks;
mod parsing;
mod ranges;
mod reaching;
mod searching;
mod spelling;

pub use crate::dispatch::{answer, call};

/// Why a pure call has no value: it is charged more than 65,536, or memory is wanting.
#[derive(Clone, Copy, Debug, PartialEq, Eq, Drop)]
pub enum PureFault {
    TooBig,
    NoMemory,
}

impl From<NoMemory> for PureFault {
    ghost use Rattle.std.specs.Prelude.{◌≡◌};
    ghost use Rattle.lsl_pure.specs.declared.PureFault.TheVariants.{NoMemory};

    ghost from_gives = { λ _ e. e ≡ NoMemory };

    fn from(_e: NoMemory) -> PureFault {
        PureFault::NoMemory
    }
}

impl<T: Drop> From<AllocFailed<T>> for PureFault {
    ghost use Rattle.std.specs.Prelude.{◌≡◌};
    ghost use Rattle.lsl_pure.specs.declared.PureFault.TheVariants.{NoMemory};

    ghost from_gives = { λ _ e. e ≡ NoMemory };

    fn from(_e: AllocFailed<T>) -> PureFault {
        PureFault::NoMemory
    }
}
