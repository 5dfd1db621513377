//! Bytes and places: source spans, refusals, a cursor, and the forms of numbers and quoted texts.
//!
//! Nothing here takes memory but [`push_decimal`] and [`push_quoted`], by growing the vector that they
//! are given.
#![tactic(auto)]

use std::alloc::{AllocError, AllocFailed};

mod cursor;
mod number;
mod quote;

pub use crate::cursor::Cursor;
pub use crate::number::{behind_blanks, is_blank, leading_integer, push_decimal};
pub use crate::quote::push_quoted;

/// Out of memory: the allocator's error.
pub type NoMemory = AllocError;

/// A part of a source text: the bytes from `start` up to `end`, and the line and the column of `start`.
/// Lines and columns count from 1, and a column is a byte.
#[derive(Clone, Copy, Debug, PartialEq, Eq)]
pub struct Span {
    pub start: u32,
    pub end: u32,
    pub line: u32,
    pub col: u32,
}

/// Why there is no answer: a fault of the input, or out of memory.
#[derive(Clone, Copy, Debug, PartialEq, Eq, Drop)]
pub enum Refusal<F> {
    Fault(F),
    NoMemory,
}

impl<F> From<AllocError> for Refusal<F> {
    ghost use Rattle.std.specs.Prelude.{◌≡◌};
    ghost use Rattle.lsl_text.specs.declared.Refusal.TheVariants.{NoMemory};

    ghost from_gives = { λ _ e. e ≡ NoMemory };

    fn from(_e: AllocError) -> Refusal<F> {
        Refusal::NoMemory
    }
}

impl<F, T: Drop> From<AllocFailed<T>> for Refusal<F> {
    ghost use Rattle.std.specs.Prelude.{◌≡◌};
    ghost use Rattle.lsl_text.specs.declared.Refusal.TheVariants.{NoMemory};

    ghost from_gives = { λ _ e. e ≡ NoMemory };

    fn from(_e: AllocFailed<T>) -> Refusal<F> {
        Refusal::NoMemory
    }
}
