//! Fields as bytes, both ways: numbers, texts and values.
//!
//! A `push_` call appends a field. It takes memory where the vector grows, and after an `Err` the vector is unchanged.
//!
//! A `take_` call reads the field at a place: its value and the place after it, or none exactly where no field of that
//! form is there, as at a place past the end. It walks the field once.
#![tactic(auto)]

use lsl_text::NoMemory;

mod elements;
mod examples;
mod laws;
mod numbers;
mod texts;
mod values;

pub use crate::examples::worked_bytes;
pub use crate::laws::bytes_are_of_one_value;
pub use crate::numbers::{
    push_i32, push_u8, push_u16, push_u32, push_u64, take_array, take_i32, take_u8, take_u16,
    take_u32, take_u64,
};
pub use crate::texts::{push_text, take_text};
pub use crate::values::{push_value, take_int, take_value};

/// The result of a call that reads a field and takes memory: the value and the place after it, or none.
pub type Taken<T> = Result<Option<(T, usize)>, NoMemory>;
