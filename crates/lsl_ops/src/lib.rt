//! Operators and casts on values: each gives the value of its row, or `Math Error` at a zero divisor, or reports that
//! it is out of memory.
#![tactic(auto)]

mod binaries;
mod casts;
mod comparisons;
mod faults;
mod integers;
mod sums;

pub use crate::binaries::binary;
pub use crate::casts::cast;
pub use crate::faults::OpFault;
pub use crate::integers::{checked_arithmetic, unary};
