//! Numbers that instructions hold. One that is too large for its field is reported as out of memory.

ghost use Rattle.std.specs.Prelude.{◌≡◌, ◌+◌, IfOk};

use lsl_text::NoMemory;
use std::alloc::AllocError;

/// The sum of two counts.
pub fn add(a: usize, b: usize) -> Result<usize, NoMemory>
    ensures { IfOk result (λ n. n ≡ a + b) }
{
    match a.checked_add(b) {
        Some(n) => Ok(n),
        None => Err(AllocError),
    }
}

/// The number of a slot, a global, a function or a state.
pub fn to_u16(n: usize) -> Result<u16, NoMemory>
    ensures { IfOk result (λ m. m ≡ n) }
{
    match u16::try_from(n) {
        Ok(m) => Ok(m),
        Err(_) => Err(AllocError),
    }
}

/// A place, or a count of elements.
pub fn to_u32(n: usize) -> Result<u32, NoMemory>
    ensures { IfOk result (λ m. m ≡ n) }
{
    match u32::try_from(n) {
        Ok(m) => Ok(m),
        Err(_) => Err(AllocError),
    }
}
