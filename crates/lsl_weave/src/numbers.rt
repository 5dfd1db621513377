//! Numbers that fit into an instruction.

ghost use Rattle.std.specs.Prelude.{◌≡◌, ◌+◌, IfOk};

use lsl_text::NoMemory;
use std::alloc::AllocError;

/// The sum as a place. Out of memory if it doesn't fit.
pub fn plus(place: u32, count: usize) -> Result<u32, NoMemory>
    ensures { IfOk result (λ n. n ≡ place + count) }
{
    match u32::try_from(count) {
        Ok(count) => place.checked_add(count).ok_or(AllocError),
        Err(_) => Err(AllocError),
    }
}

/// The number of a slot or a point. Out of memory if it doesn't fit.
pub fn number(n: usize) -> Result<u16, NoMemory>
    ensures { IfOk result (λ m. m ≡ n) }
{
    match u16::try_from(n) {
        Ok(m) => Ok(m),
        Err(_) => Err(AllocError),
    }
}
