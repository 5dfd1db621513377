//! Why an operator gives no value.

use std::alloc::AllocError;

/// Why an operator gives no value: a zero divisor, or out of memory.
#[derive(Clone, Copy, Debug, PartialEq, Eq, Hash)]
pub enum OpFault {
    MathError,
    NoMemory,
}

impl From<AllocError> for OpFault {
    ghost use Rattle.std.specs.Prelude.{◌≡◌};
    ghost use Rattle.lsl_ops.specs.declared.faults.OpFault.TheVariants.{NoMemory};

    ghost from_gives = { λ _ e. e ≡ NoMemory };

    fn from(_e: AllocError) -> OpFault {
        OpFault::NoMemory
    }
}
