//! How a handler ends.

/// Why a script stops for good.
#[derive(Clone, Copy, Debug, PartialEq, Eq, Hash)]
pub enum Fault {
    /// a zero divisor
    MathError,
    /// a charge above the script's limit
    StackHeap,
    /// a listen beyond the most that a script has
    TooManyListens,
}

/// How a handler ends that isn't stopped.
#[derive(Clone, Copy, Debug, PartialEq, Eq)]
pub enum Outcome {
    Return,
    /// by going to the state of this number
    StateTo(u16),
    /// by asking for a reset
    Reset,
}
