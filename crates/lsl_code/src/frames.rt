//! Saved calls.

use lsl_value::Values;

/// A saved call: its function, its point, and the values of that point's map, which are its slots and then its waiting
/// operands from the first pushed.
#[derive(Drop)]
pub struct Frame {
    pub function: u16,
    pub point: u16,
    pub slots: Values,
}

/// A saved call with values among those of others: its function, its point, and the place after its values.
#[derive(Clone, Copy)]
pub struct Mark {
    pub function: u16,
    pub point: u16,
    pub end: usize,
}
