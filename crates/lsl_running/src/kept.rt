//! What a script keeps from one handler to the next.

use lsl_value::Values;

/// The globals, and the limit of what the script may be charged.
#[derive(Debug, Drop)]
pub struct Kept {
    pub globals: Values,
    pub limit: u32,
}
