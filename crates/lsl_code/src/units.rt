//! Units: the code of a whole script, before code is added that saves and restores its calls.

ghost use Rattle.std.specs.Prelude.{map, IsTrue};
ghost use Rattle.lsl_code.specs.Bodies.{plain_body};
ghost use Rattle.lsl_code.specs.Units.{fits_unit};

use crate::functions::{FunctionCode, StateCode};
use crate::sequence::Sequence;
use lsl_value::Values;

/// A script's code: the digest of its text, the initial globals, its states, beginning with the first, and its
/// functions. Every instruction finds the operands, slots, globals, functions, states and points that it needs.
#[derive(Drop)]
pub struct Unit {
    pub digest: [u8; 32],
    pub globals: Values,
    pub states: Sequence<StateCode>,
    pub functions: Sequence<FunctionCode>,
    pub ghost fits: { IsTrue (fits_unit globals states (map plain_body functions)) },
}
