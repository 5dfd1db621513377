//! What a body may call, and which states it may change to.

use crate::names::Names;
use lsl_value::Kind;

/// The kinds of a function's parameters and of its result.
#[derive(Drop)]
pub struct Signature {
    pub params: Vec<Kind>,
    pub result: Option<Kind>,
}

/// Functions by number, and the states but `default`, which has the number 0.
#[derive(Drop)]
pub struct Known {
    pub functions: Names,
    pub signatures: Vec<Signature>,
    pub states: Names,
}
