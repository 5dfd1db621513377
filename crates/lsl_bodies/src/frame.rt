//! What is visible at a statement.

use crate::names::Names;
use lsl_tree::Place;
use lsl_value::{ConstantId, Kind};

/// Where a variable is kept, and its kind.
#[derive(Clone, Copy)]
pub struct Variable {
    pub place: Place,
    pub kind: Kind,
}

/// The visible variables by number: those of the globals first, and those of the innermost block last.
#[derive(Drop)]
pub struct Scope {
    pub names: Names,
    pub variables: Vec<Variable>,
}

/// What is visible at a place in a function, and what the function has so far.
#[derive(Drop)]
pub struct Frame {
    pub scope: Scope,
    /// The kinds of all slots so far.
    pub slots: Vec<Kind>,
    /// The labels of the enclosing blocks, and those of them that have been passed.
    pub labels: Names,
    pub passed: Names,
    /// The numbers of the innermost block's first variable and first label.
    pub first_variable: usize,
    pub first_label: usize,
}

/// What a body belongs to: a `state` may stand in a handler, and a value may be returned from a function with a kind.
#[derive(Clone, Copy)]
pub enum Home {
    Handler,
    Function { kind: Option<Kind> },
}

/// What a name refers to where no call is meant.
#[derive(Clone, Copy)]
pub enum Target {
    Kept(Variable),
    Fixed(ConstantId),
}
