//! What the functions of a unit take and give, and what can be named in them.

ghost use Rattle.std.specs.Prelude.{◌≡◌, slice_get};
ghost use Rattle.lsl_code.specs.Effects.{arguments_of};

use crate::sequence::Sequence;
use lsl_value::Kind;

/// The kinds of a function's parameters, and that of its result if it has one.
#[derive(Drop)]
pub struct Signature {
    pub params: Sequence<Kind>,
    pub result: Option<Kind>,
}

/// The kinds of the globals, the functions, and the count of the states.
#[derive(Drop)]
pub struct Names {
    pub globals: Sequence<Kind>,
    pub functions: Sequence<Signature>,
    pub states: usize,
}

impl Names {
    /// How many arguments a function takes, and 0 where there is no such function. Takes no memory.
    pub fn argument_count(&self, function: u16) -> usize
        ensures { result ≡ arguments_of (slice_get self.now.functions function) }
    {
        match self.functions.get(function as usize) {
            Some(signature) => signature.params.len(),
            None => 0,
        }
    }
}
