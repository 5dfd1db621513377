//! What the headers of a script declare.

use lsl_bodies::{Names, Scope, Signature};
use lsl_tree::Initial;

/// What the globals and functions so far declare.
#[derive(Drop)]
pub struct Headers {
    pub scope: Scope,
    pub globals: Vec<Initial>,
    pub functions: Names,
    pub signatures: Vec<Signature>,
}
