//! What a body is checked with.

use crate::frame::Home;
use crate::known::Known;
use std::alloc::Global;

/// Memory, what the headers declare, and what the body belongs to.
#[derive(Drop)]
pub struct Checker<'a> {
    pub alloc: Global,
    pub known: &'a Known,
    pub home: Home,
}
