//! The code of functions and states.

use crate::instructions::Instr;
use crate::sequence::Sequence;
use lsl_compact::KindStacks;
use lsl_value::{EventId, Kind, Text};

/// A resume point: the kinds of its map, which are the slots and then the waiting operands from the first pushed,
/// and at a call the called function.
#[derive(Drop)]
pub struct Point {
    pub kinds: Sequence<Kind>,
    pub calls: Option<u16>,
}

/// A function's code. `slots` begins with the parameters, `most` is the greatest count of operands, `lines` has each
/// point's line in the text, and `stacks` has, per instruction, the kinds of the operands before it, from the first
/// pushed.
#[derive(Drop)]
pub struct FunctionCode {
    pub name: Text,
    pub params: Sequence<Kind>,
    pub slots: Sequence<Kind>,
    pub result: Option<Kind>,
    pub most: u32,
    pub points: Sequence<Point>,
    pub lines: Sequence<u32>,
    pub code: Sequence<Instr>,
    pub stacks: KindStacks,
}

/// The function that handles an event.
#[derive(Clone, Copy, PartialEq, Eq)]
pub struct Handler {
    pub event: EventId,
    pub function: u16,
}

/// A state with its handlers.
#[derive(Drop)]
pub struct StateCode {
    pub name: Text,
    pub handlers: Sequence<Handler>,
}
