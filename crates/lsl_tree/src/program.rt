//! Checked programs: each name is a number, and each value has its kind.

use crate::program_action::Routine;
use lsl_value::{ConstantId, EventId, Kind, Text};

/// A part of a global's initial value.
#[derive(Drop)]
pub enum Part {
    Int { value: i32 },
    /// The integer with the other sign.
    Negative { value: i32 },
    Str { text: Text },
    Constant { id: ConstantId, kind: Kind },
    /// The initial value of an earlier global.
    Global { number: usize, kind: Kind },
}

/// A global's initial value.
#[derive(Drop)]
pub enum Initial {
    Part { part: Part },
    /// The part as a value of this kind.
    Cast { kind: Kind, part: Part },
    List { parts: Vec<Part> },
}

/// A function with its name in the text.
#[derive(Drop)]
pub struct NamedRoutine {
    pub name: Text,
    pub routine: Routine,
}

/// The handler of an event.
#[derive(Drop)]
pub struct EventRoutine {
    pub event: EventId,
    pub routine: Routine,
}

/// A state. The first one of a script has the name `default`.
#[derive(Drop)]
pub struct ProgramState {
    pub name: Text,
    pub handlers: Vec<EventRoutine>,
}

/// A checked script: globals and functions by their numbers, from 0 in text order, and the states, the first of which
/// is `default`.
#[derive(Drop)]
pub struct Program {
    pub globals: Vec<Initial>,
    pub functions: Vec<NamedRoutine>,
    pub states: Vec<ProgramState>,
}
