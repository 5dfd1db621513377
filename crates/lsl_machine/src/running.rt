//! The handler that runs: one vector for the slots and the operands of all its calls.

use lsl_running::{Call, Fault, Outcome};
use lsl_value::Value;
use std::alloc::Global;

/// A call: where its slots and its operands begin in the one vector, and the charge of all up to it.
#[derive(Clone, Copy)]
pub struct Activation {
    pub function: u16,
    pub place: u32,
    pub base: usize,
    pub floor: usize,
    pub charge: u64,
}

/// The globals with their charge, the limit, the current call, the calls around it from the outermost, and the values
/// of all of them.
#[derive(Drop)]
pub struct Running {
    pub alloc: Global,
    pub globals: Vec<Value>,
    pub global_charge: u64,
    pub limit: u32,
    pub active: Activation,
    pub callers: Vec<Activation>,
    pub stack: Vec<Value>,
    /// a finished call, with a buffer that the next one uses
    pub spare: Option<Call>,
}

impl Running {
    /// Without a call and without globals: a placeholder for a machine that is being saved. Takes no memory.
    pub fn vacant(alloc: Global) -> Running {
        Running {
            alloc,
            globals: Vec::new(alloc),
            global_charge: 0,
            limit: 0,
            active: Activation {
                function: 0,
                place: 0,
                base: 0,
                floor: 0,
                charge: 0,
            },
            callers: Vec::new(alloc),
            stack: Vec::new(alloc),
            spare: None,
        }
    }
}

/// The result of one instruction.
#[derive(Drop)]
pub enum Step {
    Goes,
    Ticks,
    Asks(Call),
    Ends(Outcome),
    Faults(Fault),
    /// No instruction, or one without its operands: no code of a unit gets here.
    Lost,
    NoMemory,
}
