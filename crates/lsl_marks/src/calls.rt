//! The active calls of a script, as its markers report them.

use crate::markers::{Marker, Moment};
use lsl_text::NoMemory;
use std::alloc::Global;

/// An active call. `is_again` says whether the condition of a loop came last, `sleeps` whether a tick passes before its
/// next marker, and `returning` is the marker of the `return` that was begun.
#[derive(Clone, Copy)]
pub struct Frame {
    pub routine: usize,
    pub serial: u64,
    pub is_again: bool,
    pub sleeps: bool,
    pub returning: Option<usize>,
}

/// A script that runs: its calls, the innermost last, and the ticks that pass when it continues.
#[derive(Drop)]
pub struct Running {
    pub stack: Vec<Frame>,
    pub pending: u64,
}

pub fn idle(alloc: Global, scripts: usize) -> Result<Vec<Running>, NoMemory> {
    let mut running = Vec::new(alloc);
    for _ in 0..scripts {
        running.push(Running {
            stack: Vec::new(alloc),
            pending: 0,
        })?;
    }
    Ok(running)
}

impl Frame {
    /// Whether its `return` was begun, which doesn't call this routine.
    pub fn is_over(&self, markers: &[Marker], routine: usize) -> bool {
        let Some(returning) = self.returning else {
            return false;
        };
        match markers.get(returning) {
            Some(
                Marker {
                    calls: Some(calls),
                    ..
                },
            ) => !calls.contains(&routine),
            _ => false,
        }
    }

    /// Whether it is over at this marker: the marker is of another routine, or a `return` was begun and the marker
    /// isn't the next after its statement's.
    pub fn is_left(&self, number: usize, marker: &Marker) -> bool {
        match self.returning {
            Some(returning) => {
                marker.moment != Moment::Leave || number != returning.saturating_add(1)
            }
            None => self.routine != marker.routine,
        }
    }
}

/// The call that called the innermost one, or 0.
pub fn outer_of(stack: &[Frame]) -> u64 {
    match stack {
        [.., outer, _] => outer.serial,
        _ => 0,
    }
}
