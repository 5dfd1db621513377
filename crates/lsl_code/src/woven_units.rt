//! Woven units: units with code that saves and restores their own calls.

ghost use Rattle.std.specs.Prelude.{◌≡◌, map, length, IsTrue, option_copied};
ghost use Rattle.lsl_code.specs.Fits.{all_places};
ghost use Rattle.lsl_code.specs.Frames.{points_of};
ghost use Rattle.lsl_code.specs.ModeStacks.{tells_modes};
ghost use Rattle.lsl_code.specs.Units.{handler_in, handler_of};
ghost use Rattle.lsl_code.specs.Woven.{is_woven};
ghost use Rattle.lsl_code.specs.WovenBodies.{woven_body};

use crate::functions::{Handler, Point, StateCode};
use crate::fused_functions::FusedFunctions;
use crate::sequence::Sequence;
use lsl_value::{EventId, Values};

/// A script's code as it is run: the digest of its text, the initial globals, its states, beginning with the first, and
/// its functions.
///
/// While it runs, every instruction finds the operands, slots, globals, functions, states and points that it needs.
/// From each tick and each call the code saves the call there, with each slot and each waiting operand once. From its
/// start it restores a call at each point, each value to one of its kind. The code decides which of two values of one
/// kind goes where.
#[derive(Drop)]
pub struct Woven {
    pub digest: [u8; 32],
    pub globals: Values,
    pub states: Sequence<StateCode>,
    pub functions: FusedFunctions,
    pub ghost woven: { IsTrue (is_woven globals states (map woven_body functions)) },
    pub ghost modes: { IsTrue (all_places tells_modes 0 functions) },
}

impl Woven {
    /// How many states there are. Takes no memory.
    pub fn states(&self) -> u16
        ensures { result ≡ length self.now.states }
    {
        self.states.len() as u16
    }

    /// The initial globals. Takes no memory.
    pub fn globals(&self) -> &Values
        ensures { result.now ≡ self.now.globals }
    {
        &self.globals
    }

    /// The digest of the script's text. Takes no memory.
    pub fn digest(&self) -> &[u8; 32]
        ensures { result.now ≡ self.now.digest }
    {
        &self.digest
    }

    /// The point of this number of this function, if there is one. Takes no memory.
    pub fn point(&self, function: u16, point: u16) -> Option<&Point>
        ensures { option_copied result ≡ points_of (map woven_body self.now.functions) function point }
    {
        self.functions
            .get(function as usize)?
            .points
            .get(point as usize)
    }

    /// The function of the state's handler of this event, if it has one. Takes no memory; walks the state's handlers.
    pub fn handler(&self, state: u16, event: EventId) -> Option<u16>
        ensures { result ≡ handler_of self.now.states state event }
    {
        let state = self.states.get(state as usize)?;
        handler(state.handlers.as_slice(), event)
    }
}

// The function of the first handler of this event.
fn handler(handlers: &[Handler], event: EventId) -> Option<u16>
    ensures { result ≡ handler_in handlers.now event }
{
    for handler in handlers {
        if handler.event == event {
            return Some(handler.function);
        }
    }
    None
}
