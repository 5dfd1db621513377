//! Where a script goes after its handler ended.

ghost use Rattle.std.specs.Prelude.{◌≡◌};
ghost use Rattle.lsl_script.specs.Handlers.{going_from, going_of, going_on};

use lsl_running::Outcome;

/// Where a script goes after its handler ended.
#[derive(Clone, Copy, PartialEq, Eq)]
pub enum Going {
    /// It stays in its state.
    Stays,
    /// It leaves for this state, once the handler of its exit has run.
    Leaves(u16),
    /// It enters this state.
    Enters(u16),
    /// It begins again.
    Restarts,
}

impl Going {
    /// From this state, with a handler of its exit or without; the script may be leaving it already.
    pub fn of(leaving: Option<u16>, state: u16, exits: bool, outcome: Outcome) -> Going
        ensures { result ≡ going_of leaving state exits outcome }
    {
        match leaving {
            Some(to) => Going::on(to, outcome),
            None => Going::from_state(state, exits, outcome),
        }
    }

    fn from_state(state: u16, exits: bool, outcome: Outcome) -> Going
        ensures { result ≡ going_from state exits outcome }
    {
        match outcome {
            Outcome::Return => Going::Stays,
            Outcome::StateTo(to) if to == state => Going::Stays,
            Outcome::StateTo(to) if exits => Going::Leaves(to),
            Outcome::StateTo(to) => Going::Enters(to),
            Outcome::Reset => Going::Restarts,
        }
    }

    fn on(to: u16, outcome: Outcome) -> Going
        ensures { result ≡ going_on to outcome }
    {
        match outcome {
            Outcome::Return | Outcome::StateTo(_) => Going::Enters(to),
            Outcome::Reset => Going::Restarts,
        }
    }
}
