//! Why there is no answer.

use lsl_text::Refusal;
use std::fmt;

/// What is wrong with a trace or with the words of a move.
#[derive(Clone, Copy, Debug, PartialEq, Eq, Drop)]
pub enum SeekFault {
    /// The line of the trace with this number, from 1, isn't one of a trace.
    Line(usize),
    /// The words are no move.
    Move,
}

impl fmt::Display for SeekFault {
    fn fmt<W: fmt::Write>(&self, f: &mut fmt::Formatter<W>) -> fmt::Result {
        match self {
            SeekFault::Line(number) => write!(f, "line {number} of the trace is none of a trace"),
            SeekFault::Move => write!(f, "no such move"),
        }
    }
}

pub const NO_MOVE: Refusal<SeekFault> = Refusal::Fault(SeekFault::Move);
