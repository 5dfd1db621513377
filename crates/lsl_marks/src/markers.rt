//! Markers: where a copy reports, and what.

use crate::variables::Variable;
use lsl_value::Kind;

/// What a marker says.
#[derive(Clone, Copy, Debug, PartialEq, Eq)]
pub enum Moment {
    /// A routine was entered.
    Enter,
    /// A statement is about to begin.
    Statement,
    /// The condition of a loop comes again.
    Again,
    /// The body of a `do` begins.
    Body,
    /// A routine is about to be left.
    Leave,
    /// Only values are reported.
    Note,
}

/// The tick that passes after a marker.
#[derive(Clone, Copy, Debug, PartialEq, Eq)]
pub enum After {
    Nothing,
    /// One passes before the script does anything more.
    Tick,
    /// One passes before the same call's next marker, in a sleep whose time is worked out first.
    Sleep,
}

/// A marker: its script's unit, its routine, its lines, the tick that passes after it, the variables whose values
/// follow, and the locals that can be named there. Before a `return` it has the functions that are called there.
#[derive(Drop)]
pub struct Marker {
    pub moment: Moment,
    pub unit: usize,
    pub routine: usize,
    pub first: u32,
    pub last: u32,
    pub after: After,
    pub says: Vec<Variable>,
    pub names: Vec<Variable>,
    pub calls: Option<Vec<usize>>,
}

/// The word of a kind.
pub fn kind_word(kind: Kind) -> &'static str {
    match kind {
        Kind::Int => "integer",
        Kind::Str => "string",
        Kind::Key => "key",
        Kind::List => "list",
    }
}
