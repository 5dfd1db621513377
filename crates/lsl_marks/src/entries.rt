//! The entries of a trace.

use crate::variables::Variable;

/// An entry of a trace, or a value that was reported at the entry before.
#[derive(Clone, Copy)]
pub struct Entry<'a> {
    pub step: u64,
    pub segment: u64,
    pub what: What<'a>,
}

/// What happened.
#[derive(Clone, Copy)]
pub enum What<'a> {
    At(Arrival),
    Set(Value<'a>),
    /// A line of the plain journal, without its end.
    Said(&'a [u8]),
}

/// A script reached a marker. `serial` numbers the call that is active, and `outer` the one that called it, or is 0.
#[derive(Clone, Copy)]
pub struct Arrival {
    pub script: usize,
    pub marker: usize,
    pub serial: u64,
    pub outer: u64,
}

/// The value of a variable, in quotes. `serial` numbers its call, and is 0 for a global.
#[derive(Clone, Copy)]
pub struct Value<'a> {
    pub serial: u64,
    pub variable: Variable,
    pub told: &'a [u8],
}

/// What behaved differently than without markers.
#[derive(Clone, Copy, Debug, PartialEq, Eq)]
pub enum Guilty {
    /// The script of this number.
    Script(usize),
    Unknown,
}

/// How the journal of copies was read.
#[derive(Drop)]
pub enum Told<'a> {
    Entries(Vec<Entry<'a>>),
    Differs(Guilty),
}
