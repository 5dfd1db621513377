//! Moves over a trace: from a moment of a run to another one, and what is known there.
//!
//! A trace is text ([`Trace::read`]). Its entries are its moments, counted from 1. A move, as `next` or
//! `until line 7`, leads from one of them to another. Nothing is run.
#![tactic(auto)]

mod aim;
mod bytes;
mod entry;
mod faults;
mod finding;
mod moves;
mod showing;
mod tables;
mod texts;
mod trace;
mod watch;

pub use crate::faults::SeekFault;
pub use crate::moves::Move;
pub use crate::trace::Trace;
use lsl_text::Refusal;
use std::alloc::Global;

/// The lines of the moment of a trace to which a move leads from a moment, or `nowhere`. Without a word they are the
/// lines of the moment itself.
///
/// It takes memory for the tables, for 8 bytes an entry, for the values that a condition asks for, and for the lines.
pub fn seek(
    alloc: Global,
    trace: &[u8],
    moment: usize,
    words: &[String],
) -> Result<Vec<u8>, Refusal<SeekFault>> {
    let trace = Trace::read(alloc, trace)?;
    let found = match words {
        [] => Some(moment),
        _ => trace.find(alloc, moment, &Move::read(words)?)?,
    };
    Ok(trace.show(alloc, found)?)
}

/// A line for each stop of a trace: its moment, step, segment, script, line and sort.
pub fn stops(alloc: Global, trace: &[u8]) -> Result<Vec<u8>, Refusal<SeekFault>> {
    let trace = Trace::read(alloc, trace)?;
    Ok(trace.show_stops(alloc)?)
}
