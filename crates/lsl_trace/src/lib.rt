//! A trace of a world: which statements its scripts begin, with the values of variables. A run of copies reports it.
#![tactic(auto)]

ghost use Rattle.std.specs.Prelude.{◌≡◌, ◌≤◌};
ghost use Rattle.lsl_ports.specs.Counts.{NoneFell};
ghost use Rattle.lsl_top.specs.Ends.{outside};
ghost use Rattle.lsl_trace.specs.Ended.{Comes, ComesOf, EndsSo, WritesAs, taken};

mod copies;
mod ended;
mod fallback;
mod replaying;
mod script;
mod texts;
mod tildes;
mod tracing;

pub use crate::ended::{Ended, Request};
use crate::replaying::{Replayed, replay_plain};
use crate::tracing::trace_text;
use lsl_ports::{Link, Shelf, Sink, write_all};
use lsl_top::Status;
use std::alloc::Global;

/// Writes the trace of a world.
///
/// The world is run as `replay` runs it, and so are copies of its scripts that report which statement comes. It takes
/// memory for 64 MiB of each journal, for the copies, and for the trace.
pub fn trace<S: Shelf, K: Sink, L: Link>(
    alloc: Global,
    request: &Request<'_>,
    shelf: &mut S,
    sink: &mut K,
    link: &mut L,
) -> Ended
    ensures ended { EndsSo L.gives request.now
        (outside (S.held shelf.old) (S.faults shelf.old) (K.sunk sink.old) (K.faults sink.old)
        (L.trips link.old) (L.faults link.old))
        (taken (K.sunk sink.old) (K.faults sink.old)) (taken (K.sunk sink.new) (K.faults sink.new)) result }
    ensures unchanged { S.held shelf.new ≡ S.held shelf.old }
    ensures counted { NoneFell (S.faults shelf.old) (S.faults shelf.new)
        × (K.faults sink.old ≤ K.faults sink.new)
        × (L.faults link.old ≤ L.faults link.new) }
{
    match replay_plain(alloc, request.world, shelf, link) {
        Ok(run) => trace_run(alloc, request, &run, shelf, sink, link),
        Err(_) => Ended::Refused(Status::NoMemory),
    }
}

/// Writes the trace of a world that was replayed like this, or what it wrote.
fn trace_run<S: Shelf, K: Sink, L: Link>(
    alloc: Global,
    request: &Request<'_>,
    run: &Replayed,
    shelf: &mut S,
    sink: &mut K,
    link: &mut L,
) -> Ended
    ensures ended { ComesOf request.now run.now.status run.now.journal.taken
        (taken (K.sunk sink.old) (K.faults sink.old)) (taken (K.sunk sink.new) (K.faults sink.new)) result }
    ensures unchanged { S.held shelf.new ≡ S.held shelf.old }
    ensures counted { NoneFell (S.faults shelf.old) (S.faults shelf.new)
        × (K.faults sink.old ≤ K.faults sink.new)
        × (L.faults link.old ≤ L.faults link.new) }
{
    match run.status {
        Status::Ok => trace_replayed(alloc, request, run.journal.as_bytes(), shelf, sink, link),
        Status::WriteFault => Ended::TooLong,
        status => write(sink, run.journal.as_bytes(), Ended::Refused(status)),
    }
}

/// Writes the trace of a world with this plain journal.
fn trace_replayed<S: Shelf, K: Sink, L: Link>(
    alloc: Global,
    request: &Request<'_>,
    plain: &[u8],
    shelf: &mut S,
    sink: &mut K,
    link: &mut L,
) -> Ended
    ensures ended { Comes request.now plain.now
        (taken (K.sunk sink.old) (K.faults sink.old)) (taken (K.sunk sink.new) (K.faults sink.new)) result }
    ensures unchanged { S.held shelf.new ≡ S.held shelf.old }
    ensures counted { NoneFell (S.faults shelf.old) (S.faults shelf.new)
        × (K.faults sink.old ≤ K.faults sink.new)
        × (L.faults link.old ≤ L.faults link.new) }
{
    match trace_text(alloc, request, plain, shelf, link) {
        Ok(Some(text)) => write(sink, text.as_slice(), Ended::Told),
        Ok(None) => write(sink, plain, Ended::Refused(Status::Ok)),
        Err(ended) => ended,
    }
}

/// Writes these bytes, and ends with this.
fn write<K: Sink>(sink: &mut K, bytes: &[u8], ended: Ended) -> Ended
    ensures ended { WritesAs bytes.now ended
        (taken (K.sunk sink.old) (K.faults sink.old)) (taken (K.sunk sink.new) (K.faults sink.new)) result }
    ensures counted { K.faults sink.old ≤ K.faults sink.new }
{
    match write_all(sink, bytes) {
        Ok(()) => ended,
        Err(_) => Ended::Refused(Status::WriteFault),
    }
}
