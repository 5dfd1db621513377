//! A replay of a world, over any outside.

ghost use Rattle.std.specs.Prelude.{◌≡◌, ◌≤◌, IfOk, None};
ghost use Rattle.lsl_ports.specs.Counts.{NoneFell};
ghost use Rattle.lsl_top.specs.Ends.{Ends, outside};
ghost use Rattle.lsl_top.specs.Words.{command_of};
ghost use Rattle.lsl_trace.specs.Ended.{Replays, replay_of};

use lsl_ports::{Link, MemorySink, Shelf, Sink};
use lsl_text::NoMemory;
use lsl_top::{Status, lsl};
use std::alloc::Global;

/// How many bytes of a journal are held.
pub const MAX_JOURNAL_BYTES: usize = 67_108_864;

/// How a world's replay ended, and what was written.
#[derive(Drop)]
pub struct Replayed {
    pub status: Status,
    pub journal: MemorySink,
}

/// Replays a world into memory. It takes the memory for the longest journal.
pub fn replay_plain<S: Shelf, L: Link>(
    alloc: Global,
    world: &str,
    shelf: &mut S,
    link: &mut L,
) -> Result<Replayed, NoMemory>
    ensures replays { IfOk result (λ run. Replays L.gives world.now
        (outside (S.held shelf.old) (S.faults shelf.old) None 0 (L.trips link.old) (L.faults link.old))
        run.status run.journal.taken) }
    ensures unchanged { S.held shelf.new ≡ S.held shelf.old }
    ensures counted { NoneFell (S.faults shelf.old) (S.faults shelf.new)
        × (L.faults link.old ≤ L.faults link.new) }
{
    let mut journal = MemorySink::new(alloc, MAX_JOURNAL_BYTES, Vec::new(alloc))?;
    let status = replay(alloc, world, shelf, &mut journal, link)?;
    Ok(Replayed { status, journal })
}

/// Replays a world: every clause of the top call, as one fact. It takes memory for the words.
pub fn replay<S: Shelf, K: Sink, L: Link>(
    alloc: Global,
    world: &str,
    shelf: &mut S,
    sink: &mut K,
    link: &mut L,
) -> Result<Status, NoMemory>
    ensures ends { IfOk result (Ends L.gives (replay_of world.now)
        (outside (S.held shelf.old) (S.faults shelf.old) (K.sunk sink.old) (K.faults sink.old)
        (L.trips link.old) (L.faults link.old))
        (outside (S.held shelf.new) (S.faults shelf.new) (K.sunk sink.new) (K.faults sink.new)
        (L.trips link.new) (L.faults link.new))) }
    ensures unchanged { S.held shelf.new ≡ S.held shelf.old }
    ensures counted { NoneFell (S.faults shelf.old) (S.faults shelf.new)
        × (L.faults link.old ≤ L.faults link.new) }
{
    let words = [
        String::from_str(alloc, "replay")?,
        String::from_str(alloc, world)?,
    ];
    Ok(serve(alloc, &words, shelf, sink, link))
}

/// Runs the command that the words ask for.
fn serve<S: Shelf, K: Sink, L: Link>(
    alloc: Global,
    words: &[String],
    shelf: &mut S,
    sink: &mut K,
    link: &mut L,
) -> Status
    ensures { Ends L.gives (command_of words.now)
        (outside (S.held shelf.old) (S.faults shelf.old) (K.sunk sink.old) (K.faults sink.old)
        (L.trips link.old) (L.faults link.old))
        (outside (S.held shelf.new) (S.faults shelf.new) (K.sunk sink.new) (K.faults sink.new)
        (L.trips link.new) (L.faults link.new)) result }
{
    lsl(alloc, words, shelf, sink, link)
}
