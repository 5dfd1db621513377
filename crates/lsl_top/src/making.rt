//! The replay of a world generated from a seed, which writes one line in place of its report.
ghost use Rattle.std.specs.Prelude.{◌≡◌};
ghost use Rattle.lsl_image.specs.Images.{IsIntact};
ghost use Rattle.lsl_made.specs.Walker.{walker_text};
ghost use Rattle.lsl_made.specs.World.{world_text};
ghost use Rattle.lsl_ports.specs.Trips.{Honest};
ghost use Rattle.lsl_top.specs.Answers.{Makes};
ghost use Rattle.lsl_top.specs.Made.{made_name};
ghost use Rattle.lsl_top.specs.Ports.{Concludes, log, wire};

use crate::commands::replay;
use crate::lines::made_line;
use crate::made_shelf::MadeShelf;
use crate::modes::Mode;
use crate::status::Status;
use crate::writing::{status_after, write_line};
use lsl_digest::DigestSink;
use lsl_made::{Made, made};
use lsl_ports::{Link, Sink};
use std::alloc::Global;

/// Replays the world of a seed, and writes the number of lines of its report, and their digest. No line of the report
/// is kept.
pub fn make<K: Sink, L: Link>(alloc: Global, number: u32, sink: &mut K, link: &mut L) -> Status
    ensures { Concludes L.gives (Honest IsIntact) (λ from. Unit {0}) (λ grade from trips. Makes grade from trips number)
        (log (K.sunk sink.old) (K.faults sink.old)) (log (K.sunk sink.new) (K.faults sink.new))
        (wire (L.trips link.old) (L.faults link.old)) (wire (L.trips link.new) (L.faults link.new)) result }
{
    match made(alloc, number) {
        Ok(made) => make_of(alloc, number, &made, sink, link),
        Err(_) => Status::NoMemory,
    }
}

/// Replays the seed's two texts. Where they are refused, the refusal is written as `replay` writes it.
fn make_of<K: Sink, L: Link>(
    alloc: Global,
    number: u32,
    made: &Made,
    sink: &mut K,
    link: &mut L,
) -> Status
    requires world { made.now.world ≡ world_text number }
    requires script { made.now.script ≡ walker_text }
    ensures { Concludes L.gives (Honest IsIntact) (λ from. Unit {0}) (λ grade from trips. Makes grade from trips number)
        (log (K.sunk sink.old) (K.faults sink.old)) (log (K.sunk sink.new) (K.faults sink.new))
        (wire (L.trips link.old) (L.faults link.old)) (wire (L.trips link.new) (L.faults link.new)) result }
{
    let mut shelf = MadeShelf::new(made);
    let mut report = DigestSink::new();
    match replay(alloc, Mode::Whole, "made", &mut shelf, &mut report, link) {
        Status::Ok => status_after(
            write_line(made_line(alloc, number, report), sink),
            Status::Ok,
        ),
        Status::NoMemory => Status::NoMemory,
        _ => replay(alloc, Mode::Whole, "made", &mut shelf, sink, link),
    }
}
