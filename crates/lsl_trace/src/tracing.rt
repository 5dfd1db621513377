//! The text of a world's trace, from its plain journal.

ghost use Rattle.std.specs.Prelude.{◌≡◌, ◌≤◌, IfErr, IfSome, MatchResult};
ghost use Rattle.lsl_ports.specs.Counts.{NoneFell};
ghost use Rattle.lsl_trace.specs.Early.{StopsEarly};
ghost use Rattle.lsl_trace.specs.Texts.{Traces};

use crate::copies::Counted;
use crate::ended::{Ended, Request};
use crate::fallback::{Settled, World};
use crate::script::{read_units, scripts_of};
use crate::texts::{bare_text, whole_text};
use crate::tildes::{tildes, tildes_of_files, tildes_told};
use lsl_lines::{WorldFile, read_world};
use lsl_marks::Unit;
use lsl_ports::{Link, Shelf, read_all};
use lsl_text::Refusal;
use lsl_top::Status;
use std::alloc::Global;

/// How many bytes of a world file are read.
const MAX_WORLD_BYTES: u64 = 1_048_576;

/// The text of the trace of a world with this plain journal; none if the journal isn't lines.
pub fn trace_text<S: Shelf, L: Link>(
    alloc: Global,
    request: &Request<'_>,
    plain: &[u8],
    shelf: &mut S,
    link: &mut L,
) -> Result<Option<Vec<u8>>, Ended>
    ensures told { MatchResult result (λ found. IfSome found
        (λ text. Traces request.now.first request.now.last plain.now text.items)) StopsEarly }
    ensures unchanged { S.held shelf.new ≡ S.held shelf.old }
    ensures counted { NoneFell (S.faults shelf.old) (S.faults shelf.new)
        × (L.faults link.old ≤ L.faults link.new) }
{
    let bytes = read_all(alloc, shelf, request.world, MAX_WORLD_BYTES)?;
    let file = read_file(alloc, bytes.as_slice())?;
    let mut units = read_units(alloc, shelf, &file)?;
    let scripts = scripts_of(alloc, &file)?;
    let touched = tildes(alloc, tildes_of_files(&file))?;
    let mark = tildes(alloc, tildes_told(plain))?;
    let world = World {
        name: request.world,
        file: bytes.as_slice(),
        scripts: scripts.as_slice(),
        counted: Counted {
            objects: file.objects.len(),
            scripts: scripts.len(),
            touched: touched.as_slice(),
        },
        plain,
        mark: mark.as_slice(),
    };
    settled_text(alloc, request, units.as_mut_slice(), &world, shelf, link)
}

/// The world of a file, which was replayed.
fn read_file(alloc: Global, bytes: &[u8]) -> Result<WorldFile, Ended>
    ensures { IfErr result StopsEarly }
{
    match read_world(alloc, bytes) {
        Ok(file) => Ok(file),
        Err(Refusal::NoMemory) => Err(Ended::Refused(Status::NoMemory)),
        Err(Refusal::Fault(_)) => Err(Ended::Refused(Status::ReadFault)),
    }
}

/// Runs copies, and returns the text of what they reported.
fn settled_text<S: Shelf, L: Link>(
    alloc: Global,
    request: &Request<'_>,
    units: &mut [Unit],
    world: &World<'_>,
    shelf: &mut S,
    link: &mut L,
) -> Result<Option<Vec<u8>>, Ended>
    ensures told { MatchResult result (λ found. IfSome found
        (λ text. Traces request.now.first request.now.last world.now.plain.now text.items)) StopsEarly }
    ensures unchanged { S.held shelf.new ≡ S.held shelf.old }
    ensures counted { NoneFell (S.faults shelf.old) (S.faults shelf.new)
        × (L.faults link.old ≤ L.faults link.new) }
{
    match world.settle(alloc, units, shelf, link)? {
        Settled::TooLong => Err(Ended::TooLong),
        Settled::Nothing => Ok(bare_text(alloc, request, units, world)?),
        Settled::Held(held) => Ok(whole_text(alloc, request, units, world, &held)?),
    }
}
