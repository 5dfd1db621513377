//! A world file from its first line to its last.

ghost use Rattle.std.specs.Prelude.{◌≡◌};
ghost use Rattle.lsl_text.specs.declared.Refusal.TheVariants.{Fault};
ghost use Rattle.lsl_lines.specs.Reads.{GivesFile, refusal_at};
ghost use Rattle.lsl_lines.specs.World.{fault_at, file_of, world_of};

use crate::faults::{FileFault, FileKind};
use crate::file::WorldFile;
use crate::lines::first_line;
use crate::reading::{Part, Reading};
use lsl_text::Refusal;
use std::alloc::Global;

/// How many bytes a file has at most.
const MAX_FILE_BYTES: usize = 1_048_576;

/// The world of a text, or the text's first fault.
#[tactic(auto, unfolding(crate::specs::World::world_of))]
pub fn read_file(alloc: Global, text: &[u8]) -> Result<WorldFile, Refusal<FileFault>>
    ensures { GivesFile result (world_of text.now) }
{
    if text.len() > MAX_FILE_BYTES {
        return Err(fault_at(0, FileKind::TooLong));
    }
    let mut reading = Reading::new(alloc);
    let mut words = Vec::new(alloc);
    let mut number = 1;
    let mut rest = text;
    'lines: while !rest.is_empty() {
        let (line, behind) = first_line(rest);
        if let Err(refusal) = reading.read_line(alloc, line, &mut words) {
            return Err(refused_at(number, refusal));
        }
        number += 1;
        rest = behind;
    }
    ended(number, reading)
}

// What the file gives where it ends.
fn ended(line: u32, reading: Reading) -> Result<WorldFile, Refusal<FileFault>>
    ensures { GivesFile result (file_of line reading.part reading) }
{
    match reading.part {
        Part::Objects => Err(fault_at(line, FileKind::NoBegin)),
        Part::Steps => Err(fault_at(line, FileKind::NoEnd)),
        Part::Ended => Ok(WorldFile {
            objects: reading.objects,
            files: reading.files,
            cards: reading.cards,
            notes: reading.notes,
            steps: reading.steps,
        }),
    }
}

/// The fault of this kind at a line.
fn fault_at(line: u32, kind: FileKind) -> Refusal<FileFault>
    ensures { result ≡ Fault (fault_at line kind) }
{
    Refusal::Fault(FileFault { kind, line })
}

fn refused_at(line: u32, refusal: Refusal<FileKind>) -> Refusal<FileFault>
    ensures { result ≡ refusal_at line refusal }
{
    match refusal {
        Refusal::Fault(kind) => fault_at(line, kind),
        Refusal::NoMemory => Refusal::NoMemory,
    }
}
