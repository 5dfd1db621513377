//! What is written, and the result of writing.
ghost use Rattle.std.specs.Prelude.{◌≡◌, ℕ, List, IfOk};
ghost use Rattle.lsl_lines.specs.Journal.{lines_of};
ghost use Rattle.lsl_top.specs.Ports.{Writes, log, status_after as the_status_after};
ghost use Rattle.lsl_top.specs.declared.writing.Trouble.TheVariants.{NoMemory as MemoryTrouble, WriteFault as WriteTrouble};

use crate::status::Status;
use lsl_lines::push_lines;
use lsl_ports::{Failed, Sink, write_all};
use lsl_post::Entry;
use lsl_text::NoMemory;
use std::alloc::AllocError;

/// Why not all was written.
#[derive(Clone, Copy, PartialEq, Eq)]
pub enum Trouble {
    /// The sink failed.
    WriteFault,
    /// There was no memory.
    NoMemory,
}

impl From<Failed> for Trouble {
    ghost from_gives = { λ _ trouble. trouble ≡ WriteTrouble };

    fn from(_: Failed) -> Trouble {
        Trouble::WriteFault
    }
}

impl From<AllocError> for Trouble {
    ghost from_gives = { λ _ trouble. trouble ≡ MemoryTrouble };

    fn from(_: AllocError) -> Trouble {
        Trouble::NoMemory
    }
}

/// The status of what was written: this one where all of it was.
pub fn status_after(written: Result<(), Trouble>, status: Status) -> Status
    ensures { result ≡ the_status_after written status }
{
    match written {
        Ok(()) => status,
        Err(Trouble::WriteFault) => Status::WriteFault,
        Err(Trouble::NoMemory) => Status::NoMemory,
    }
}

/// Writes bytes. Takes no memory.
pub fn write_bytes<K: Sink>(bytes: &[u8], sink: &mut K) -> Result<(), Trouble>
    ensures { Writes bytes.now (log (K.sunk sink.old) (K.faults sink.old)) (log (K.sunk sink.new) (K.faults sink.new))
        result }
{
    match write_all(sink, bytes) {
        Ok(()) => Ok(()),
        Err(_) => Err(Trouble::WriteFault),
    }
}

/// Writes a line, unless there was no memory for it.
pub fn write_line<K: Sink>(line: Result<Vec<u8>, NoMemory>, sink: &mut K) -> Result<(), Trouble>
    ensures { (bytes : List ℕ) → IfOk line (λ l. l.items ≡ bytes)
        → Writes bytes (log (K.sunk sink.old) (K.faults sink.old)) (log (K.sunk sink.new) (K.faults sink.new)) result }
{
    match line {
        Ok(line) => write_bytes(line.as_slice(), sink),
        Err(_) => Err(Trouble::NoMemory),
    }
}

/// Writes the lines of entries. `lines` is a buffer that is reused.
pub fn write_entries<K: Sink>(
    entries: &[Entry],
    lines: &mut Vec<u8>,
    sink: &mut K,
) -> Result<(), Trouble>
    ensures { Writes (lines_of entries.now) (log (K.sunk sink.old) (K.faults sink.old))
        (log (K.sunk sink.new) (K.faults sink.new)) result }
{
    lines.clear();
    match push_lines(lines, entries) {
        Ok(()) => write_bytes(lines.as_slice(), sink),
        Err(_) => Err(Trouble::NoMemory),
    }
}
