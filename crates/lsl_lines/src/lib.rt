//! World files and journals.
//!
//! Every text is the file of a world, or is refused at its first fault. Every entry of a journal has its line, and so
//! has a frozen world.
//!
//! A file has lines, a line has words, and the first word says what the others are. Objects with their prims and
//! scripts come first, then `begin`, the steps, and `end`.
#![tactic(auto)]

ghost use Rattle.std.specs.Prelude.{◌≡◌, ◌⊎◌, IfOk, IfErr, MatchResult};
ghost use Rattle.lsl_text.specs.declared.Refusal.TheVariants.{Fault, NoMemory};
ghost use Rattle.lsl_lines.specs.World.{FileFirst, IsRefused, IsWorld};
ghost use Rattle.lsl_lines.specs.declared.faults.FileFault.{FileFault};
ghost use Rattle.lsl_lines.specs.declared.file.WorldFile.{WorldFile};

use crate::world::read_file;
use lsl_text::Refusal;
use std::alloc::Global;

mod additions;
mod faults;
mod fields;
mod file;
mod forms;
mod frozen;
mod journal;
mod journal_words;
mod keys;
mod known;
mod lasts;
pub mod laws;
mod lines;
mod reading;
mod steps;
mod words;
mod world;

pub use crate::faults::{FileFault, FileKind};
pub use crate::file::{Gaps, NoteLine, ObjectLine, PrimLine, ScriptLine, Step, WorldFile};
pub use crate::frozen::{push_frozen, take_frozen};
pub use crate::journal::{push_line, push_lines};

/// The world that a file describes, or the file's first fault.
///
/// A file of more than 1,048,576 bytes has fault 56 at line 0. Otherwise the fault is that of the first line that has
/// one, and on that line the first of 50, 54, 53, 55 and 57. A file without such a line that doesn't reach its `end`
/// has 51 or 52, at the line after its last.
///
/// Takes memory for the world and for a line's words, and time in proportion to the text.
pub fn read_world(alloc: Global, text: &[u8]) -> Result<WorldFile, Refusal<FileFault>>
    ensures found { IfOk result (IsWorld text.now) }
    ensures every { (file : WorldFile) → IsWorld text.now file
        → MatchResult result (λ found. found ≡ file) (λ refusal. refusal ≡ NoMemory) }
    ensures first { IfErr result (IsRefused text.now) }
    ensures only { (fault : FileFault) → FileFirst text.now fault
        → MatchResult result (λ _. ⊥) (λ refusal. (refusal ≡ Fault fault) ⊎ (refusal ≡ NoMemory)) }
{
    read_file(alloc, text)
}
