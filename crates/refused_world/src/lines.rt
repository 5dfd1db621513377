//! Clauses of `lsl_lines`.

ghost use Rattle.std.specs.Prelude.{◌≡◌, ◌++◌, IfErr, IfOk, OnOk};
ghost use Rattle.lsl_lines.specs.Journal.{line_of};
ghost use Rattle.lsl_lines.specs.World.{IsRefused, IsWorld};
ghost use Rattle.lsl_post.specs.declared.entries.Entry.TheVariants.{Done};

use lsl_lines::{FileFault, FileKind, WorldFile, push_line, read_world};
use lsl_post::Entry;
use lsl_text::{NoMemory, Refusal};
use std::alloc::Global;

/// As `push_line`.
pub fn line_added(out: &mut Vec<u8>, entry: &Entry) -> Result<(), NoMemory>
    ensures { OnOk result (out.new.items ≡ out.old.items ++ line_of entry.now) }
{
    push_line(out, entry)
}

/// As `push_line`, of a handler that ended.
pub fn done_line(out: &mut Vec<u8>, script: u32, charge: u64) -> Result<(), NoMemory>
    ensures { OnOk result (out.new.items ≡ out.old.items ++ line_of (Done script charge)) }
{
    push_line(out, &Entry::Done(script, charge))
}

/// As `read_world`.
pub fn world_read(alloc: Global, text: &[u8]) -> Result<WorldFile, Refusal<FileFault>>
    ensures found { IfOk result (IsWorld text.now) }
    ensures first { IfErr result (IsRefused text.now) }
{
    read_world(alloc, text)
}
