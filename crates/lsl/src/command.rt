//! A command over any outside: what it does, what is printed about how it ended, and the process's status.

ghost use Rattle.std.specs.Prelude.{◌≡◌, ◌⊎◌};
ghost use Rattle.std.specs.Process.{exit_status};
ghost use Rattle.lsl_ports.specs.Counts.{Rose};
ghost use Rattle.lsl_ports.specs.Growth.{Grew};
ghost use Rattle.lsl_top.specs.Ends.{EndsAs, outside};
ghost use Rattle.lsl_top.specs.Status.{number_of};
ghost use Rattle.lsl_top.specs.Words.{command_of};
ghost use Rattle.lsl_top.specs.declared.status.Status.{Status as Ended};
ghost use Rattle.lsl.specs.Notice.{file_in, usage};
ghost use Rattle.lsl_system.specs.Notice.{IsTold};

use crate::naming::named_file;
use lsl_ports::{Link, Shelf, Sink};
use lsl_system::say;
use lsl_top::{Status, lsl};
use std::alloc::Global;
use std::process::ExitCode;

const USAGE: &str =
    "usage: lsl once FILE | check FILE | replay [--lossy] WORLD | freeze WORLD | thaw FROZEN WORLD \
        | view FROZEN WORLD | make NUMBER\n";

/// Runs the command that the words ask for over this outside.
///
/// If it doesn't end well, one line on the notes says how. The process ends with the number of the command's status. It
/// takes memory for the command.
pub fn run<S: Shelf, K: Sink, L: Link, N: Sink>(
    alloc: Global,
    words: &[String],
    shelf: &mut S,
    sink: &mut K,
    link: &mut L,
    notes: &mut N,
) -> ExitCode
    // The process ends with the number of the command's status.
    ensures ends { EndsAs L.gives (exit_status result) (command_of words.now)
        (outside (S.held shelf.old) (S.faults shelf.old) (K.sunk sink.old) (K.faults sink.old)
        (L.trips link.old) (L.faults link.old))
        (outside (S.held shelf.new) (S.faults shelf.new) (K.sunk sink.new) (K.faults sink.new)
        (L.trips link.new) (L.faults link.new)) }
    // The line of that status was printed, unless the notes failed.
    ensures told { (status : Ended) → exit_status result ≡ number_of status
        → Rose (N.faults notes.old) (N.faults notes.new)
        ⊎ IsTold usage status (file_in status words.now) (N.sunk notes.old) (N.sunk notes.new) }
{
    let status = lsl(alloc, words, shelf, sink, link);
    say(USAGE, status, named_file(status, words), notes);
    ExitCode::from(status.number())
}
