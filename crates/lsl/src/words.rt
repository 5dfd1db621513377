//! A command line that the system gives, or doesn't.

ghost use Rattle.std.specs.Prelude.{◌≡◌, ◌⊎◌, drop, IfErr, IfOk, None};
ghost use Rattle.std.specs.IoError.{error_kind};
ghost use Rattle.std.specs.Process.{exit_status};
ghost use Rattle.lsl_ports.specs.Counts.{Rose};
ghost use Rattle.lsl_top.specs.Ends.{EndsAs, outside};
ghost use Rattle.lsl_top.specs.Laws.{copies};
ghost use Rattle.lsl_top.specs.Status.{number_of};
ghost use Rattle.lsl_top.specs.Words.{command_of};
ghost use Rattle.lsl_top.specs.declared.status.Status.{Status as Ended};
ghost use Rattle.lsl.specs.Notice.{file_in, usage};
ghost use Rattle.lsl_system.specs.Notice.{IsTold};
ghost use Rattle.lsl_system.specs.Words.{IsRefusal, IsRefusalTold};

use crate::command::run;
use lsl_ports::{Shelf, Sink};
use lsl_system::{CopyingLink, behind_name, refuse_words};
use std::alloc::Global;
use std::io;
use std::process::ExitCode;

/// Runs the command that the words after the program's name ask for, as `run` does, or prints why the system gave none.
/// Each crossing brings back what was sent.
pub fn start<S: Shelf, K: Sink, N: Sink>(
    alloc: Global,
    line: io::Result<Vec<String>>,
    shelf: &mut S,
    sink: &mut K,
    notes: &mut N,
) -> ExitCode
    // If the words are given, the process ends with the number of the command's status.
    ensures ends { IfOk line (λ line. EndsAs copies (exit_status result) (command_of (drop 1 line.items))
        (outside (S.held shelf.old) (S.faults shelf.old) (K.sunk sink.old) (K.faults sink.old) None 0)
        (outside (S.held shelf.new) (S.faults shelf.new) (K.sunk sink.new) (K.faults sink.new) None 0)) }
    // The line of that status was printed, unless the notes failed.
    ensures told { IfOk line (λ line. (status : Ended) → exit_status result ≡ number_of status
        → Rose (N.faults notes.old) (N.faults notes.new)
        ⊎ IsTold usage status (file_in status (drop 1 line.items)) (N.sunk notes.old) (N.sunk notes.new)) }
    // If they aren't, it ends with 7 when out of memory, and otherwise with 9.
    ensures refused { IfErr line (λ error. IsRefusal (error_kind error) (exit_status result)) }
    // The line of that was printed, unless the notes failed.
    ensures refusal_told { IfErr line (λ error. Rose (N.faults notes.old) (N.faults notes.new)
        ⊎ IsRefusalTold (error_kind error) (N.sunk notes.old) (N.sunk notes.new)) }
{
    match line {
        Ok(line) => run(
            alloc,
            behind_name(line.as_slice()),
            shelf,
            sink,
            &mut CopyingLink,
            notes,
        ),
        Err(error) => refuse_words(&error, notes),
    }
}
