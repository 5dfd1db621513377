//! The words of a command line, or the fact that the system gives none.

ghost use Rattle.std.specs.Prelude.{◌≡◌, ◌≢◌, ◌⊎◌, false, true, drop};
ghost use Rattle.std.specs.IoError.{error_kind};
ghost use Rattle.std.specs.Process.{exit_status};
ghost use Rattle.lsl_ports.specs.Counts.{Rose};
ghost use Rattle.lsl_system.specs.Words.{IsRefusal, IsRefusalTold};

use crate::notice::say_no_words;
use lsl_ports::Sink;
use lsl_top::Status;
use std::io::ErrorKind;
use std::process::ExitCode;
use std::rt::Env;
use std::{env, io};

/// The exit status when the system doesn't give the words. No command's status has this number.
const NO_WORDS: u8 = 9;

/// All words of the command line, the program's name first.
pub fn command_line<R: Env + AllocGlobal>(rt: &R) -> io::Result<Vec<String>> {
    Ok(env::args(rt)?.collect::<Vec<String>>(rt.alloc())?)
}

/// The words of a command line after the program's name.
pub fn behind_name(line: &[String]) -> &[String]
    ensures { result.now ≡ drop 1 line.now }
{
    match line {
        [_, words @ ..] => words,
        [] => line,
    }
}

/// Prints that the words of the command weren't given, because memory ran out or one isn't text.
pub fn refuse_words<N: Sink>(error: &io::Error, notes: &mut N) -> ExitCode
    ensures refused { IsRefusal (error_kind error.now) (exit_status result) }
    ensures told { Rose (N.faults notes.old) (N.faults notes.new)
        ⊎ IsRefusalTold (error_kind error.now) (N.sunk notes.old) (N.sunk notes.new) }
{
    let lacks = lacks_memory(error);
    say_no_words(lacks, notes);
    ExitCode::from(if lacks {
        Status::NoMemory.number()
    } else {
        NO_WORDS
    })
}

/// Whether memory ran out for the words.
fn lacks_memory(error: &io::Error) -> bool
    ensures yes { result ≡ true → error_kind error.now ≡ ErrorKind.OutOfMemory }
    ensures no { result ≡ false → error_kind error.now ≢ ErrorKind.OutOfMemory }
{
    match error.kind() {
        ErrorKind::OutOfMemory => true,
        _ => false,
    }
}
