//! A command over any outside: what it does, and the process's status.

use crate::ending::Ending;
use crate::words::{Command, Look, parse_words};
use lsl_ports::{Link, Shelf, Sink, read_all, write_all};
use lsl_seek::{seek, stops};
use lsl_system::{CopyingLink, behind_name, refuse_words};
use lsl_top::{Status, state};
use lsl_trace::trace;
use std::alloc::Global;
use std::io;
use std::process::ExitCode;

/// Does what the words behind the program's name ask for, or says why the system gave none. Where a command doesn't end
/// well, one line on the notes says how. The process ends with the number of its status. Each crossing brings back what
/// was sent.
pub fn start<S: Shelf, K: Sink, N: Sink>(
    alloc: Global,
    line: io::Result<Vec<String>>,
    shelf: &mut S,
    sink: &mut K,
    notes: &mut N,
) -> ExitCode {
    match line {
        Ok(line) => {
            let command = parse_words(behind_name(line.as_slice()));
            let ending = serve(alloc, command, shelf, sink, &mut CopyingLink);
            ending.tell(command.map(|it| it.file()), notes);
            ExitCode::from(ending.number())
        }
        Err(error) => refuse_words(&error, notes),
    }
}

fn serve<S: Shelf, K: Sink, L: Link>(
    alloc: Global,
    command: Option<Command<'_>>,
    shelf: &mut S,
    sink: &mut K,
    link: &mut L,
) -> Ending {
    match command {
        None => Ending::from(Status::Usage),
        Some(Command::State(at, world)) => {
            Ending::from(state(alloc, at, world, shelf, sink, link))
        }
        Some(Command::Trace(request)) => Ending::from(trace(alloc, &request, shelf, sink, link)),
        Some(Command::Look(file, look)) => match show(alloc, file, look, shelf, sink) {
            Ok(()) => Ending::from(Status::Ok),
            Err(ending) => ending,
        },
    }
}

/// Writes what is asked of the trace in a file. It takes memory for the trace.
fn show<S: Shelf, K: Sink>(
    alloc: Global,
    file: &str,
    look: Look<'_>,
    shelf: &mut S,
    sink: &mut K,
) -> Result<(), Ending> {
    let trace = read_all(alloc, shelf, file, u64::MAX)?;
    let lines = match look {
        Look::Moment(moment, words) => seek(alloc, trace.as_slice(), moment, words)?,
        Look::Stops => stops(alloc, trace.as_slice())?,
    };
    write_all(sink, lines.as_slice())?;
    Ok(())
}
