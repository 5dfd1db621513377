//! The program: the words of its command line, the files of the system, standard output and
//! standard error.
#![tactic(auto)]

mod command;
mod naming;
#[cfg(test)]
mod tests;
mod words;

use lsl_system::{FileShelf, OutputSink, command_line};
use std::process::ExitCode;
use words::start;

fn main(rt: HostRuntime) -> ExitCode {
    start(
        rt.alloc(),
        command_line(&rt),
        &mut FileShelf::new(&rt),
        &mut OutputSink::new(rt.stdout(), &rt),
        &mut OutputSink::new(rt.stderr(), &rt),
    )
}
