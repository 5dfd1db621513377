//! The debugger's core: commands that show a world's run, over the files of the system, standard output and standard
//! error.
#![tactic(auto)]

mod command;
mod ending;
mod words;

use command::start;
use lsl_system::{FileShelf, OutputSink, command_line};
use std::process::ExitCode;

fn main(rt: HostRuntime) -> ExitCode {
    start(
        rt.alloc(),
        command_line(&rt),
        &mut FileShelf::new(&rt),
        &mut OutputSink::new(rt.stdout(), &rt),
        &mut OutputSink::new(rt.stderr(), &rt),
    )
}
