//! Plays files of cases of the parts below the machine: what each does with a text or with rows of words.
#![tactic(auto)]

mod ending;
mod front;
mod handoff;
mod lines;
mod rows;
mod shown;
mod stores;
mod values;
mod words;

use crate::ending::Parts;
use lsl_cases::play_named;
use std::io;

fn main(rt: HostRuntime) -> io::Result<()> {
    play_named(&rt, &Parts)
}
