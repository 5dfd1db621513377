//! Plays the files of cases that its arguments name over a shelf and a sink in memory. It prints which cases end in
//! another way than they must, and how many hold; and then it replays the world of seed 1 from its texts.
#![tactic(auto)]

mod ending;
mod made;

use crate::ending::Memory;
use crate::made::replayed;
use lsl_cases::play_named;
use lsl_top::Status;
use std::io;

fn main(rt: HostRuntime) -> io::Result<()> {
    play_named(&rt, &Memory)?;
    let made = replayed(rt.alloc(), 1)?;
    println!(rt; "{made}")?;
    let memory = Status::NoMemory.number();
    println!(rt; "statuses of no case: {memory}")
}
