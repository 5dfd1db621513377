//! The top call: what a command's words ask for is read, run and written, over any shelf, sink and link.
#![tactic(auto)]

ghost use Rattle.std.specs.Prelude.{◌≡◌, ◌≤◌, ◌⊎◌, ◌↔◌, ℕ, List, [], ◌++◌, Some};
ghost use Rattle.lsl_ports.specs.Counts.{NoneFell, Rose};
ghost use Rattle.lsl_ports.specs.Shelf.{Files};
ghost use Rattle.lsl_ports.specs.Trips.{Trip, Went};
ghost use Rattle.lsl_region.specs.Worlds.{World};
ghost use Rattle.lsl_top.specs.Answers.{Answer, Answers, Due};
ghost use Rattle.lsl_top.specs.Ends.{Ends, outside};
ghost use Rattle.lsl_top.specs.Fair.{IsFair};
ghost use Rattle.lsl_top.specs.Headline.{Outputs, WritesLines};
ghost use Rattle.lsl_top.specs.Named.{NamedRose};
ghost use Rattle.lsl_top.specs.Promise.{Keeps, RunsNothing, SendsNothing, WritesNothing};
ghost use Rattle.lsl_top.specs.Words.{Command as TheCommand, State as TheState, command_of};

mod building;
mod commands;
pub mod laws;
mod lines;
mod made_shelf;
mod making;
mod modes;
mod noting;
mod once;
mod play;
mod positions;
mod preparing;
mod reading;
mod report;
mod running;
mod status;
mod words;
mod writing;

use crate::commands::serve;
pub use crate::positions::Position;
pub use crate::status::Status;
use crate::words::{Command, parse_words};
use lsl_ports::{Link, Shelf, Sink};
use std::alloc::Global;

/// Runs the command that the words ask for, and returns how it ended. `words` don't include the program's name.
///
/// The world file is read and tested first. Then all scripts are read and then all notecards, each file once, in the
/// order of first naming, and then the file of a frozen world. The scripts are built in that order, then the notecards
/// are tested, and then the frozen world. Then the steps run, and each step's lines are written before the next step.
/// `view` runs no step: it writes where the scripts of the frozen world are in their code.
///
/// Memory: for the files, the code, the world, a step's lines or those of a view, and the image of a frozen world with
/// its line.
///
/// Cost: each crossing to another region calls the link once, and waits for it; `replay --lossy` calls it at most 32
/// times.
pub fn lsl<S: Shelf, K: Sink, L: Link>(
    alloc: Global,
    words: &[String],
    shelf: &mut S,
    sink: &mut K,
    link: &mut L,
) -> Status
    // The words aren't a command.
    ensures usage { (result ≡ Status.Usage) ↔ (command_of words.now ≡ None) }
    // At Usage and ReadFault nothing was written.
    ensures nothing { WritesNothing result → K.sunk sink.new ≡ K.sunk sink.old }
    // There are trips that the link made. Nothing was sent at Usage, BadWorld, BadScript, ReadFault, BadImage and
    // BadNote, and `check` and `view` never send. The rest holds if each image came back as it was sent, or not at all,
    // or isn't intact (in `replay --lossy`: what came back was sent by then, or isn't intact). It holds with the texts
    // that were read, which are those of the files where the shelf reports its files. It holds from each world that can
    // have been frozen by them (any world, where nothing is thawed or the frozen text is refused). At Ok, BadWorld,
    // BadScript, BadNote and BadImage the sink grew by exactly an answer of that status, and what that sends was sent.
    // At WriteFault and NoMemory a prefix of an answer was written and sent; at NoMemory it may also be that nothing at
    // all was.
    ensures kept { (trips : List Trip) × Went L.gives (L.trips link.old) (L.trips link.new) trips
        × (SendsNothing result ⊎ RunsNothing (command_of words.now) → trips ≡ [])
        × (IsFair (command_of words.now) trips
        → Keeps (S.held shelf.old) trips (command_of words.now) result (K.sunk sink.old) (K.sunk sink.new)) }
    // The shelf failed at a file that the words or their world name.
    ensures read_fault { result ≡ Status.ReadFault
        → NamedRose (S.held shelf.old) (command_of words.now) (S.faults shelf.old) (S.faults shelf.new) }
    // The sink failed.
    ensures write_fault { result ≡ Status.WriteFault → Rose (K.faults sink.old) (K.faults sink.new) }
    // Where the shelf reports its files, and neither the count of faults of the command's files nor the sink's rose,
    // the status is that of the command's answer, whatever came back over the link, or NoMemory.
    ensures complete { (files : Files) (from : World) (trips : List Trip) (command : TheCommand) (answer : Answer)
        → S.held shelf.old ≡ Some files → command_of words.now ≡ Some command
        → Answers Due (Some files) from trips command answer
        → ¬ NamedRose (S.held shelf.old) (command_of words.now) (S.faults shelf.old) (S.faults shelf.new)
        → ¬ Rose (K.faults sink.old) (K.faults sink.new)
        → (result ≡ answer.status) ⊎ (result ≡ Status.NoMemory) }
    // Given good files, accepted scripts and no fault of shelf or sink, the sink grew by exactly the journal of the
    // scripts' meaning, and then what the command writes after it; or memory ran out, and the sink grew by a prefix of
    // that. The journal is that of the steps without refused crossings (in `replay --lossy` those whose offer didn't
    // come, or came after its cancel). What came back over the link must be as above.
    ensures headline { (files : Files) (from : World) (command : TheCommand) (before trips : List Trip) (lines : List ℕ)
        → S.held shelf.old ≡ Some files → command_of words.now ≡ Some command
        → L.trips link.old ≡ Some before → L.trips link.new ≡ Some (before ++ trips)
        → IsFair (command_of words.now) trips → Outputs files from command trips lines
        → ¬ NamedRose (S.held shelf.old) (command_of words.now) (S.faults shelf.old) (S.faults shelf.new)
        → ¬ Rose (K.faults sink.old) (K.faults sink.new)
        → WritesLines lines result (K.sunk sink.old) (K.sunk sink.new) }
    ensures unchanged { S.held shelf.new ≡ S.held shelf.old }
    ensures counted { NoneFell (S.faults shelf.old) (S.faults shelf.new)
        × (K.faults sink.old ≤ K.faults sink.new)
        × (L.faults link.old ≤ L.faults link.new) }
{
    match parse_words(words) {
        None => Status::Usage,
        Some(command) => serve(alloc, command, shelf, sink, link),
    }
}

/// Runs a world file up to a position, or to the end of its steps.
///
/// It writes the journal of that, as `lsl` does for `replay`, and then all that the world holds there, as
/// `lsl_view::state` shows it. No words ask for this command. All that is said of `lsl` and of a command holds of it:
/// how it ends, what it reads, and which memory and time it takes.
pub fn state<S: Shelf, K: Sink, L: Link>(
    alloc: Global,
    at: Option<Position>,
    file: &str,
    shelf: &mut S,
    sink: &mut K,
    link: &mut L,
) -> Status
    ensures { Ends L.gives (Some (TheState at file.now))
        (outside (S.held shelf.old) (S.faults shelf.old) (K.sunk sink.old) (K.faults sink.old) (L.trips link.old)
        (L.faults link.old))
        (outside (S.held shelf.new) (S.faults shelf.new) (K.sunk sink.new) (K.faults sink.new) (L.trips link.new)
        (L.faults link.new)) result }
{
    serve(alloc, Command::State(at, file), shelf, sink, link)
}
