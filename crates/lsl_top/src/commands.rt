//! What each command does: its files are read, and then its answer is written.
ghost use Rattle.std.specs.Prelude.{◌≡◌};
ghost use Rattle.lsl_world.specs.Ranges.{IsInRange};
ghost use Rattle.lsl_top.specs.Answers.{Answers, Checks, Plays, PlaysRead, ReplaysFile};
ghost use Rattle.lsl_top.specs.Fair.{IsFairIn, IsFairOf};
ghost use Rattle.lsl_top.specs.Froms.{IsFromRead};
ghost use Rattle.lsl_top.specs.Meant.{asked_by, mode_of, play_in, read_in};
ghost use Rattle.lsl_top.specs.Named.{IsNamed, IsNamedIn, IsPlayName};
ghost use Rattle.lsl_top.specs.Plays.{cards_in, file_in, names_in, play_of};
ghost use Rattle.lsl_top.specs.Ports.{Concludes, Finishes, Serves, gives_by, gives_in, log, ports, unread_status, wire};
ghost use Rattle.lsl_top.specs.Prepared.{IsUnfit, Refuses};
ghost use Rattle.lsl_top.specs.Promise.{KeepsFile, KeepsOf, KeepsPlay};
ghost use Rattle.lsl_top.specs.Words.{Check, Once};

use crate::lines::{acceptance, note_refusal, refusal, world_refusal};
use crate::making::make;
use crate::modes::Mode;
use crate::once::once_world;
use crate::play::Play;
use crate::positions::file_until;
use crate::preparing::{Unfit, prepare};
use crate::reading::{file_names, name_at, read_play, read_script};
use crate::running::run_cast;
use crate::status::Status;
use crate::words::Command;
use crate::writing::{status_after, write_line};
use lsl_build::accept;
use lsl_lines::{WorldFile, read_world};
use lsl_ports::{Link, Shelf, ShelfFault, Sink, read_all};
use lsl_text::Refusal;
use std::alloc::Global;

/// A world file is read up to this many bytes and one more, which shows that it is too long.
const MAX_WORLD_BYTES: u64 = 1_048_576;

/// Does what a command asks for.
pub fn serve<S: Shelf, K: Sink, L: Link>(
    alloc: Global,
    command: Command<'_>,
    shelf: &mut S,
    sink: &mut K,
    link: &mut L,
) -> Status
    ensures { Serves (gives_by (asked_by command.entry) L.gives) (IsFairOf (asked_by command.entry))
        (λ trips. KeepsOf (S.held shelf.old) trips (asked_by command.entry))
        (λ grade from trips. Answers grade (S.held shelf.old) from trips (asked_by command.entry))
        (IsNamed (S.held shelf.old) (asked_by command.entry))
        (ports (S.held shelf.old) (S.faults shelf.old) (K.sunk sink.old) (K.faults sink.old) (L.trips link.old)
        (L.faults link.old))
        (ports (S.held shelf.new) (S.faults shelf.new) (K.sunk sink.new) (K.faults sink.new) (L.trips link.new)
        (L.faults link.new)) result }
{
    match command {
        Command::Once(file) => once(alloc, file, shelf, sink, link),
        Command::Check(file) => check(alloc, file, shelf, sink, link),
        Command::Replay(file) => replay(alloc, Mode::Whole, file, shelf, sink, link),
        Command::Lossy(file) => replay(alloc, Mode::Handing, file, shelf, sink, link),
        Command::Freeze(file) => replay(alloc, Mode::Freezing, file, shelf, sink, link),
        Command::Thaw(frozen, file) => replay(
            alloc,
            Mode::Thawing(frozen),
            file,
            shelf,
            sink,
            link,
        ),
        Command::View(frozen, file) => replay(
            alloc,
            Mode::Viewing(frozen),
            file,
            shelf,
            sink,
            link,
        ),
        Command::Make(number) => make(alloc, number, sink, link),
        Command::State(at, file) => replay(alloc, Mode::Inspecting(at), file, shelf, sink, link),
    }
}

/// The status of a file that wasn't read.
fn unread(fault: ShelfFault) -> Status
    ensures { result ≡ unread_status fault }
{
    match fault {
        ShelfFault::Failed => Status::ReadFault,
        ShelfFault::NoMemory => Status::NoMemory,
    }
}

/// Accepts a script, or refuses it.
fn check<S: Shelf, K: Sink, L: Link>(
    alloc: Global,
    name: &str,
    shelf: &mut S,
    sink: &mut K,
    link: &mut L,
) -> Status
    ensures { Serves (gives_by (Check name.now) L.gives) (IsFairOf (Check name.now))
        (λ trips. KeepsOf (S.held shelf.old) trips (Check name.now))
        (λ grade from trips. Answers grade (S.held shelf.old) from trips (Check name.now))
        (IsNamed (S.held shelf.old) (Check name.now))
        (ports (S.held shelf.old) (S.faults shelf.old) (K.sunk sink.old) (K.faults sink.old) (L.trips link.old)
        (L.faults link.old))
        (ports (S.held shelf.new) (S.faults shelf.new) (K.sunk sink.new) (K.faults sink.new) (L.trips link.new)
        (L.faults link.new)) result }
{
    match read_script(alloc, shelf, name) {
        Ok(text) => write_check(alloc, name, text.as_slice(), sink),
        Err(fault) => unread(fault),
    }
}

fn write_check<K: Sink>(alloc: Global, name: &str, text: &[u8], sink: &mut K) -> Status
    ensures { Finishes (Checks name.now text.now) (log (K.sunk sink.old) (K.faults sink.old))
        (log (K.sunk sink.new) (K.faults sink.new)) result }
{
    match accept(alloc, text) {
        Ok(_program) => status_after(write_line(acceptance(alloc, name), sink), Status::Ok),
        Err(Refusal::Fault(fault)) => {
            status_after(
                write_line(refusal(alloc, name, &fault), sink),
                Status::BadScript,
            )
        }
        Err(Refusal::NoMemory) => Status::NoMemory,
    }
}

/// Runs a script in a world of its own.
fn once<S: Shelf, K: Sink, L: Link>(
    alloc: Global,
    name: &str,
    shelf: &mut S,
    sink: &mut K,
    link: &mut L,
) -> Status
    ensures { Serves L.gives (IsFairOf (Once name.now)) (λ trips. KeepsOf (S.held shelf.old) trips (Once name.now))
        (λ grade from trips. Answers grade (S.held shelf.old) from trips (Once name.now))
        (IsNamed (S.held shelf.old) (Once name.now))
        (ports (S.held shelf.old) (S.faults shelf.old) (K.sunk sink.old) (K.faults sink.old) (L.trips link.old)
        (L.faults link.old))
        (ports (S.held shelf.new) (S.faults shelf.new) (K.sunk sink.new) (K.faults sink.new) (L.trips link.new)
        (L.faults link.new)) result }
{
    match once_world(alloc) {
        Ok(world) => match read_play(alloc, Mode::Whole, &[name], &[], &world, shelf) {
            Ok(play) => write_play(alloc, &play, sink, link),
            Err(fault) => unread(fault),
        },
        Err(_) => Status::NoMemory,
    }
}

/// Plays a world file, or refuses it.
pub fn replay<S: Shelf, K: Sink, L: Link>(
    alloc: Global,
    mode: Mode<'_>,
    name: &str,
    shelf: &mut S,
    sink: &mut K,
    link: &mut L,
) -> Status
    ensures { Serves (gives_in (mode_of mode.entry) L.gives) (IsFairIn (mode_of mode.entry))
        (λ trips. KeepsFile (S.held shelf.old) trips (mode_of mode.entry) name.now)
        (λ grade from trips. ReplaysFile grade (S.held shelf.old) from trips (mode_of mode.entry) name.now)
        (IsNamedIn (S.held shelf.old) (mode_of mode.entry) name.now)
        (ports (S.held shelf.old) (S.faults shelf.old) (K.sunk sink.old) (K.faults sink.old) (L.trips link.old)
        (L.faults link.old))
        (ports (S.held shelf.new) (S.faults shelf.new) (K.sunk sink.new) (K.faults sink.new) (L.trips link.new)
        (L.faults link.new)) result }
{
    let text = match read_all(alloc, shelf, name, MAX_WORLD_BYTES) {
        Ok(text) => text,
        Err(fault) => return unread(fault),
    };
    match read_world(alloc, text.as_slice()) {
        Ok(file) => play_world(alloc, mode, &played(mode, file), shelf, sink, link),
        Err(Refusal::Fault(fault)) => {
            status_after(
                write_line(world_refusal(alloc, name, &fault), sink),
                Status::BadWorld,
            )
        }
        Err(Refusal::NoMemory) => Status::NoMemory,
    }
}

/// A world file as it is played: up to the position that is asked for.
fn played(mode: Mode<'_>, file: WorldFile) -> WorldFile
    ensures { result ≡ file_in (mode_of mode.entry) file }
{
    match mode {
        Mode::Inspecting(at) => file_until(at, file),
        Mode::Whole => file,
        Mode::Handing => file,
        Mode::Freezing => file,
        Mode::Thawing(_) => file,
        Mode::Viewing(_) => file,
    }
}

/// Plays a world with the files that it names.
fn play_world<S: Shelf, K: Sink, L: Link>(
    alloc: Global,
    mode: Mode<'_>,
    world: &WorldFile,
    shelf: &mut S,
    sink: &mut K,
    link: &mut L,
) -> Status
    requires { IsInRange world.now }
    ensures { Serves (gives_in (mode_of mode.entry) L.gives) (IsFairIn (mode_of mode.entry))
        (λ trips. KeepsPlay (S.held shelf.old) trips (play_of (mode_of mode.entry) world.now))
        (λ grade from trips. Plays grade (S.held shelf.old) from trips (play_of (mode_of mode.entry) world.now))
        (IsPlayName (mode_of mode.entry) (names_in world.now) (cards_in world.now))
        (ports (S.held shelf.old) (S.faults shelf.old) (K.sunk sink.old) (K.faults sink.old) (L.trips link.old)
        (L.faults link.old))
        (ports (S.held shelf.new) (S.faults shelf.new) (K.sunk sink.new) (K.faults sink.new) (L.trips link.new)
        (L.faults link.new)) result }
{
    match file_names(alloc, world.files.as_slice()) {
        Ok(names) => match file_names(alloc, world.cards.as_slice()) {
            Ok(cards) => {
                match read_play(
                    alloc,
                    mode,
                    names.as_slice(),
                    cards.as_slice(),
                    world,
                    shelf,
                ) {
                    Ok(play) => write_play(alloc, &play, sink, link),
                    Err(fault) => unread(fault),
                }
            }
            Err(_) => Status::NoMemory,
        },
        Err(_) => Status::NoMemory,
    }
}

/// Runs a play, or writes the refusal of its first script or notecard that isn't one.
fn write_play<K: Sink, L: Link>(
    alloc: Global,
    play: &Play<'_>,
    sink: &mut K,
    link: &mut L,
) -> Status
    requires { IsInRange play.now.world.now }
    ensures { Concludes (gives_in (mode_of play.now.mode) L.gives) (IsFairIn (mode_of play.now.mode))
        (IsFromRead (play_in play.now) (read_in play.now))
        (λ grade from trips. PlaysRead grade from trips (play_in play.now) (read_in play.now))
        (log (K.sunk sink.old) (K.faults sink.old)) (log (K.sunk sink.new) (K.faults sink.new))
        (wire (L.trips link.old) (L.faults link.old)) (wire (L.trips link.new) (L.faults link.new)) result }
{
    match prepare(alloc, play) {
        Ok(cast) => run_cast(alloc, play, cast, sink, link),
        Err(Refusal::Fault(unfit)) => refuse(alloc, play, unfit, sink),
        Err(Refusal::NoMemory) => Status::NoMemory,
    }
}

/// Writes why a play isn't run.
fn refuse<K: Sink>(alloc: Global, play: &Play<'_>, unfit: Unfit, sink: &mut K) -> Status
    requires { IsUnfit (read_in play.now) unfit }
    ensures { Finishes (Refuses (play_in play.now) (read_in play.now)) (log (K.sunk sink.old) (K.faults sink.old))
        (log (K.sunk sink.new) (K.faults sink.new)) result }
{
    match unfit {
        Unfit::Script(refused) => status_after(
            write_line(
                refusal(alloc, name_at(play.names, refused.place), &refused.fault),
                sink,
            ),
            Status::BadScript,
        ),
        Unfit::Note(bad) => status_after(
            write_line(
                note_refusal(alloc, name_at(play.cards, bad.place), &bad.fault),
                sink,
            ),
            Status::BadNote,
        ),
    }
}
