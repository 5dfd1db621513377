//! A command over the files of a request, with its output in a buffer.
ghost use Rattle.std.specs.Prelude.{◌≡◌, ◌≤◌, ◌↔◌, ◌∷◌, [], All, IfOk, IsErrOf, IsTrue, OnErr, length, take};
ghost use Rattle.lsl_top.specs.Ends.{Ends, outside};
ghost use Rattle.lsl_top.specs.Words.{command_in, command_of};
ghost use Rattle.lsl_page.specs.Ended.{Ended};
ghost use Rattle.lsl_page.specs.Request.{IsRequest, files_in, is_in};

use crate::place::Place;
use crate::request_shelf::RequestShelf;
use crate::returning_link::ReturningLink;
use crate::room_sink::RoomSink;
use crate::words::{Refused, read_word};
use lsl_ports::{Link, Shelf, Sink};
use lsl_top::{Status, lsl};
use std::alloc::Global;

/// Runs the command that the words ask for: every clause of the top call, as one fact.
fn end<S: Shelf, K: Sink, L: Link>(
    alloc: Global,
    words: &[String],
    shelf: &mut S,
    sink: &mut K,
    link: &mut L,
) -> Status
    ensures { Ends L.gives (command_of words.now)
        (outside (S.held shelf.old) (S.faults shelf.old) (K.sunk sink.old) (K.faults sink.old)
        (L.trips link.old) (L.faults link.old))
        (outside (S.held shelf.new) (S.faults shelf.new) (K.sunk sink.new) (K.faults sink.new)
        (L.trips link.new) (L.faults link.new)) result }
{
    lsl(alloc, words, shelf, sink, link)
}

/// Runs the command that two words ask for over this shelf and this sink, into which nothing was written yet.
fn run_over(
    alloc: Global,
    words: &[String],
    shelf: &mut RequestShelf<'_>,
    sink: &mut RoomSink<'_>,
) -> Status
    requires two { length words.now ≡ 2 }
    requires fresh { shelf.old.faults ≡ 0 }
    requires empty { sink.old.count ≡ 0 }
    requires calm { sink.old.faults ≡ 0 }
    ensures same_room { sink.new.room.ghost_name ≡ sink.old.room.ghost_name }
    ensures ended { Ended (files_in shelf.old.bytes.now shelf.old.places.now) (command_of words.now)
        (length sink.new.room.now) result (take sink.new.count sink.new.room.now) }
{
    end(alloc, words, shelf, sink, &mut ReturningLink)
}

/// Runs the command that two words ask for over the files of a request. What is written is at the front of the buffer.
fn run(
    alloc: Global,
    words: &[String],
    bytes: &[u8],
    places: &[Place],
    room: &mut [u8],
    written: &mut usize,
) -> Status
    requires two { length words.now ≡ 2 }
    ensures ended { Ended (files_in bytes.now places.now) (command_of words.now)
        (length room.new) result (take written.new room.new) }
    ensures within { written.new ≤ length room.new }
{
    let mut shelf = RequestShelf::new(bytes, places);
    let mut sink = RoomSink::new(room);
    let status = run_over(alloc, words, &mut shelf, &mut sink);
    *written = sink.count();
    status
}

/// Whether all places lie within the bytes.
fn are_in(places: &[Place], bytes: &[u8]) -> bool
    ensures { IsTrue result ↔ All (λ p. IsTrue (is_in bytes.now p)) places.now }
{
    places.iter().all(|place| place.is_in(bytes))
}

/// Runs a request, if it is one. Takes memory for its two words, and for what the command needs.
pub fn answer(
    alloc: Global,
    word: &[u8],
    file: &[u8],
    bytes: &[u8],
    places: &[Place],
    room: &mut [u8],
    written: &mut usize,
) -> Result<Status, Refused>
    ensures request { IfOk result (λ _. IsRequest word.now file.now bytes.now places.now) }
    ensures ended { IfOk result (λ status. Ended (files_in bytes.now places.now) (command_in (word.now ∷ file.now ∷ []))
        (length room.new) status (take written.new room.new)) }
    ensures within { written.new ≤ length room.new }
    ensures form { IsErrOf result Refused.NotInForm → ¬ IsRequest word.now file.now bytes.now places.now }
    ensures nothing { OnErr result (written.new ≡ 0) }
{
    *written = 0;
    if !are_in(places, bytes) {
        return Err(Refused::NotInForm);
    }
    let words = [read_word(alloc, word)?, read_word(alloc, file)?];
    Ok(run(alloc, &words, bytes, places, room, written))
}
