//! What a debugger asks for: the trace of a world, the moment of a trace to which a move leads, and the state of a
//! world at a position.

ghost use Rattle.std.specs.Prelude.{◌≡◌, IfOk, IsErrOf, None, OnErr, Some, length, take};
ghost use Rattle.std.specs.Str.{IsUtf8};
ghost use Rattle.lsl_top.specs.Status.{number_of};
ghost use Rattle.lsl_top.specs.Words.{State};
ghost use Rattle.lsl_top.specs.declared.status.Status.TheVariants.{ReadFault, WriteFault};
ghost use Rattle.lsl_page.specs.Ended.{Ended as EndedOver};
ghost use Rattle.lsl_page.specs.Request.{IsAsked, files_in};
ghost use Rattle.lsl_page.specs.Stepping.{IsTraced, TraceEnds, number_of_trace, position_of, saturated};

use crate::request_shelf::RequestShelf;
use crate::returning_link::ReturningLink;
use crate::room_sink::RoomSink;
use crate::words::{Refused, read_lines, read_word};
use lsl_ports::write_all;
use lsl_seek::{SeekFault, seek};
use lsl_text::Refusal;
use lsl_top::{Position, Status, state};
use lsl_trace::{Ended, Request, trace};
use std::alloc::Global;

/// The position in a world file, or none for the end of its steps, which is step 0. 32 bits count all steps and
/// segments of any world file.
pub fn position(step: usize, segment: usize) -> Option<Position>
    ensures { result ≡ position_of step segment }
{
    if step == 0 {
        return None;
    }
    Some(Position {
        step: saturated(step),
        segment: saturated(segment),
    })
}

fn saturated(number: usize) -> u32
    ensures { result ≡ saturated number }
{
    u32::try_from(number).unwrap_or(u32::MAX)
}

/// Writes a trace into this sink, into which nothing was written yet.
fn trace_over(
    alloc: Global,
    request: &Request<'_>,
    shelf: &mut RequestShelf<'_>,
    sink: &mut RoomSink<'_>,
) -> Ended
    requires fresh { shelf.old.faults ≡ 0 }
    requires empty { sink.old.count ≡ 0 }
    requires calm { sink.old.faults ≡ 0 }
    ensures same_room { sink.new.room.ghost_name ≡ sink.old.room.ghost_name }
    ensures ended { TraceEnds (files_in shelf.old.bytes.now shelf.old.places.now) request.now
        (length sink.new.room.now) result (take sink.new.count sink.new.room.now) }
{
    trace(alloc, request, shelf, sink, &mut ReturningLink)
}

/// A journal that is too long to be traced counts as an output that is.
fn status_of(ended: Ended) -> Status
    ensures { number_of result ≡ number_of_trace ended }
{
    match ended {
        Ended::Told => Status::Ok,
        Ended::Refused(status) => status,
        Ended::TooLong => Status::WriteFault,
    }
}

/// Writes the trace of a world file from the first of these steps to the last.
pub fn write_trace(
    alloc: Global,
    file: &[u8],
    steps: (usize, usize),
    shelf: &mut RequestShelf<'_>,
    sink: &mut RoomSink<'_>,
) -> Result<Status, Refused>
    requires fresh { shelf.old.faults ≡ 0 }
    requires empty { sink.old.count ≡ 0 }
    requires calm { sink.old.faults ≡ 0 }
    ensures request { IfOk result (λ _. IsAsked file.now shelf.old.bytes.now shelf.old.places.now) }
    ensures form { IsErrOf result Refused.NotInForm → ¬ IsAsked file.now shelf.old.bytes.now shelf.old.places.now }
    ensures same_room { sink.new.room.ghost_name ≡ sink.old.room.ghost_name }
    ensures nothing { OnErr result (sink.new.count ≡ sink.old.count) }
    ensures ended { IfOk result (λ status. IsTraced (files_in shelf.old.bytes.now shelf.old.places.now) file.now
        steps.0 steps.1 (number_of status) (length sink.new.room.now) (take sink.new.count sink.new.room.now)) }
{
    shelf.check()?;
    let world = read_word(alloc, file)?;
    let request = Request {
        world: world.as_str(),
        first: steps.0 as u64,
        last: steps.1 as u64,
    };
    Ok(status_of(trace_over(alloc, &request, shelf, sink)))
}

/// Writes these lines, or as many of them as fit in the buffer.
fn write_lines(lines: &[u8], sink: &mut RoomSink<'_>) -> Status
    requires calm { sink.old.faults ≡ 0 }
    ensures same_room { sink.new.room.ghost_name ≡ sink.old.room.ghost_name }
    ensures read { ¬ (number_of result ≡ number_of ReadFault) }
    ensures full { number_of result ≡ number_of WriteFault → sink.new.count ≡ length sink.new.room.now }
{
    match write_all(sink, lines) {
        Ok(()) => Status::Ok,
        Err(_) => Status::WriteFault,
    }
}

/// Writes the lines of the moment of a trace to which a move leads.
fn show(
    alloc: Global,
    trace: &[u8],
    moment: usize,
    words: &[String],
    sink: &mut RoomSink<'_>,
) -> Status
    requires calm { sink.old.faults ≡ 0 }
    ensures same_room { sink.new.room.ghost_name ≡ sink.old.room.ghost_name }
    ensures read { ¬ (number_of result ≡ number_of ReadFault) }
    ensures full { number_of result ≡ number_of WriteFault → sink.new.count ≡ length sink.new.room.now }
{
    match seek(alloc, trace, moment, words) {
        Ok(lines) => write_lines(lines.as_slice(), sink),
        Err(Refusal::Fault(SeekFault::Move)) => Status::Usage,
        Err(Refusal::Fault(SeekFault::Line(_))) => Status::BadWorld,
        Err(Refusal::NoMemory) => Status::NoMemory,
    }
}

/// Writes the lines of the moment to which a move leads from another one. `words` has the words of the move, each a
/// line.
pub fn write_moment(
    alloc: Global,
    file: &[u8],
    moment: usize,
    words: &[u8],
    shelf: &RequestShelf<'_>,
    sink: &mut RoomSink<'_>,
) -> Result<Status, Refused>
    requires calm { sink.old.faults ≡ 0 }
    ensures form { IsErrOf result Refused.NotInForm
        → ¬ (IsAsked file.now shelf.now.bytes.now shelf.now.places.now × IsUtf8 words.now) }
    ensures same_room { sink.new.room.ghost_name ≡ sink.old.room.ghost_name }
    ensures nothing { OnErr result (sink.new.count ≡ sink.old.count) }
    ensures missing { IfOk result (λ status. number_of status ≡ number_of ReadFault
        → files_in shelf.now.bytes.now shelf.now.places.now file.now ≡ None) }
    ensures full { IfOk result (λ status. number_of status ≡ number_of WriteFault
        → sink.new.count ≡ length sink.new.room.now) }
{
    shelf.check()?;
    let (file, words) = (read_word(alloc, file)?, read_lines(alloc, words)?);
    match shelf.text_of(file.as_str()) {
        Some(trace) => Ok(show(alloc, trace, moment, words.as_slice(), sink)),
        None => Ok(Status::ReadFault),
    }
}

/// Writes a state into this sink, into which nothing was written yet.
fn state_over(
    alloc: Global,
    at: Option<Position>,
    file: &str,
    shelf: &mut RequestShelf<'_>,
    sink: &mut RoomSink<'_>,
) -> Status
    requires fresh { shelf.old.faults ≡ 0 }
    requires empty { sink.old.count ≡ 0 }
    requires calm { sink.old.faults ≡ 0 }
    ensures same_room { sink.new.room.ghost_name ≡ sink.old.room.ghost_name }
    ensures ended { EndedOver (files_in shelf.old.bytes.now shelf.old.places.now) (Some (State at file.now))
        (length sink.new.room.now) result (take sink.new.count sink.new.room.now) }
{
    state(alloc, at, file, shelf, sink, &mut ReturningLink)
}

/// Writes the journal of a world file up to a position, and then what the world holds there.
pub fn write_state(
    alloc: Global,
    file: &[u8],
    at: Option<Position>,
    shelf: &mut RequestShelf<'_>,
    sink: &mut RoomSink<'_>,
) -> Result<Status, Refused>
    requires fresh { shelf.old.faults ≡ 0 }
    requires empty { sink.old.count ≡ 0 }
    requires calm { sink.old.faults ≡ 0 }
    ensures request { IfOk result (λ _. IsAsked file.now shelf.old.bytes.now shelf.old.places.now) }
    ensures form { IsErrOf result Refused.NotInForm → ¬ IsAsked file.now shelf.old.bytes.now shelf.old.places.now }
    ensures same_room { sink.new.room.ghost_name ≡ sink.old.room.ghost_name }
    ensures nothing { OnErr result (sink.new.count ≡ sink.old.count) }
    ensures ended { IfOk result (λ status. EndedOver (files_in shelf.old.bytes.now shelf.old.places.now)
        (Some (State at file.now)) (length sink.new.room.now) status (take sink.new.count sink.new.room.now)) }
{
    shelf.check()?;
    let world = read_word(alloc, file)?;
    Ok(state_over(alloc, at, world.as_str(), shelf, sink))
}
