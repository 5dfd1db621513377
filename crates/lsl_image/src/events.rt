//! Events, with a value for each parameter.

ghost use Rattle.std.specs.Prelude.{◌≡◌, slice_get};
ghost use Rattle.lsl_table.specs.Events.{events};
ghost use Rattle.lsl_image.specs.Reading.{Reads};
ghost use Rattle.lsl_image.specs.Script.{event_in, event_numbered, event_of, event_that_may, may_stand};

use crate::faults::wrong;
use crate::fields::{Read, read_u8};
use crate::toucher::read_toucher;
use crate::values::read_values;
use lsl_code::Woven;
use lsl_post::Event;
use lsl_table::signature;
use lsl_value::EventId;
use std::alloc::Global;

/// The events in the order of their numbers, from 1.
static EVENTS: [EventId; 12] = [
    EventId::StateEntry,
    EventId::StateExit,
    EventId::TouchStart,
    EventId::Touch,
    EventId::TouchEnd,
    EventId::Listen,
    EventId::Timer,
    EventId::LinkMessage,
    EventId::Changed,
    EventId::OnRez,
    EventId::Dataserver,
    EventId::LinksetData,
];

/// An event that the state handles: an exit where one is due, and another where none is.
pub fn read_event(
    alloc: Global,
    bytes: &[u8],
    place: usize,
    unit: &Woven,
    state: u16,
    exits: bool,
) -> Read<Event>
    ensures { Reads bytes.now (event_in unit.now state exits) place result }
{
    let (number, next) = read_u8(bytes, place)?;
    let Some(id) = event_numbered(number) else {
        return Err(wrong(place));
    };
    if !may_stand(unit, state, exits, id) {
        return Err(wrong(place));
    }
    read_event_of(alloc, bytes, next, id)
}

// The event of this number, if there is one.
#[tactic(auto, using(crate::proofs::EventLemmas::numbered_none))]
fn event_numbered(number: u8) -> Option<EventId>
    ensures { result ≡ event_numbered number }
{
    if number == 0 {
        return None;
    }
    event_at(number - 1)
}

// The event at this place of the table, if there is one.
fn event_at(place: u8) -> Option<EventId>
    ensures { result ≡ slice_get events place }
{
    EVENTS.get(usize::from(place)).copied()
}

// Whether the state handles the event, and the event is an exit exactly where one is due.
fn may_stand(unit: &Woven, state: u16, exits: bool, id: EventId) -> bool
    ensures { result ≡ may_stand unit.now state exits id }
{
    if unit.handler(state, id).is_none() {
        return false;
    }
    if exits {
        return id == EventId::StateExit;
    }
    id != EventId::StateExit
}

// The arguments of this event, and its toucher.
fn read_event_of(alloc: Global, bytes: &[u8], place: usize, id: EventId) -> Read<Event>
    ensures { Reads bytes.now (event_of id) place result }
{
    let (args, next) = read_values(alloc, bytes, place, signature(id).as_slice())?;
    let (toucher, next) = read_toucher(alloc, bytes, next)?;
    let event = Event { id, args, toucher };
    Ok((event, next))
}
