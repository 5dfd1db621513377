//! The events that wait.

ghost use Rattle.std.specs.Prelude.{◌≤◌, false};
ghost use Rattle.lsl_image.specs.Layout.{repeated};
ghost use Rattle.lsl_image.specs.Reading.{Reads};
ghost use Rattle.lsl_image.specs.Script.{event_in, queue};

use crate::events::read_event;
use crate::fields::{Read, read_u8_within};
use lsl_code::Woven;
use lsl_post::Queue;
use std::alloc::Global;

/// How many events wait at most.
const MOST_EVENTS: u8 = 64;

/// The events that wait: none is an exit, and the state has a handler for each.
pub fn read_queue(
    alloc: Global,
    bytes: &[u8],
    place: usize,
    unit: &Woven,
    state: u16,
) -> Read<Queue>
    ensures { Reads bytes.now (queue unit.now state) place result }
{
    let (count, next) = read_u8_within(bytes, place, MOST_EVENTS)?;
    read_events(alloc, bytes, next, unit, state, count)
}

fn read_events(
    alloc: Global,
    bytes: &[u8],
    place: usize,
    unit: &Woven,
    state: u16,
    count: u8,
) -> Read<Queue>
    requires { count ≤ 64 }
    ensures { Reads bytes.now (repeated count (event_in unit.now state false)) place result }
{
    let mut queue = Queue::new(alloc)?;
    let mut next = place;
    for i in 0..count {
        let (event, behind) = read_event(alloc, bytes, next, unit, state, false)?;
        drop(queue.put(event));
        next = behind;
    }
    Ok((queue, next))
}
