//! Events, appended to an image. After an `Err` of a call that appends, some of its bytes may follow the old ones.

ghost use Rattle.std.specs.Prelude.{◌≡◌, ◌++◌, OnOk};
ghost use Rattle.std.specs.List.{flat_map, AllByRecursion};
ghost use Rattle.lsl_code.specs.Units.{event_number};
ghost use Rattle.lsl_image.specs.Bytes.{event_bytes, queue_bytes, told_bytes, toucher_bytes, values_bytes};
ghost use Rattle.lsl_image.specs.Fits.{AreValues, FitsEvent, FitsQueue, FitsTold, FitsToucher};

use lsl_bytes::{push_i32, push_text, push_u8, push_value};
use lsl_post::{Event, Queue, Toucher};
use lsl_text::NoMemory;
use lsl_value::{EventId, Value};

/// Appends values.
pub fn write_values(out: &mut Vec<u8>, values: &[Value]) -> Result<(), NoMemory>
    ensures ok { OnOk result (out.new.items ≡ out.old.items ++ values_bytes values.now) }
    ensures fits { OnOk result (AreValues values.now) }
{
    for value in values {
        push_value(out, value)?;
    }
    Ok(())
}

/// Appends the count of the events that wait, and the events.
#[tactic(auto, unfolding(crate::specs::Bytes::queue_bytes))]
pub fn write_queue(out: &mut Vec<u8>, queue: &Queue) -> Result<(), NoMemory>
    ensures ok { OnOk result (out.new.items ≡ out.old.items ++ queue_bytes queue.now) }
    ensures fits { OnOk result (FitsQueue queue.now) }
{
    push_u8(out, queue.count() as u8)?;
    write_events(out, queue)
}

fn write_events(out: &mut Vec<u8>, queue: &Queue) -> Result<(), NoMemory>
    ensures ok { OnOk result (out.new.items ≡ out.old.items ++ flat_map event_bytes queue.now) }
    ensures fits { OnOk result (AllByRecursion FitsEvent queue.now) }
{
    for place in 0..queue.count() {
        write_event(out, queue.event(place))?;
    }
    Ok(())
}

/// Appends an event: its number, its arguments and its toucher.
#[tactic(auto, unfolding(crate::specs::Bytes::event_bytes))]
pub fn write_event(out: &mut Vec<u8>, event: &Event) -> Result<(), NoMemory>
    ensures ok { OnOk result (out.new.items ≡ out.old.items ++ event_bytes event.now) }
    ensures fits { OnOk result (FitsEvent event.now) }
{
    push_u8(out, event_number(event.id))?;
    write_values(out, event.args.as_slice())?;
    write_toucher(out, &event.toucher)
}

// The number of the event, from 1.
fn event_number(id: EventId) -> u8
    ensures { result ≡ event_number id }
{
    match id {
        EventId::StateEntry => 1,
        EventId::StateExit => 2,
        EventId::TouchStart => 3,
        EventId::Touch => 4,
        EventId::TouchEnd => 5,
        EventId::Listen => 6,
        EventId::Timer => 7,
        EventId::LinkMessage => 8,
        EventId::Changed => 9,
        EventId::OnRez => 10,
        EventId::Dataserver => 11,
        EventId::LinksetData => 12,
    }
}

fn write_toucher(out: &mut Vec<u8>, toucher: &Option<Toucher>) -> Result<(), NoMemory>
    ensures ok { OnOk result (out.new.items ≡ out.old.items ++ toucher_bytes toucher.now) }
    ensures fits { OnOk result (FitsToucher toucher.now) }
{
    match toucher {
        None => push_u8(out, 0),
        Some(told) => {
            push_u8(out, 1)?;
            write_told(out, told)
        }
    }
}

// Appends a toucher's key, name and prim.
#[tactic(auto, unfolding(crate::specs::Bytes::told_bytes))]
fn write_told(out: &mut Vec<u8>, toucher: &Toucher) -> Result<(), NoMemory>
    ensures ok { OnOk result (out.new.items ≡ out.old.items ++ told_bytes toucher.now) }
    ensures fits { OnOk result (FitsTold toucher.now) }
{
    push_text(out, &toucher.key)?;
    push_text(out, &toucher.name)?;
    push_i32(out, toucher.link)
}
