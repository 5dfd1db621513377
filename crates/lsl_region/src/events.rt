//! The events that a grid posts.

ghost use Rattle.std.specs.Prelude.{◌≡◌, ◌∷◌, [], IfOk};
ghost use Rattle.lsl_value.specs.declared.tagged.Value.TheVariants as value;
ghost use Rattle.lsl_script.specs.Scripts.{timer_event};
ghost use Rattle.lsl_region.specs.Arrivals.{changed_event, rez_event, touch_end, touch_held, touch_start};
ghost use Rattle.lsl_region.specs.Notes.{data_event};
ghost use Rattle.lsl_region.specs.Posting.{listen_event, message_event};
ghost use Rattle.lsl_region.specs.Stores.{store_event};

use lsl_post::{Event, Filter, Toucher};
use lsl_text::NoMemory;
use lsl_value::{EventId, Text, Value, Values};
use std::alloc::Global;

/// The event of spoken text.
pub(crate) fn listen_event(alloc: Global, said: &Filter) -> Result<Event, NoMemory>
    ensures { IfOk result (λ event. event ≡ listen_event said.now) }
{
    let (name, id, message) = (said.name.copy()?, said.id.copy()?, said.message.copy()?);
    let args = vec![in alloc;
        Value::Int(said.channel),
        Value::Str(name),
        Value::Key(id),
        Value::Str(message),
    ]?;
    Ok(Event {
        id: EventId::Listen,
        args: Values::from_vec(args),
        toucher: None,
    })
}

/// The event of a message from the prim of this link number.
pub(crate) fn message_event(
    alloc: Global,
    sender: i32,
    number: i32,
    text: Text,
    key: Text,
) -> Result<Event, NoMemory>
    ensures { IfOk result (λ event. event ≡ message_event sender number text key) }
{
    let args = vec![in alloc;
        Value::Int(sender),
        Value::Int(number),
        Value::Str(text),
        Value::Key(key),
    ]?;
    Ok(Event {
        id: EventId::LinkMessage,
        args: Values::from_vec(args),
        toucher: None,
    })
}

/// The event that answers a script's query.
pub(crate) fn data_event(alloc: Global, query: Text, text: Text) -> Result<Event, NoMemory>
    ensures { IfOk result (λ event. event ≡ data_event query text) }
{
    let args = vec![in alloc; Value::Key(query), Value::Str(text)]?;
    Ok(Event {
        id: EventId::Dataserver,
        args: Values::from_vec(args),
        toucher: None,
    })
}

/// The event of a change of the object's store.
pub(crate) fn store_event(
    alloc: Global,
    how: i32,
    name: Text,
    text: Text,
) -> Result<Event, NoMemory>
    ensures { IfOk result (λ event. event ≡ store_event how name text) }
{
    let args = vec![in alloc; Value::Int(how), Value::Str(name), Value::Str(text)]?;
    Ok(Event {
        id: EventId::LinksetData,
        args: Values::from_vec(args),
        toucher: None,
    })
}

/// The event of a change with these flags.
pub(crate) fn changed_event(alloc: Global, flags: i32) -> Result<Event, NoMemory>
    ensures { IfOk result (λ event. event ≡ changed_event flags) }
{
    Ok(Event {
        id: EventId::Changed,
        args: integer(alloc, flags)?,
        toucher: None,
    })
}

/// The event of an object that is rezzed with this number.
pub(crate) fn rez_event(alloc: Global, n: i32) -> Result<Event, NoMemory>
    ensures { IfOk result (λ event. event ≡ rez_event n) }
{
    Ok(Event {
        id: EventId::OnRez,
        args: integer(alloc, n)?,
        toucher: None,
    })
}

/// The first event of a touch.
pub(crate) fn touch_start(alloc: Global, toucher: &Toucher) -> Result<Event, NoMemory>
    ensures { IfOk result (λ event. event ≡ touch_start toucher.now) }
{
    Ok(Event {
        id: EventId::TouchStart,
        args: integer(alloc, 1)?,
        toucher: Some(toucher.copy()?),
    })
}

/// The second one.
pub(crate) fn touch_held(alloc: Global, toucher: &Toucher) -> Result<Event, NoMemory>
    ensures { IfOk result (λ event. event ≡ touch_held toucher.now) }
{
    Ok(Event {
        id: EventId::Touch,
        args: integer(alloc, 1)?,
        toucher: Some(toucher.copy()?),
    })
}

/// The last one.
pub(crate) fn touch_end(alloc: Global, toucher: &Toucher) -> Result<Event, NoMemory>
    ensures { IfOk result (λ event. event ≡ touch_end toucher.now) }
{
    Ok(Event {
        id: EventId::TouchEnd,
        args: integer(alloc, 1)?,
        toucher: Some(toucher.copy()?),
    })
}

/// The event of a timer. Takes no memory.
pub(crate) fn timer_event(alloc: Global) -> Event
    ensures { result ≡ timer_event }
{
    Event {
        id: EventId::Timer,
        args: Values::new(alloc),
        toucher: None,
    }
}

// One integer as the arguments.
fn integer(alloc: Global, n: i32) -> Result<Values, NoMemory>
    ensures { IfOk result (λ values. values ≡ value.Int n ∷ []) }
{
    Ok(Values::from_vec(vec![in alloc; Value::Int(n)]?))
}
