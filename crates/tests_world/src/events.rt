//! Events and texts as tests need them.

ghost use Rattle.std.specs.Prelude.{◌≡◌, false, IfOk};
ghost use Rattle.lsl_script.specs.Fitting.{is_exit};

use lsl_post::{Event, Toucher};
use lsl_text::NoMemory;
use lsl_value::{EventId, Text, Value, Values};
use std::alloc::{AllocError, Global};
use std::test::Fail;

/// A text of these characters.
pub(crate) fn text(alloc: Global, characters: &str) -> Result<Text, NoMemory> {
    match Text::from_utf8(alloc, characters.as_bytes())? {
        Some(text) => Ok(text),
        None => Err(AllocError),
    }
}

/// A touch by Ann, of this number.
pub(crate) fn touch(alloc: Global, number: i32) -> Result<Event, NoMemory>
    ensures { IfOk result (λ event. is_exit event ≡ false) }
{
    let args = Values::from_vec(vec![in alloc; Value::Int(number)]?);
    let toucher = Toucher {
        key: text(alloc, "00000000-0000-0000-0000-0000000000aa")?,
        name: text(alloc, "Ann")?,
        link: number,
    };
    Ok(Event {
        id: EventId::TouchStart,
        args,
        toucher: Some(toucher),
    })
}

/// An event that has no argument.
pub(crate) fn timer(alloc: Global) -> Event
    ensures { is_exit result ≡ false }
{
    Event {
        id: EventId::Timer,
        args: Values::new(alloc),
        toucher: None,
    }
}

/// The number of a touch, and 0 of another event.
pub(crate) fn number(event: &Event) -> i32 {
    match event.args.as_slice().first() {
        Some(Value::Int(number)) => *number,
        _ => 0,
    }
}

#[test]
fn copies_of_events(rt: HostRuntime) -> Result<(), Fail> {
    let copied = touch(rt.alloc(), 3)?.copy(rt.alloc())?;
    assert!(rt; copied.id == EventId::TouchStart);
    assert_eq!(rt; number(&copied), 3);
    let toucher = copied.toucher.ok_or("a toucher")?;
    assert_eq!(rt; toucher.name.as_str(), "Ann");
    assert_eq!(rt; toucher.link, 3);
    assert!(rt; timer(rt.alloc()).copy(rt.alloc())?.is_timer());
    Ok(())
}
