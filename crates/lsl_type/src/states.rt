//! States and their handlers: what they declare, or their first fault.

ghost use Rattle.std.specs.Prelude.{◌≡◌, map, [], ◌∷◌, ◌++◌};
ghost use Rattle.lsl_tree.specs.Scripts.{handler_of, state_of};
ghost use Rattle.lsl_bodies.specs.Verdict.{Rules, each_verdict};
ghost use Rattle.lsl_type.specs.HeaderVerdicts.{handler_verdict, state_verdict, has_event};

use crate::params::{has_kinds, params};
use lsl_bodies::{Names, Refused, TypeKind, event, event_params, fault};
use lsl_tree::{Handler, State};
use lsl_value::EventId;
use std::alloc::Global;

/// The states after `default`, and their handlers. The names of parameters are looked up in `seen`.
pub(crate) fn states(alloc: Global, seen: &mut Names, list: &[State]) -> Result<Names, Refused>
    ensures { Rules (λ n. n) result (each_verdict state_verdict [] (map state_of list.now)) }
{
    let mut names = Names::new(alloc);
    for state in list {
        add_state(alloc, seen, &mut names, state)?;
    }
    Ok(names)
}

fn add_state(
    alloc: Global,
    seen: &mut Names,
    names: &mut Names,
    state: &State,
) -> Result<(), Refused>
    ensures { Rules (λ _. names.new) result (state_verdict names.old (state_of state.now)) }
{
    let name = state.name.text.as_str();
    if names.find(name).is_some() {
        return Err(fault(TypeKind::DoubleName, state.name.span));
    }
    handlers(alloc, seen, state.handlers.as_slice())?;
    names.push(alloc, name)?;
    Ok(())
}

/// The events of a state's handlers.
pub(crate) fn handlers(
    alloc: Global,
    seen: &mut Names,
    list: &[Handler],
) -> Result<Vec<EventId>, Refused>
    ensures { Rules (λ v. v.items) result (each_verdict handler_verdict [] (map handler_of list.now)) }
{
    let mut events = Vec::new(alloc);
    for handler in list {
        let event = handler_event(alloc, seen, events.as_slice(), handler)?;
        events.push(event)?;
    }
    Ok(events)
}

/// The event of a handler, which has the event's parameters and is the first of the event in its state.
fn handler_event(
    alloc: Global,
    seen: &mut Names,
    events: &[EventId],
    handler: &Handler,
) -> Result<EventId, Refused>
    ensures { Rules (λ event. events.now ++ event ∷ []) result (handler_verdict events.now (handler_of handler.now)) }
{
    let name = &handler.name;
    let Some(event) = event(name.text.as_str()) else {
        return Err(fault(TypeKind::WrongHandler, name.span));
    };
    if has_event(events, event) {
        return Err(fault(TypeKind::DoubleName, name.span));
    }
    if !has_kinds(handler.params.as_slice(), event_params(event).as_slice()) {
        return Err(fault(TypeKind::WrongHandler, name.span));
    }
    params(alloc, seen, handler.params.as_slice())?;
    Ok(event)
}

/// Whether the event is among these.
fn has_event(events: &[EventId], event: EventId) -> bool
    ensures { result ≡ has_event events.now event }
{
    events.contains(&event)
}
