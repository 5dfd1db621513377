//! A script at rest.

ghost use Rattle.std.specs.Prelude.{◌≡◌, if◌then◌else◌, IfOk};
ghost use Rattle.lsl_post.specs.Mailbox.{is_alive, posted_to, takes, with_posted};
ghost use Rattle.lsl_post.specs.Queue.{has_room, with_event};

use crate::events::Event;
use crate::listens::Listens;
use crate::queue::Queue;
use crate::timer::Timer;
use lsl_code::{Sack, Woven};
use lsl_running::Fault;
use lsl_text::NoMemory;
use lsl_value::{Text, Values};
use std::alloc::Global;

/// A name with its value, as a store keeps it.
#[derive(Drop)]
pub struct Pair {
    pub name: Text,
    pub value: Text,
}

/// What a script does between turns.
#[derive(Drop)]
pub enum Rest {
    /// no handler is in flight
    Idle,
    /// the handler of this event was cut at a tick, with these saved calls
    Saved(Event, Sack),
    /// it stopped for good
    Dead(Fault),
}

/// What happened to a posted event.
#[derive(Drop)]
pub enum Posted {
    Queued,
    /// 64 events wait already
    Dropped(Event),
    /// the script is dead, has no handler for it in its state, or has a timer event waiting already
    Unheard,
}

/// A script between turns: the number of its unit, its globals and the limit of its charge, its state, the
/// state that it is leaving for, the events that wait, its listens, its timer, when it wakes, and how it rests.
#[derive(Drop)]
pub struct ScriptParts {
    pub unit: u32,
    pub globals: Values,
    pub limit: u32,
    pub state: u16,
    pub leaving: Option<u16>,
    pub queue: Queue,
    pub listens: Listens,
    pub timer: Timer,
    pub wake: u64,
    pub rest: Rest,
}

impl Rest {
    /// Whether the script didn't stop for good. Takes no memory.
    pub fn is_alive(&self) -> bool
        ensures { result ≡ is_alive self.now }
    {
        !matches!(self, Rest::Dead(_))
    }

    /// An equal one.
    pub fn copy(&self, alloc: Global) -> Result<Rest, NoMemory>
        ensures { IfOk result (λ rest. rest ≡ self.now) }
    {
        match self {
            Rest::Idle => Ok(Rest::Idle),
            Rest::Saved(event, sack) => Ok(Rest::Saved(event.copy(alloc)?, sack.copy(alloc)?)),
            Rest::Dead(fault) => Ok(Rest::Dead(*fault)),
        }
    }
}

impl ScriptParts {
    /// Posts an event to the script, which has this unit. Takes no memory; walks the state's handlers, and at
    /// a timer event the queue.
    pub fn post(&mut self, unit: &Woven, event: Event) -> Posted
        ensures posted { result ≡ posted_to unit.now.states event self.old }
        ensures parts { self.new ≡ with_posted unit.now.states event self.old }
    {
        if self.takes(unit, &event) && !(event.is_timer() && self.queue.has_timer()) {
            return queue(&mut self.queue, event);
        }
        Posted::Unheard
    }

    /// Whether the script takes the event: it is alive, and its state has a handler for it. Takes no memory;
    /// walks the state's handlers.
    pub fn takes(&self, unit: &Woven, event: &Event) -> bool
        ensures { result ≡ takes unit.now.states self.now event.now }
    {
        self.rest.is_alive() && unit.handler(self.state, event.id).is_some()
    }

    /// Equal parts.
    pub fn copy(&self, alloc: Global) -> Result<ScriptParts, NoMemory>
        ensures { IfOk result (λ parts. parts ≡ self.now) }
    {
        Ok(ScriptParts {
            unit: self.unit,
            globals: self.globals.copy(alloc)?,
            limit: self.limit,
            state: self.state,
            leaving: self.leaving,
            queue: self.queue.copy(alloc)?,
            listens: self.listens.copy(alloc)?,
            timer: self.timer,
            wake: self.wake,
            rest: self.rest.copy(alloc)?,
        })
    }
}

// Puts the event last, if there is room.
fn queue(queue: &mut Queue, event: Event) -> Posted
    ensures posted { result ≡ (if has_room queue.old then Posted.Queued else Posted.Dropped event) }
    ensures queue { queue.new ≡ with_event event queue.old }
{
    match queue.put(event) {
        None => Posted::Queued,
        Some(event) => Posted::Dropped(event),
    }
}
