//! The events that wait for a script.

ghost use Rattle.std.specs.Prelude.{◌≡◌, ◌<◌, ◌≤◌, [], length, drop, slice_get, Some, IfOk};
ghost use Rattle.lsl_post.specs.Queue.{has_timer, is_timer, most_events, put_back, with_event};

use crate::events::Event;
use circular_buffer::HeapCircularBuffer;
use lsl_text::NoMemory;
use lsl_value::EventId;
use std::alloc::Global;
use std::marker::Model;

/// How many events wait at most.
const MOST_EVENTS: usize = 64;

/// At most 64 events, the first to be taken first.
#[derive(Drop)]
pub struct Queue {
    ring: Box<HeapCircularBuffer<Event>>,
}

impl Model for Queue {
    ghost use Rattle.std.specs.Prelude.{List, ◌≡◌};
    ghost use Rattle.lsl_post.specs.declared.events.Event.{Event};
    ghost use Rattle.lsl_post.specs.Queue.{most_events};

    ghost Value = { List Event };

    ghost view = { λ q. q.ring.value.items };

    ghost invariant = { λ q. q.ring.value.capacity ≡ most_events };
}

impl Queue {
    /// No event waits. Takes the memory for 64 events, and no later call but a copy takes any.
    pub fn new(alloc: Global) -> Result<Queue, NoMemory>
        ensures { IfOk result (λ queue. queue ≡ []) }
    {
        let ring = HeapCircularBuffer::with_capacity(alloc, MOST_EVENTS)?;
        Ok(Queue {
            ring: Box::new(alloc, ring)?,
        })
    }

    /// Removes and returns the event that waits longest, or none where none waits.
    pub fn take(&mut self) -> Option<Event>
        ensures value { result ≡ slice_get self.old 0 }
        ensures rest { self.new ≡ drop 1 self.old }
    {
        self.ring.pop_front()
    }

    /// Adds the event last, or returns it if 64 wait already.
    pub fn put(&mut self, event: Event) -> Option<Event>
        ensures value { result ≡ put_back event self.old }
        ensures queue { self.new ≡ with_event event self.old }
    {
        match self.ring.try_push_back(event) {
            Ok(()) => None,
            Err(event) => Some(event),
        }
    }

    /// Removes all events. Returns how many there were.
    pub fn clear(&mut self) -> u32
        ensures value { result ≡ length self.old }
        ensures queue { self.new ≡ [] }
    {
        let count = self.count();
        self.ring.clear();
        count
    }

    /// How many events wait.
    pub fn count(&self) -> u32
        ensures value { result ≡ length self.now }
        ensures within { length self.now ≤ most_events }
    {
        self.ring.len() as u32
    }

    /// The event at this place, from 0.
    pub fn event(&self, place: u32) -> &Event
        requires { place < length self.now }
        ensures { Some result.now ≡ slice_get self.now place }
    {
        match self.ring.get(place as usize) {
            Some(event) => event,
            None => unreachable!(),
        }
    }

    /// Whether a timer event waits. Walks the queue.
    pub fn has_timer(&self) -> bool
        ensures { result ≡ has_timer self.now }
    {
        for place in 0..self.count() {
            if self.event(place).is_timer() {
                return true;
            }
        }
        false
    }

    /// An equal queue. Takes the memory for 64 events, and what their copies take.
    pub fn copy(&self, alloc: Global) -> Result<Queue, NoMemory>
        ensures { IfOk result (λ queue. queue ≡ self.now) }
    {
        let mut copied = Queue::new(alloc)?;
        for place in 0..self.count() {
            drop(copied.put(self.event(place).copy(alloc)?));
        }
        Ok(copied)
    }
}

impl Event {
    /// Whether this is a timer event. Takes no memory.
    pub fn is_timer(&self) -> bool
        ensures { result ≡ is_timer self.now }
    {
        matches!(self.id, EventId::Timer)
    }
}
