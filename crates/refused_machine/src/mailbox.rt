//! Clauses of `lsl_post`.

ghost use Rattle.std.specs.Prelude.{◌≡◌, ◌≤◌, [], IfOk};
ghost use Rattle.lsl_post.specs.Due.{IsRipe};
ghost use Rattle.lsl_post.specs.Mailbox.{posted_to};
ghost use Rattle.lsl_post.specs.Queue.{with_event};
ghost use Rattle.lsl_post.specs.Timer.{timing_of};
ghost use Rattle.lsl_post.specs.Timing.{latest_clock, timing_set};

use lsl_code::Woven;
use lsl_post::{Due, Event, Posted, Queue, ScriptParts, Timer};
use lsl_text::NoMemory;
use std::alloc::Global;

/// As `Queue::put`.
pub fn queued(queue: &mut Queue, event: Event) -> Option<Event>
    ensures { queue.new ≡ with_event event queue.old }
{
    queue.put(event)
}

/// As `Queue::clear`, which a change of state calls.
pub fn cleared(queue: &mut Queue) -> u32
    ensures { queue.new ≡ [] }
{
    queue.clear()
}

/// As `ScriptParts::post`.
pub fn posted(parts: &mut ScriptParts, unit: &Woven, event: Event) -> Posted
    ensures { result ≡ posted_to unit.now.states event parts.old }
{
    parts.post(unit, event)
}

/// As `Timer::set`.
pub fn set_timer(timer: &mut Timer, seconds: i32, clock: u64)
    requires { clock ≤ latest_clock }
    ensures { timing_of timer.new ≡ timing_set seconds clock }
{
    timer.set(seconds, clock);
}

/// As `Due::ripe`.
pub fn ripe(due: &Due, alloc: Global, clock: u64) -> Result<Vec<u32>, NoMemory>
    ensures { IfOk result (λ scripts. IsRipe clock due.now scripts.items) }
{
    due.ripe(alloc, clock)
}
