//! Queues about their greatest length, and timer events in them.

use crate::events::{number, timer, touch};
use lsl_post::Queue;
use lsl_text::NoMemory;
use std::alloc::Global;
use std::test::Fail;

/// A queue of touches, numbered from 1.
fn filled(alloc: Global, count: i32) -> Result<Queue, NoMemory> {
    let mut queue = Queue::new(alloc)?;
    for at in 0..count {
        let _back = put(alloc, &mut queue, at + 1)?;
    }
    Ok(queue)
}

/// Puts a touch: the number of what is returned, and 0 if nothing is.
fn put(alloc: Global, queue: &mut Queue, at: i32) -> Result<i32, NoMemory> {
    Ok(match queue.put(touch(alloc, at)?) {
        Some(event) => number(&event),
        None => 0,
    })
}

/// Takes an event and returns its number: 0 for a timer event, and -1 if none waits.
fn take(queue: &mut Queue) -> i32 {
    match queue.take() {
        Some(event) => number(&event),
        None => -1,
    }
}

/// The number that wait; what the next one that is put returns, how many wait then, and the first of them.
const FULL: &str = "\
0 -> 0 1 99\n\
1 -> 0 2 1\n\
62 -> 0 63 1\n\
63 -> 0 64 1\n\
64 -> 99 64 1";

fn told(alloc: Global, count: &str) -> Result<String, NoMemory> {
    let mut queue = filled(alloc, count.parse::<i32>().unwrap_or(0))?;
    let back = put(alloc, &mut queue, 99)?;
    let then = queue.count();
    format!(in alloc; "{back} {then} {}", take(&mut queue))
}

#[test]
fn sixty_four_wait(rt: HostRuntime) -> Result<(), Fail> {
    for line in FULL.split('\n') {
        let (count, want) = line.split_once(" -> ").ok_or("an answer")?;
        assert!(rt; told(rt.alloc(), count)?.as_str() == want, "{line}");
    }
    Ok(())
}

#[test]
fn events_leave_in_order(rt: HostRuntime) -> Result<(), Fail> {
    let mut queue = filled(rt.alloc(), 64)?;
    for turn in 0..100 {
        assert_eq!(rt; take(&mut queue), turn + 1);
        assert_eq!(rt; put(rt.alloc(), &mut queue, turn + 65)?, 0);
    }
    let mut copy = queue.copy(rt.alloc())?;
    assert_eq!(rt; copy.clear(), 64);
    assert_eq!(rt; take(&mut copy), -1);
    assert_eq!(rt; queue.count(), 64);
    Ok(())
}

#[test]
fn timer_events_are_seen(rt: HostRuntime) -> Result<(), Fail> {
    let mut queue = filled(rt.alloc(), 2)?;
    for _ in 0..2 {
        assert!(rt; queue.put(timer(rt.alloc())).is_none());
    }
    // what is taken, and whether a timer event waits then
    for want in "1 true/2 true/0 true/0 false/-1 false".split('/') {
        let taken = take(&mut queue);
        let told = format!(in rt.alloc(); "{taken} {}", queue.has_timer())?;
        assert!(rt; told.as_str() == want, "{want}");
    }
    Ok(())
}
