//! Frames at chosen ticks, and how many instructions bring them back.

ghost use Rattle.std.specs.Prelude.{IfOk};
ghost use Rattle.tests_world.specs.Driven.{IsAtTick};

use crate::driving::{behind_ticks, parked, unparked};
use crate::frames::{number, tell_slots};
use crate::hosting::unit_of;
use lsl_code::{Sack, Woven};
use lsl_machine::Machine;
use lsl_text::NoMemory;
use std::alloc::Global;
use std::test::Fail;

/// The machine saved and restored, and after how many instructions; the frames between are shown.
pub(crate) fn moved(
    alloc: Global,
    unit: &Woven,
    handler: u16,
    machine: Machine,
    told: &mut String,
) -> Result<(Machine, u64), NoMemory>
    requires { IsAtTick unit.now handler machine }
    ensures { IfOk result (λ back. IsAtTick unit.now handler back.0) }
{
    let parked = parked(unit, handler, machine)?;
    tell_frames(&parked.sack, told)?;
    unparked(alloc, unit, handler, parked)
}

/// The values of each frame. Of more than nine frames it shows their number, the number of values of the first and the
/// last, and how many frames have two.
fn tell_frames(sack: &Sack, told: &mut String) -> Result<(), NoMemory> {
    let count = sack.len();
    if count < 10 {
        return tell_slots(told, sack);
    }
    let ends = (sack.call(0).values.len(), sack.call(count - 1).values.len());
    write!(told, " {count} {ends:?} {}", with_two(sack))
}

/// How many frames have two values.
fn with_two(sack: &Sack) -> u32 {
    let mut count: u32 = 0;
    for i in 0..sack.len() {
        if sack.call(i).values.len() == 2 {
            count = count.wrapping_add(1);
        }
    }
    count
}

/// Ticks that the handler of a touch passes, and the most instructions that bring its frames back; the values of the
/// frames there, the innermost first, and whether that many bring them back; and then the script.
const SAVED: &str = "\
4 52 -> | 4 2 1 | 1 10, true\n\
integer f(integer n) { integer i; integer s; for (i = 0; i < n; ++i) s += i; return s; } \
integer g(integer n) { return n * 10; } default { touch_start(integer n) { llOwnerSay((string)(f(4) + g(1))); } }\n\n\
0 28 -> | 1, true\n\
default { touch_start(integer n) { } }\n\n\
3 72 -> | 0 | 1 7 | 2 7 | 1, true\n\
integer f(integer n) { if (n == 0) return 5; return f(n - 1) - 7; } \
default { touch_start(integer n) { n = 9 - f(2); } }\n\n\
500 8024 -> 501 (1, 1) 499, true\n\
integer d(integer n) { if (n == 0) return 0; return d(n - 1) + 1; } default { touch_start(integer t) { \
llOwnerSay((string)d(500)); } }";

/// The frames of the handler of a touch after this many ticks, and whether few instructions bring them back.
fn told(alloc: Global, unit: &Woven, asked: &str) -> Result<String, NoMemory> {
    let (ticks, most) = asked.split_once(' ').unwrap_or((asked, ""));
    let most = most.parse::<u64>().unwrap_or(0);
    let mut told = String::new(alloc);
    if let Some((handler, machine)) = behind_ticks(alloc, unit, u32::from(number(ticks)))? {
        let (_back, steps) = moved(alloc, unit, handler, machine, &mut told)?;
        write!(told, ", {}", 0 < steps && steps <= most)?;
    }
    Ok(told)
}

#[test]
fn frames_are_saved(rt: HostRuntime) -> Result<(), Fail> {
    for block in SAVED.split("\n\n") {
        let (line, text) = block.split_once('\n').ok_or("a script")?;
        let (asked, want) = line.split_once(" ->").ok_or("an answer")?;
        let said = told(rt.alloc(), &unit_of(&rt, rt.alloc(), text), asked)?;
        assert!(rt; said.as_str() == want, "{line}, and not:{said}");
    }
    Ok(())
}
