//! Frames from outside, and what is wrong with them.

use crate::frames::sack;
use crate::hosting::unit_of;
use lsl_code::Woven;
use lsl_text::NoMemory;
use lsl_value::Values;
use std::alloc::Global;
use std::test::Fail;

/// Two functions with a slot, each of which calls the first while an operand waits. Their first point is a tick with
/// one integer, the second that call with two.
const CALLS: &str =
    "integer f(integer n) { return f(n) - 7; } integer g(integer n) { return f(n) - 7; } \
    default { touch_start(integer n) { } }";

/// The limit, and a function, a point and values for each frame, the innermost first; what is wrong if function 0 is
/// the handler, or `-`. A script is charged 1,024, a frame 32, and an integer 8.
const CASES: &str = r"# no frame
1184: -> Frame(0)
# one frame, with the greatest charge, and one more
1064: 0 0 5 -> -
1063: 0 0 5 -> Charge
# two frames, and three
1112: 0 0 5, 0 1 1 7 -> -
1111: 0 0 5, 0 1 1 7 -> Charge
1160: 0 0 5, 0 1 1 7, 0 1 2 8 -> -
# the innermost at a call
1184: 0 1 1 7 -> Frame(0)
# an outer one at a tick
1184: 0 0 5, 0 0 5 -> Frame(1)
# an outer one that calls another function
1184: 1 0 5, 0 1 1 7 -> Frame(1)
# the last of another function than the handler
1184: 1 0 5 -> Frame(0)
# a function that isn't there, and a point
1184: 3 0 5 -> Frame(0)
1184: 0 2 5 -> Frame(0)
# a value too many, and too few
1184: 0 0 5 6 -> Frame(0)
1184: 0 0 5, 0 1 1 -> Frame(1)
# a wrong kind, of a slot and of an operand
1184: 0 0 text -> Frame(0)
1184: 0 0 5, 0 1 1 text -> Frame(1)";

/// What is wrong with these frames beside no globals.
fn told(alloc: Global, unit: &Woven, case: &str) -> Result<String, NoMemory> {
    let (limit, words) = case.split_once(':').unwrap_or((case, ""));
    let sack = sack(alloc, words.trim_start())?;
    if sack.len() > 65_535 {
        return String::from_str(alloc, "too many");
    }
    let limit = limit.parse::<u32>().unwrap_or(0);
    match sack.check(&Values::new(alloc), limit, unit, 0) {
        Ok(_) => String::from_str(alloc, "-"),
        Err(fault) => format!(in alloc; "{fault:?}"),
    }
}

#[test]
fn wrong_frames_are_told(rt: HostRuntime) -> Result<(), Fail> {
    let unit = unit_of(&rt, rt.alloc(), CALLS);
    for line in CASES.split('\n') {
        if !line.starts_with('#') {
            let (case, want) = line.split_once(" -> ").ok_or("an answer")?;
            let said = told(rt.alloc(), &unit, case)?;
            assert!(rt; said.as_str() == want, "{line}, and not: {said}");
        }
    }
    Ok(())
}
