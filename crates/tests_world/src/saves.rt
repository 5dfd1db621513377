//! The number of saves of scripts: a row has the steps of a world with one script, and the count after them.

use crate::stepping::saves_of;
use crate::texts::{CALLS, world_of};
use std::test::Fail;

/// A save is at the end of a turn that leaves the script in its handler, and after each segment at which a gap ends.
const OF_CALLS: &str = "touch; go 1 4; cross 1 \"B\"; run 100 -> 1
pause 1; touch; go 1 4; cross 1 \"B\"; run 100 -> 7
pause 2; touch; go 1 4; run 100 -> 4
touch; run 100 -> 0
touch; go 1 4; run 100 -> 1";

/// A hundred rounds: a hundred and one segments.
const LOOP: &str = "default { touch_start(integer n) { integer i; for (i = 0; i < 100; ++i) ; } }";

const OF_LOOP: &str = "touch -> 0
touch; go 1 0 -> 0
touch; go 1 1 -> 1
touch; go 1 100 -> 1
touch; go 1 101 -> 0
touch; go 1 1; go 1 100 -> 1
touch; run 8 -> 1
touch; run 9 -> 2
touch; run 16 -> 2
touch; run 100 -> 13
touch; run 1000 -> 12
pause 3; touch; go 1 10 -> 4
pause 10; touch; go 1 10 -> 2
pause 11; touch; go 1 10 -> 1
pause 2 3; touch; go 1 10 -> 5
pause 4; touch; go 1 3; pause 0; go 1 10 -> 2
pause 4; touch; go 1 3; pause 4; go 1 3 -> 2
pause 4; touch; go 1 3; go 1 3 -> 3
pause 1; touch; go 1 101 -> 100";

/// It sleeps in its first segment, and isn't ready before the clock advances.
const SLEEPER: &str =
    "default { touch_start(integer n) { llSleep(1); llSleep(0); llOwnerSay(\"up\"); } }";

const OF_SLEEPER: &str = "touch; go 1 5 -> 1
pause 1; touch; go 1 5 -> 1
pause 1; touch; go 1 5; go 1 5 -> 1
pause 1; touch; go 1 5; clock 1000; go 1 1 -> 3
pause 1; touch; go 1 5; clock 1000; go 1 5 -> 2";

#[test]
fn saves_are_counted(rt: HostRuntime) -> Result<(), Fail> {
    for (script, rows) in [(CALLS, OF_CALLS), (LOOP, OF_LOOP), (SLEEPER, OF_SLEEPER)] {
        for row in rows.split('\n') {
            let (steps, want) = row.split_once(" -> ").ok_or("steps and a count")?;
            let world = world_of(rt.alloc(), steps)?;
            let saves = saves_of(rt.alloc(), world.as_str(), script)?;
            let told = saves.ok_or("a good world and script")?;
            assert!(rt; want.parse::<u64>() == Ok(told), "{row}: {told}");
        }
    }
    Ok(())
}
