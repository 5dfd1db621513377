//! Scripts that change their states, sleep, begin again and stop: plays as text.

use crate::turns::plays;
use std::test::Fail;

/// Each play: its steps, the result of each and the script's parts after it (`turns::tell_parts`), and after `--` the
/// script. A line without ` -> ` is a remark, and plays are separated by empty lines.
const PLAYS: &str = r##"# Two states, of which the first has an exit.
go 0 -> took state_entry, llListen 7, llSetTimerEvent 5, done 1032 None; 0 None 0 2 1 5 5000 0 Idle 0
touches 2 -> queued; 0 None 2 2 1 5 5000 0 Idle 0
go 9 -> took touch_start, done 1032 None; 0 Some(1) 1 2 1 5 5000 0 Idle 0
# What it leaves still hears.
touches 1 -> queued; 0 Some(1) 2 2 1 5 5000 0 Idle 0
ring -> unheard; 0 Some(1) 2 2 1 5 5000 0 Idle 0
# A change of state in the exit is a return. Queue and listens go, the timer and the numbers go on.
go 9 -> took state_exit, llOwnerSay bye, done 1032 Some(2); 1 None 1 2 0 5 5000 0 Idle 0
touches 1 -> unheard; 1 None 1 2 0 5 5000 0 Idle 0
go 9 -> took state_entry, llListen 8, llOwnerSay wide, done 1032 None; 1 None 0 3 1 5 5000 0 Idle 0
go 9 -> not ready; 1 None 0 3 1 5 5000 0 Idle 0
ring -> queued; 1 None 1 3 1 5 5000 0 Idle 0
ring -> unheard; 1 None 1 3 1 5 5000 0 Idle 0
# A change to the state in which it stands is a return.
go 9 -> took timer, done 1032 None; 1 None 0 3 1 5 5000 0 Idle 1
ring -> queued; 1 None 1 3 1 5 5000 0 Idle 1
# A state without an exit is left at once.
go 9 -> took timer, done 1032 Some(0); 0 None 1 3 0 5 5000 0 Idle 1
go 9 -> took state_entry, llListen 7, llSetTimerEvent 5, done 1032 None; 0 None 0 4 1 5 5009 0 Idle 1
--
integer n;
default {
    state_entry() { llListen(7, "", "", ""); llSetTimerEvent(5); }
    state_exit() { llOwnerSay("bye"); state default; }
    touch_start(integer t) { state wide; }
}
state wide {
    state_entry() { llListen(8, "", "", ""); llOwnerSay("wide"); }
    timer() { if (n) state default; ++n; state wide; }
}

# Handlers that sleep, begin the script again within a function, and divide by zero.
go 0 -> not ready; 0 None 0 1 0 0 0 0 Idle 1
ring -> queued; 0 None 1 1 0 0 0 0 Idle 1
go 5 -> took timer, llSleep 3, tick; 0 None 0 1 0 0 0 3005 Saved 9
touches 2 -> queued; 0 None 2 1 0 0 0 3005 Saved 9
go 3004 -> not ready; 0 None 2 1 0 0 0 3005 Saved 9
go 3005 -> tick; 0 None 2 1 0 0 0 3005 Saved 9
go 3005 -> llListen 4, llSetTimerEvent 9, done 1032 Some(2); 0 None 0 1 0 0 0 3005 Idle 1
touches 3 -> queued; 0 None 3 1 0 0 0 3005 Idle 1
go 4000 -> took touch_start, llSetTimerEvent 2, llSleep -1, tick; 0 None 2 1 0 2 6000 4000 Saved 9
go 4000 -> MathError; 0 None 0 1 0 0 0 4000 Dead 1
touches 1 -> unheard; 0 None 0 1 0 0 0 4000 Dead 1
ring -> unheard; 0 None 0 1 0 0 0 4000 Dead 1
go 9000 -> not ready; 0 None 0 1 0 0 0 4000 Dead 1
--
integer n = 1;
again() { llListen(4, "", "", ""); llSetTimerEvent(9); llResetScript(); }
default {
    timer() { n = 9; llSleep(3); again(); }
    touch_start(integer t) { integer z; n = 9; llSetTimerEvent(2); llSleep(-1); n = 1 / z; }
}

# An exit that begins the script again, and one that divides by zero: the state isn't left.
touches 2 -> queued; 0 None 2 1 0 0 0 0 Idle 0
go 0 -> took touch_start, done 1032 None; 0 Some(1) 1 1 0 0 0 0 Idle 0
go 0 -> took state_exit, done 1032 Some(1); 0 None 0 1 0 0 0 0 Idle 0
ring -> queued; 0 None 1 1 0 0 0 0 Idle 0
go 0 -> took timer, done 1032 None; 0 Some(1) 0 1 0 0 0 0 Idle 1
go 0 -> took state_exit, MathError; 0 None 0 1 0 0 0 0 Dead 0
--
integer n;
default {
    touch_start(integer t) { state wide; }
    timer() { ++n; state wide; }
    state_exit() { if (!n) llResetScript(); n = 1 / (n - 1); }
}
state wide { timer() { } }

# Handlers that do nothing.
touches 63 -> queued; 0 None 63 1 0 0 0 0 Idle 0
ring -> queued; 0 None 64 1 0 0 0 0 Idle 0
ring -> unheard; 0 None 64 1 0 0 0 0 Idle 0
touches 1 -> dropped 1; 0 None 64 1 0 0 0 0 Idle 0
go 0 -> took touch_start, done 1024 None; 0 None 63 1 0 0 0 0 Idle 0
ring -> unheard; 0 None 63 1 0 0 0 0 Idle 0
touches 2 -> dropped 2; 0 None 64 1 0 0 0 0 Idle 0
run 0 -> took touch_start, done 1024 None; 0 None 0 1 0 0 0 0 Idle 0
--
default { touch_start(integer n) { } timer() { } }

# As many listens as can stand, one of them asked for again, and one more.
go 0 -> took state_entry, llListen 0, tick; 0 None 0 2 1 0 0 0 Saved 0
run 0 -> llListen 3, llOwnerSay 4, llListen 65, TooManyListens; 0 None 0 1 0 0 0 0 Dead 0
--
default {
    state_entry() {
        integer i;
        for (i = 0; i < 65; ++i) llListen(i, "", "", "");
        llOwnerSay((string)llListen(3, "", "", ""));
        llListen(65, "", "", "");
    }
}

# A call while the value of another one waits: the frames.
touches 1 -> queued; 0 None 1 1 0 0 0 0 Idle 0
frames 4 -> tick | 4 2 1 | 1 10; 0 None 0 1 0 0 0 0 Saved 0
--
integer f(integer n) { integer i; integer s; for (i = 0; i < n; ++i) s += i; return s; }
integer g(integer n) { return n * 10; }
default { touch_start(integer n) { llOwnerSay((string)(f(4) + g(1))); } }"##;

#[test]
fn scripts_taken_by_hand(rt: HostRuntime) -> Result<(), Fail> {
    for play in PLAYS.split("\n\n") {
        let (steps, text) = play.split_once("\n--\n").ok_or("a script")?;
        plays(&rt, rt.alloc(), text, steps)?;
    }
    Ok(())
}
