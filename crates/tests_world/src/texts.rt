//! The texts of worlds with one script.

use std::alloc::{AllocError, Global};

/// The box, its script, and one touch of it.
const BEFORE: &str =
    "object 00000000-0000-0000-0000-000000000001 \"Box\" 00000000-0000-0000-0000-000000000002 \"A\"
script \"s\" \"s.lsl\"
begin
";

const TOUCH: &str = "touch 1 0 00000000-0000-0000-0000-0000000000aa \"Ann\"";

/// A call whose value is added to that of another one: seven segments.
pub(crate) const CALLS: &str =
    "integer f(integer n) { integer i; integer s; for (i = 0; i < n; ++i) s += i; return s; }
integer g(integer n) { return n * 10; }
default { touch_start(integer n) { llOwnerSay((string)(f(4) + g(1))); } }";

/// The world of a row's steps, of which `touch` is that touch.
pub(crate) fn world_of(alloc: Global, steps: &str) -> Result<String, AllocError> {
    let mut text = String::new(alloc);
    text.push_str(BEFORE)?;
    for step in steps.split("; ") {
        text.push_str(if step == "touch" { TOUCH } else { step })?;
        text.push('\n')?;
    }
    text.push_str("end\n")?;
    Ok(text)
}
