//! The script of a generated world.

ghost use Rattle.std.specs.Prelude.{◌≡◌, IfOk};
ghost use Rattle.lsl_made.specs.Walker.{walker_text};

use lsl_text::NoMemory;
use lsl_value::Text;
use std::alloc::Global;

/// Counts, sums by recursion, says its number, and goes between two states by chat and timers.
const WALKER: &[u8] = br#"integer n;
integer sum(integer k) { if (k < 1) return 0; return k + sum(k - 1); }
default {
    state_entry() { llListen(9, "", "", ""); llSetTimerEvent(3); }
    touch_start(integer k) { n += sum(20); llSay(9, (string)n); }
    listen(integer c, string a, key b, string m) { n = n ^ (integer)m; if (n % 7 == 3) state other; }
    timer() { integer i; for (i = 0; i < 50; ++i) n += i; llOwnerSay((string)n); }
}
state other {
    state_entry() { llListen(9, "", "", ""); }
    listen(integer c, string a, key b, string m) { --n; if (n % 5 == 0) state default; }
    timer() { state default; }
}"#;

/// The script's text.
pub(crate) fn text(alloc: Global) -> Result<Text, NoMemory>
    ensures { IfOk result (λ text. text ≡ walker_text) }
{
    Text::from_ascii(bytes(alloc)?)
}

fn bytes(alloc: Global) -> Result<Vec<u8>, NoMemory>
    ensures { IfOk result (λ bytes. bytes.items ≡ walker_text) }
{
    let mut bytes = Vec::new(alloc);
    bytes.extend_from_slice(WALKER)?;
    Ok(bytes)
}
