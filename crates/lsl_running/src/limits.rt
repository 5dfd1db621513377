//! The limit that a script sets on what it may be charged.

ghost use Rattle.std.specs.Prelude.{◌≡◌};
ghost use Rattle.lsl_running.specs.Limits.{granted};

use lsl_value::INT_CHARGE;

/// A script's limit at its start, and the greatest one.
pub const DEFAULT_LIMIT: u32 = 65_536;

/// The limit that a script gets by asking for this one, with this charge. It gets none if, with the answer, it would be
/// charged more than that, and none above the greatest. Takes no memory.
pub fn granted_limit(asked: i32, charge: u64) -> Option<u32>
    ensures { result ≡ granted asked charge }
{
    let asked = u32::try_from(asked).ok()?;
    let within = u64::from(asked) >= charge.saturating_add(INT_CHARGE);
    if within && asked <= DEFAULT_LIMIT {
        Some(asked)
    } else {
        None
    }
}
