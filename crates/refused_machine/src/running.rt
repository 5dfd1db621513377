//! Clauses of `lsl_running`.

ghost use Rattle.std.specs.Prelude.{◌≡◌};
ghost use Rattle.lsl_running.specs.Charging.{charged_with, charges_of};
ghost use Rattle.lsl_running.specs.Limits.{granted};

use lsl_running::{charged_with_values, granted_limit};
use lsl_value::Value;

/// As `charged_with_values`.
pub fn charged(sum: u64, values: &[Value]) -> u64
    ensures { result ≡ charged_with sum (charges_of values.now) }
{
    charged_with_values(sum, values)
}

/// As `granted_limit`.
pub fn granted_as_asked(asked: i32, charge: u64) -> Option<u32>
    ensures { result ≡ granted asked charge }
{
    granted_limit(asked, charge)
}
