//! What a script is charged.

ghost use Rattle.std.specs.Prelude.{◌≡◌};
ghost use Rattle.lsl_running.specs.Charging.{charged_with, charges_of};

use lsl_value::{Value, charge};

/// The charge of a script for itself, besides its globals and its calls.
pub const SCRIPT_CHARGE: u64 = 1_024;

/// The charge of a call for itself, besides its slots.
pub const CALL_CHARGE: u64 = 32;

/// What is charged so far and for these values, saturated at 64 bits. Takes no memory; walks the values.
#[tactic(auto, using(std::proofs::lemmas::List::Sums::sum_by_more))]
pub fn charged_with_values(charged: u64, values: &[Value]) -> u64
    ensures { result ≡ charged_with charged (charges_of values.now) }
{
    let mut sum = charged;
    for value in values {
        sum = sum.saturating_add(charge(value));
    }
    sum
}
