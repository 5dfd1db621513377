//! What saved calls are charged.

ghost use Rattle.std.specs.Prelude.{◌≡◌, ℕ, nat_le};
ghost use Rattle.lsl_running.specs.Charging.{charged_with};
ghost use Rattle.lsl_image.specs.Charges.{integers_charge};

use lsl_value::INT_CHARGE;

/// What is charged so far and for `count` integers, saturated at 64 bits. Takes no memory.
#[inline(always)]
pub fn with_integers(charged: u64, count: usize) -> u64
    ensures { result ≡ charged_with charged (integers_charge count) }
{
    charged.saturating_add(INT_CHARGE.saturating_mul(count as u64))
}

/// Whether the charge is at most the limit. Takes no memory.
#[tactic(auto, using(std::proofs::lemmas::Bool::Decides::nat_tests))]
pub fn is_within(limit: u32, charged: u64) -> bool
    ensures { (charge : ℕ) → charged ≡ charged_with 0 charge → result ≡ nat_le charge limit }
{
    charged <= u64::from(limit)
}
