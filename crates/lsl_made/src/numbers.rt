//! The sequence of numbers that the steps come from.

ghost use Rattle.std.specs.Prelude.{◌≡◌, ◌<◌};
ghost use Rattle.lsl_made.specs.Numbers.{number_after};

/// The number after a number of the sequence. Takes no memory.
#[tactic(auto, unfolding(crate::specs::Numbers::number_after))]
pub(crate) fn number_after(x: u32) -> u32
    ensures value { result ≡ number_after x }
    ensures within { result < 2147483648 }
{
    ((u64::from(x) * 1_103_515_245 + 12_345) % 2_147_483_648) as u32
}
