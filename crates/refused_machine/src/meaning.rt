//! Numbers that follow from the definitions of `lsl_meaning`, which has no code: each is the one that its example says,
//! and another definition gives another.

ghost use Rattle.std.specs.Prelude.{◌≡◌, [], ◌∷◌, pos};
ghost use Rattle.lsl_meaning.specs.Examples.{adding, first_whole, jumping, left_with, measuring};

use lsl_meaning::examples::{jump_back, right_operand_first, used_memory};

/// The value of `x + (x = 3)` if `x` was 5.
pub fn sum_after_assignment() -> u32
    ensures { first_whole adding 0 1 [] ≡ left_with (pos 3 ∷ pos result ∷ []) }
{
    right_operand_first();
    6
}

/// The value of `f() + 1` if `f` gives the charge, with the 1 waiting.
pub fn charge_and_one() -> u32
    ensures { first_whole measuring 1 2 [] ≡ left_with (pos result ∷ []) }
{
    used_memory();
    1_113
}

/// How many ticks a handler with two jumps takes.
pub fn ticks_of_two_jumps() -> u32
    ensures { first_whole jumping 0 result [] ≡ left_with (pos 3 ∷ []) }
{
    jump_back();
    3
}
