//! Small scripts, and their results. Each example is a function whose clauses say it; it does nothing.

ghost use Rattle.std.specs.Prelude.{◌≡◌, [], ◌∷◌, codes, pos};
ghost use Rattle.lsl_running.specs.Results.{Cut};
ghost use Rattle.lsl_value.specs.declared.tagged.Value.TheVariants.{Int};
ghost use Rattle.lsl_meaning.specs.Globals.{initial_kept};
ghost use Rattle.lsl_meaning.specs.Examples.{adding, both, measuring, limiting, jumping, recursing, said, left_with, left_within, done, call_on, first_whole};
ghost use Rattle.lsl_meaning.specs.State.{active_call};
ghost use Rattle.lsl_meaning.specs.Handlers.{outermost, whole};

/// `x + (x = 3)` assigns before it reads `x`, which was 5: the sum is 6.
pub fn right_operand_first()
    ensures { first_whole adding 0 1 [] ≡ left_with (pos 3 ∷ pos 6 ∷ []) }
{}

/// `a() && b()` calls `b` and then `a`, although `b` gives 0. Each of them passes a tick, and so does the handler.
pub fn both_operands_of_and()
    ensures first { first_whole both 2 3 [] ≡ said (codes "b") }
    ensures second { first_whole both 2 3 (done ∷ []) ≡ said (codes "a") }
    ensures third { first_whole both 2 3 (done ∷ done ∷ []) ≡ said (codes "no") }
    ensures ends { first_whole both 2 3 (done ∷ done ∷ done ∷ []) ≡ left_with [] }
{}

/// Two active calls, an integer in a slot, one that waits and one in a global are charged 1112.
pub fn used_memory()
    ensures { first_whole measuring 1 2 [] ≡ left_with (pos 1113 ∷ []) }
{}

/// A script that is charged 1072 gets the limit 1080, which leaves room for one integer, and none below it: the
/// argument of the call doesn't wait any more.
pub fn memory_limit()
    ensures { first_whole limiting 0 1 [] ≡ left_within 1080 (pos 0 ∷ pos 1 ∷ []) }
{}

/// A jump to a label before it passes a tick. The handler's start and two jumps take three; with two it is cut at the
/// second jump, on its line.
pub fn jump_back()
    ensures ends { first_whole jumping 0 3 [] ≡ left_with (pos 3 ∷ []) }
    ensures cut { first_whole jumping 0 2 [] ≡ Cut (active_call 2 (outermost 0) [] ∷ []) }
{}

/// A recursion that is cut at its third entry is in the function's own line there, and its callers in the lines of
/// their calls, each with the slots that it has.
pub fn calls_of_a_recursion()
    ensures { whole recursing 1 (initial_kept recursing) (Int (pos 1) ∷ []) 3 []
        ≡ Cut (call_on 0 (pos 1) 1 ∷ call_on 0 (pos 2) 3 ∷ call_on 0 (pos 3) 3 ∷ call_on 1 (pos 1) 6 ∷ []) }
{}
