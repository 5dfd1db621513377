//! The kinds before each instruction of woven code while it runs.

ghost use Rattle.std.specs.Prelude.{◌≡◌, ◌<◌, ◌+◌, ◌++◌, ◌∷◌, [], IfOk, OnOk, Some, map};
ghost use Rattle.lsl_compact.specs.Stacks.{placing_of};
ghost use Rattle.lsl_code.specs.Bodies.{Body};
ghost use Rattle.lsl_code.specs.ModeStacks.{flat, nones};
ghost use Rattle.lsl_weave.specs.Layout.{main_stacks};

use lsl_code::Instr;
use lsl_compact::{KindStacks, PlacedStacks, Placing};
use lsl_text::NoMemory;
use std::alloc::Global;

/// The kinds before the test at the start of a function with these stacks and this code, before each of its
/// instructions and tests, and none for the blocks after them.
pub fn running_of(
    alloc: Global,
    stacks: KindStacks,
    plain: &[Instr],
    count: usize,
) -> Result<PlacedStacks, NoMemory>
    ensures { IfOk result (λ running. (b : Body) → b.stacks ≡ map Some stacks
        → running ≡ Some [] ∷ (flat (main_stacks b) 0 plain.now ++ nones count)) }
{
    let mut placing = stacks.into_placing(alloc);
    placing.place_empty()?;
    place_all(&mut placing, plain)?;
    Ok(placing.finish(count))
}

// The stacks before each instruction and test.
fn place_all(placing: &mut Placing, plain: &[Instr]) -> Result<(), NoMemory>
    ensures { OnOk result ((b : Body) → b.stacks ≡ map Some placing.old.given
        → placing.new ≡ placing_of placing.old.given (placing.old.placed ++ flat (main_stacks b) 0 plain.now)) }
{
    for i in 0..plain.len() {
        let instr = &plain[i];
        place_one(placing, i, instr)?;
    }
    Ok(())
}

// Those before the instruction at this place, and before its test.
fn place_one(placing: &mut Placing, place: usize, instr: &Instr) -> Result<(), NoMemory>
    requires { place + 1 < 18446744073709551616 }
    ensures { OnOk result ((b : Body) → b.stacks ≡ map Some placing.old.given
        → placing.new ≡ placing_of placing.old.given (placing.old.placed ++ main_stacks b place instr.now)) }
{
    placing.place(place)?;
    match instr {
        Instr::Tick(_) => placing.place(place + 1),
        Instr::Call(_, _) => placing.place(place + 1),
        _ => Ok(()),
    }
}
