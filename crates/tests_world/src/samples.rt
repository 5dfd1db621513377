//! A function with a slot, which calls itself with an operand waiting.

ghost use Rattle.std.specs.Prelude.{◌≡◌, IfOk};
ghost use Rattle.tests_world.specs.Samples.{sample_stacks};
ghost use Rattle.lsl_code.specs.Bodies.{plain_body};
ghost use Rattle.tests_world.specs.Samples.{sample_body};

use lsl_code::{FunctionCode, Instr, Point, Sequence};
use lsl_compact::{KindStack, KindStacks};
use lsl_text::NoMemory;
use lsl_value::{Kind, Text};
use std::alloc::Global;

/// Its code, with its points and the kinds before each instruction.
pub fn sample(alloc: Global) -> Result<FunctionCode, NoMemory>
    ensures { IfOk result (λ f. plain_body f ≡ sample_body) }
{
    let code = vec![in alloc;
        Instr::Tick(0),
        Instr::Int(7),
        Instr::Call(0, 1),
        Instr::Drop,
        Instr::Return,
    ]?;
    let tick = Sequence::from_vec(vec![in alloc; Kind::Int]?);
    let call = Sequence::from_vec(vec![in alloc; Kind::Int, Kind::Int]?);
    let points = vec![in alloc;
        Point {
            kinds: tick,
            calls: None
        },
        Point {
            kinds: call,
            calls: Some(0)
        },
    ]?;
    Ok(FunctionCode {
        name: Text::new(),
        params: Sequence::new(alloc),
        slots: Sequence::from_vec(vec![in alloc; Kind::Int]?),
        result: None,
        most: 1,
        points: Sequence::from_vec(points),
        lines: Sequence::from_vec(vec![in alloc; 1, 2]?),
        code: Sequence::from_vec(code),
        stacks: stacks(alloc)?,
    })
}

// The kinds before each of its instructions.
fn stacks(alloc: Global) -> Result<KindStacks, NoMemory>
    ensures { IfOk result (λ stacks. stacks ≡ sample_stacks) }
{
    let mut stack = KindStack::new(alloc);
    stack.note()?;
    stack.note()?;
    stack.push(Kind::Int)?;
    stack.note()?;
    stack.note()?;
    stack.clear();
    stack.note()?;
    Ok(stack.into_noted())
}
