//! From drafts to functions.

ghost use Rattle.std.specs.Prelude.{◌≡◌, ◌<◌, IsTrue, is_some, OnOk, IfOk, [], ◌++◌, length, max, reverse, drop};
ghost use Rattle.lsl_code.specs.Drafts.{AddsPoint, scan, maps, most_of, finished};
ghost use Rattle.lsl_code.specs.Effects.{runs};
ghost use Rattle.lsl_code.specs.Kinds.{scope};
ghost use Rattle.lsl_compact.specs.Stacks.{noted_of};

use crate::drafts::Draft;
use crate::effects::step;
use crate::functions::{FunctionCode, Point};
use crate::instructions::Instr;
use crate::sequence::Sequence;
use crate::signatures::Names;
use lsl_compact::{KindStack, KindStacks};
use lsl_text::NoMemory;
use lsl_value::{Kind, Text};
use std::alloc::{AllocError, Global};

// What one pass over code finds: the points, the kinds of the operands before each instruction, and the greatest
// count of them.
#[derive(Drop)]
struct Shapes {
    points: Sequence<Point>,
    stacks: KindStacks,
    most: u32,
}

/// The function of this name with a draft and these slots, the first of which are parameters; it gives a value of this
/// kind, or none. Out of memory also where a draft has 4,294,967,296 instructions.
pub fn finish(
    alloc: Global,
    names: &Names,
    name: Text,
    slots: Sequence<Kind>,
    gives: Option<Kind>,
    params: usize,
    draft: Draft,
) -> Result<FunctionCode, NoMemory>
    requires { IsTrue (is_some (runs (scope names.now slots gives) draft [])) }
    ensures ok { IfOk result (λ f. f ≡ finished name (scope names.now slots gives) params draft) }
    ensures short { OnOk result (length draft < 4294967296) }
{
    let (code, lines) = draft.into_parts();
    short_count(code.len())?;
    let shapes = shapes_of(alloc, names, &slots, gives, &code)?;
    let params = slots.first(alloc, params)?;
    Ok(FunctionCode {
        name,
        params,
        slots,
        result: gives,
        most: shapes.most,
        points: shapes.points,
        lines: Sequence::from_vec(lines),
        code: Sequence::from_vec(code),
        stacks: shapes.stacks,
    })
}

/// The count in 32 bits. Out of memory if it doesn't fit.
pub fn short_count(n: usize) -> Result<u32, NoMemory>
    ensures { IfOk result (λ m. m ≡ n) }
{
    match u32::try_from(n) {
        Ok(m) => Ok(m),
        Err(_) => Err(AllocError),
    }
}

// One pass over the code.
fn shapes_of(
    alloc: Global,
    names: &Names,
    slots: &Sequence<Kind>,
    gives: Option<Kind>,
    code: &[Instr],
) -> Result<Shapes, NoMemory>
    requires { IsTrue (is_some (runs (scope names.now slots.now gives) code.now [])) }
    ensures points { IfOk result (λ r. r.points ≡ maps (scope names.now slots.now gives) code.now []) }
    ensures stacks { IfOk result (λ r. r.stacks ≡ scan (scope names.now slots.now gives) code.now []) }
    ensures most { IfOk result (λ r. r.most ≡ most_of (scan (scope names.now slots.now gives) code.now [])) }
{
    let mut stack = KindStack::new(alloc);
    let mut points = Sequence::new(alloc);
    let most = pass_over(alloc, names, slots, gives, code, &mut stack, &mut points)?;
    Ok(Shapes {
        points,
        stacks: stack.into_noted(),
        most,
    })
}

// The pass, which borrows its results, so that it owns nothing when memory runs out. It notes the kinds before each
// instruction, and returns the greatest count of operands.
fn pass_over(
    alloc: Global,
    names: &Names,
    slots: &Sequence<Kind>,
    gives: Option<Kind>,
    code: &[Instr],
    stack: &mut KindStack,
    points: &mut Sequence<Point>,
) -> Result<u32, NoMemory>
    requires goes { IsTrue (is_some (runs (scope names.now slots.now gives) code.now [])) }
    requires stack { stack.old ≡ noted_of [] [] }
    requires points { points.old ≡ [] }
    ensures points { OnOk result (points.new ≡ maps (scope names.now slots.now gives) code.now []) }
    ensures stacks { OnOk result (stack.new.noted ≡ scan (scope names.now slots.now gives) code.now []) }
    ensures most { IfOk result (λ most. most ≡ most_of (scan (scope names.now slots.now gives) code.now [])) }
{
    let mut most = 0;
    for instr in code {
        add_point(alloc, names, slots, instr, stack, points)?;
        most = most.max(stack.len());
        stack.note()?;
        step(names, slots, gives, instr, stack)?;
    }
    short_count(most)
}

// Adds the point of an instruction, if it has one.
fn add_point(
    alloc: Global,
    names: &Names,
    slots: &Sequence<Kind>,
    instr: &Instr,
    stack: &KindStack,
    points: &mut Sequence<Point>,
) -> Result<(), NoMemory>
    ensures { OnOk result (AddsPoint names.now slots.now instr.now stack.now.kinds points.old points.new) }
{
    match instr {
        Instr::Tick(_) => {
            let kinds = map_of(alloc, slots, stack, 0)?;
            points.push(Point { kinds, calls: None })?;
            Ok(())
        }
        Instr::Call(f, _) => {
            let taken = names.argument_count(*f);
            let kinds = map_of(alloc, slots, stack, taken)?;
            points.push(Point {
                kinds,
                calls: Some(*f),
            })?;
            Ok(())
        }
        _ => Ok(()),
    }
}

// The map of a point at which a number of operands are taken.
fn map_of(
    alloc: Global,
    slots: &Sequence<Kind>,
    stack: &KindStack,
    taken: usize,
) -> Result<Sequence<Kind>, NoMemory>
    ensures { IfOk result (λ kinds. kinds ≡ slots.now ++ reverse (drop taken stack.now.kinds)) }
{
    let waiting = stack.below(alloc, taken)?;
    let mut kinds = Vec::new(alloc);
    kinds.extend_from_slice(slots.as_slice())?;
    kinds.extend_from_slice(&waiting)?;
    Ok(Sequence::from_vec(kinds))
}
