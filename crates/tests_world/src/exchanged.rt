//! A unit whose code keeps two values of one kind in the other order: saving and restoring are done by the code.

ghost use Rattle.std.specs.Prelude.{◌≡◌, [], ◌∷◌, IfOk};
ghost use Rattle.tests_world.specs.Exchanged.{exchanged_code, exchanged_points, exchanged_running, exchanged_stacks};
ghost use Rattle.tests_world.specs.Exchanged.{exchanged_restoring, exchanged_saving};
ghost use Rattle.lsl_code.specs.ModeStacks.{restoring_of, saving_of};

use crate::driving::{behind_ticks, to_tick};
use crate::hosting::unit_of;
use crate::saved::moved;
use lsl_code::{FusedFunctions, Handler, Instr, Point, Sequence, StateCode, Woven, WovenCode};
use lsl_compact::{KindStack, KindStacks, PlacedStacks};
use lsl_text::NoMemory;
use lsl_value::{EventId, Kind, Text, Values};
use std::alloc::Global;
use std::test::Fail;

/// The two ticks, at which the three slots are kept.
fn points(alloc: Global) -> Result<Sequence<Point>, NoMemory>
    ensures { IfOk result (λ points. points ≡ exchanged_points) }
{
    let first = Sequence::from_vec(vec![in alloc; Kind::Int, Kind::Int, Kind::Int]?);
    let second = Sequence::from_vec(vec![in alloc; Kind::Int, Kind::Int, Kind::Int]?);
    let points = vec![in alloc;
        Point {
            kinds: first,
            calls: None
        },
        Point {
            kinds: second,
            calls: None
        },
    ]?;
    Ok(Sequence::from_vec(points))
}

/// No operand, and one.
fn stacks(alloc: Global) -> Result<KindStacks, NoMemory>
    ensures { IfOk result (λ stacks. stacks ≡ exchanged_stacks) }
{
    let mut stack = KindStack::new(alloc);
    stack.note()?;
    stack.push(Kind::Int)?;
    stack.note()?;
    Ok(stack.into_noted())
}

/// The operands before each instruction while it runs, and none in the added code.
fn running(alloc: Global) -> Result<PlacedStacks, NoMemory>
    ensures { IfOk result (λ stacks. stacks ≡ exchanged_running) }
{
    let mut placing = stacks(alloc)?.into_placing(alloc);
    placing.place(0)?;
    placing.place(0)?;
    placing.place(0)?;
    placing.place(0)?;
    placing.place(1)?;
    placing.place(0)?;
    placing.place(1)?;
    placing.place(0)?;
    placing.place(1)?;
    placing.place(0)?;
    placing.place(0)?;
    placing.place(0)?;
    placing.place(0)?;
    Ok(placing.finish(22))
}

/// The handler of the text below, as weaving makes it, except for the order of its keeps.
fn function(alloc: Global) -> Result<WovenCode, NoMemory>
    ensures { IfOk result (λ function. function ≡ exchanged_code) }
{
    let code = vec![in alloc;
        Instr::TestBack(21),
        Instr::Tick(0),
        Instr::TestSave(13),
        Instr::Int(1),
        Instr::Set(1),
        Instr::Int(2),
        Instr::Set(2),
        Instr::Int(1),
        Instr::JumpIfNot(12),
        Instr::Tick(1),
        Instr::TestSave(17),
        Instr::Jump(7),
        Instr::Return,
        Instr::KeepSlot(1),
        Instr::KeepSlot(2),
        Instr::KeepSlot(0),
        Instr::Seal(0),
        Instr::KeepSlot(1),
        Instr::KeepSlot(2),
        Instr::KeepSlot(0),
        Instr::Seal(1),
        Instr::Unpack,
        Instr::Branch,
        Instr::Jump(25),
        Instr::Jump(30),
        Instr::BackSlot(0),
        Instr::BackSlot(1),
        Instr::BackSlot(2),
        Instr::Awake,
        Instr::Jump(1),
        Instr::BackSlot(0),
        Instr::BackSlot(1),
        Instr::BackSlot(2),
        Instr::Awake,
        Instr::Jump(9),
    ]?;
    Ok(WovenCode {
        name: Text::new(),
        params: Sequence::from_vec(vec![in alloc; Kind::Int]?),
        slots: Sequence::from_vec(vec![in alloc; Kind::Int, Kind::Int, Kind::Int]?),
        result: None,
        most: 1,
        points: points(alloc)?,
        lines: Sequence::from_vec(vec![in alloc; 1, 1]?),
        code: Sequence::from_vec(code),
        running: running(alloc)?,
    })
}

/// The operands before each of its instructions while it saves and restores.
fn kinds_follow_from_the_code()
    ensures saving { saving_of exchanged_code ≡ exchanged_saving }
    ensures restoring { restoring_of exchanged_code ≡ exchanged_restoring }
{}

/// A list of it alone.
fn listed(alloc: Global) -> Result<Sequence<WovenCode>, NoMemory>
    ensures { IfOk result (λ functions. functions ≡ exchanged_code ∷ []) }
{
    let functions = vec![in alloc; function(alloc)?]?;
    Ok(Sequence::from_vec(functions))
}

/// It alone, with its table.
fn functions(alloc: Global) -> Result<FusedFunctions, NoMemory>
    ensures { IfOk result (λ functions. functions ≡ exchanged_code ∷ []) }
{
    Ok(FusedFunctions::new(alloc, listed(alloc)?)?)
}

/// The unit that has it as its handler of a touch.
fn exchanged(alloc: Global) -> Result<Woven, NoMemory> {
    let handler = Handler {
        event: EventId::TouchStart,
        function: 0,
    };
    let handlers = vec![in alloc; handler]?;
    let state = StateCode {
        name: Text::new(),
        handlers: Sequence::from_vec(handlers),
    };
    let states = vec![in alloc; state]?;
    Ok(Woven {
        digest: [0; 32],
        globals: Values::new(alloc),
        states: Sequence::from_vec(states),
        functions: functions(alloc)?,
    })
}

const TEXT: &str =
    "default { touch_start(integer t) { integer a = 1; integer b = 2; while (1) ; } }";

/// The frames that are saved at the second tick of a handler, and those at the next one after them.
fn saved_twice(alloc: Global, unit: &Woven) -> Result<String, NoMemory> {
    let mut told = String::new(alloc);
    let mut rest = String::new(alloc);
    if let Some((handler, machine)) = behind_ticks(alloc, unit, 1)? {
        let (back, _steps) = moved(alloc, unit, handler, machine, &mut told)?;
        if let Some(next) = to_tick(alloc, unit, handler, back, &mut rest)? {
            told.push_str(" and")?;
            let (_back, _steps) = moved(alloc, unit, handler, next, &mut told)?;
        }
    }
    Ok(told)
}

#[test]
fn keeps_are_done_by_the_code(rt: HostRuntime) -> Result<(), Fail> {
    let alloc = rt.alloc();
    kinds_follow_from_the_code();
    let other = saved_twice(alloc, &exchanged(alloc)?)?;
    assert!(rt; other.as_str() == " | 1 2 1 and | 1 1 2", "{other}");
    let woven = saved_twice(alloc, &unit_of(&rt, alloc, TEXT))?;
    assert!(rt; woven.as_str() == " | 1 1 2 and | 1 1 2", "{woven}");
    Ok(())
}
