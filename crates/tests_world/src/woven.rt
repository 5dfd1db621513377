//! A function's woven code, laid out by hand.

ghost use Rattle.std.specs.Prelude.{◌≡◌, IfOk};
ghost use Rattle.lsl_code.specs.ModeStacks.{restoring_of, saving_of};
ghost use Rattle.tests_world.specs.Counts.{counts, restoring_counts, running_counts, saving_counts};

use crate::samples::sample;
use lsl_code::{Instr, Sequence, WovenCode};
use lsl_text::NoMemory;
use lsl_weave::{weave_function, weave_functions};
use std::alloc::Global;
use std::test::Fail;

/// Each instruction.
const WOVEN: &str = "\
TestBack(13)\n\
Tick(0)\n\
TestSave(8)\n\
Int(7)\n\
Call(0, 1)\n\
TestSave(10)\n\
Drop\n\
Return\n\
KeepSlot(0)\n\
Seal(0)\n\
KeepTop\n\
KeepSlot(0)\n\
Seal(1)\n\
Unpack\n\
Branch\n\
Jump(17)\n\
Jump(20)\n\
BackSlot(0)\n\
Awake\n\
Jump(1)\n\
BackSlot(0)\n\
BackTop\n\
Again(0)\n\
Jump(5)\n";

/// An instruction, and the numbers in it.
fn tell_instruction(told: &mut String, instr: &Instr) -> Result<(), NoMemory> {
    match instr {
        Instr::Int(value) => write!(told, "Int({value})"),
        Instr::Drop => told.push_str("Drop"),
        Instr::Jump(place) => write!(told, "Jump({place})"),
        Instr::Tick(point) => write!(told, "Tick({point})"),
        Instr::Call(function, point) => write!(told, "Call({function}, {point})"),
        Instr::Return => told.push_str("Return"),
        Instr::TestSave(place) => write!(told, "TestSave({place})"),
        Instr::KeepSlot(slot) => write!(told, "KeepSlot({slot})"),
        Instr::KeepTop => told.push_str("KeepTop"),
        Instr::Seal(point) => write!(told, "Seal({point})"),
        Instr::TestBack(place) => write!(told, "TestBack({place})"),
        Instr::Unpack => told.push_str("Unpack"),
        Instr::Branch => told.push_str("Branch"),
        Instr::BackSlot(slot) => write!(told, "BackSlot({slot})"),
        Instr::BackTop => told.push_str("BackTop"),
        Instr::Awake => told.push_str("Awake"),
        Instr::Again(point) => write!(told, "Again({point})"),
        _ => told.push_str("another instruction"),
    }
}

/// The sample's woven code, and how many operands a machine has before each instruction while it runs, saves and
/// restores.
fn woven_sample(alloc: Global) -> Result<WovenCode, NoMemory>
    ensures running { IfOk result (λ woven. counts woven.running ≡ running_counts) }
    ensures saving { IfOk result (λ woven. counts (saving_of woven) ≡ saving_counts) }
    ensures restoring { IfOk result (λ woven. counts (restoring_of woven) ≡ restoring_counts) }
{
    weave_function(alloc, sample(alloc)?)
}

/// Each instruction of a function, a line each.
fn listing(alloc: Global, function: &WovenCode) -> Result<String, NoMemory> {
    let mut told = String::new(alloc);
    for instr in function.code.as_slice() {
        tell_instruction(&mut told, instr)?;
        told.push('\n')?;
    }
    Ok(told)
}

#[test]
fn tick_and_call_are_woven(rt: HostRuntime) -> Result<(), Fail> {
    let alloc = rt.alloc();
    let told = listing(alloc, &woven_sample(alloc)?)?;
    assert!(rt; told.as_str() == WOVEN, "{told}");
    let mut functions = Sequence::new(alloc);
    functions.push(sample(alloc)?)?;
    let woven = weave_functions(alloc, functions)?;
    assert_eq!(rt; woven.len(), 1);
    for function in woven.as_slice() {
        let told = listing(alloc, function)?;
        assert!(rt; told.as_str() == WOVEN, "{told}");
    }
    Ok(())
}
