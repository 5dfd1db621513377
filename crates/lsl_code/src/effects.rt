//! The kinds of the operands after an instruction.

ghost use Rattle.std.specs.Prelude.{◌≡◌, Some, IsTrue, is_some, OnOk, slice_get};
ghost use Rattle.lsl_code.specs.Effects.{behind, called, loaded, operated, pushed};
ghost use Rattle.lsl_code.specs.Kinds.{builtin_signature, scope};

use crate::instructions::Instr;
use crate::sequence::Sequence;
use crate::signatures::Names;
use lsl_compact::KindStack;
use lsl_table::BuiltinRow;
use lsl_text::NoMemory;
use lsl_value::{BinaryOp, BuiltinId, Kind};

/// Replaces the kinds before an instruction by those after it, in a function with these slots that gives a value of
/// this kind.
pub fn step(
    names: &Names,
    slots: &Sequence<Kind>,
    gives: Option<Kind>,
    instr: &Instr,
    stack: &mut KindStack,
) -> Result<(), NoMemory>
    requires { IsTrue (is_some (behind (scope names.now slots.now gives) instr.now stack.old.kinds)) }
    ensures kinds { OnOk result (Some stack.new.kinds ≡ behind (scope names.now slots.now gives) instr.now stack.old.kinds) }
    ensures noted { OnOk result (stack.new.noted ≡ stack.old.noted) }
{
    match instr {
        Instr::Int(_) | Instr::Used | Instr::Free | Instr::GetLimit => {
            stack.push(Kind::Int)?;
        }
        Instr::Str(_) => {
            stack.push(Kind::Str)?;
        }
        Instr::Load(n) => push_variable(slots, *n, stack)?,
        Instr::LoadGlobal(n) => push_variable(&names.globals, *n, stack)?,
        Instr::Set(_) | Instr::Drop | Instr::JumpIf(_) | Instr::JumpIfNot(_) => {
            stack.pop();
        }
        Instr::Unary(_) | Instr::SetLimit => {
            stack.pop();
            stack.push(Kind::Int)?;
        }
        Instr::Cast(kind) => {
            stack.pop();
            stack.push(*kind)?;
        }
        Instr::Binary(op) => operate(*op, stack)?,
        Instr::MakeList(n) => {
            stack.pop_all(*n as usize);
            stack.push(Kind::List)?;
        }
        Instr::Pure(id) | Instr::Host(id) => call_builtin(*id, stack)?,
        Instr::Call(f, _) => call_function(names, *f, stack)?,
        Instr::Return | Instr::ReturnValue | Instr::GoState(_) | Instr::Reset => stack.clear(),
        _ => (),
    }
    Ok(())
}

// Adds the kind of a slot or a global.
fn push_variable(kinds: &Sequence<Kind>, n: u16, stack: &mut KindStack) -> Result<(), NoMemory>
    requires { IsTrue (is_some (loaded kinds.now n stack.old.kinds)) }
    ensures kinds { OnOk result (Some stack.new.kinds ≡ loaded kinds.now n stack.old.kinds) }
    ensures noted { OnOk result (stack.new.noted ≡ stack.old.noted) }
{
    let Some(kind) = kinds.get(n as usize) else {
        unreachable!()
    };
    stack.push(*kind)?;
    Ok(())
}

// Takes off the kinds of two operands, the left one first, and adds that of their value.
fn operate(op: BinaryOp, stack: &mut KindStack) -> Result<(), NoMemory>
    requires { IsTrue (is_some (operated op stack.old.kinds)) }
    ensures kinds { OnOk result (Some stack.new.kinds ≡ operated op stack.old.kinds) }
    ensures noted { OnOk result (stack.new.noted ≡ stack.old.noted) }
{
    let Some(left) = stack.pop() else {
        unreachable!()
    };
    let Some(right) = stack.pop() else {
        unreachable!()
    };
    let Some(kind) = op.result_kind(left, right) else {
        unreachable!()
    };
    stack.push(kind)?;
    Ok(())
}

// Takes off the kinds of a built-in call's arguments, and adds that of its value if it gives one.
fn call_builtin(id: BuiltinId, stack: &mut KindStack) -> Result<(), NoMemory>
    requires { IsTrue (is_some (called (Some (builtin_signature id)) stack.old.kinds)) }
    ensures kinds { OnOk result (Some stack.new.kinds ≡ called (Some (builtin_signature id)) stack.old.kinds) }
    ensures noted { OnOk result (stack.new.noted ≡ stack.old.noted) }
{
    let row = id.row();
    stack.pop_all(row.params.as_slice().len());
    push_result(row.result, stack)?;
    Ok(())
}

// Takes off the kinds of a function's arguments, and adds that of its value if it gives one.
fn call_function(names: &Names, f: u16, stack: &mut KindStack) -> Result<(), NoMemory>
    requires { IsTrue (is_some (called (slice_get names.now.functions f) stack.old.kinds)) }
    ensures kinds { OnOk result (Some stack.new.kinds ≡ called (slice_get names.now.functions f) stack.old.kinds) }
    ensures noted { OnOk result (stack.new.noted ≡ stack.old.noted) }
{
    let Some(signature) = names.functions.get(f as usize) else {
        unreachable!()
    };
    stack.pop_all(signature.params.len());
    push_result(signature.result, stack)?;
    Ok(())
}

// Adds the kind of a result, if there is one.
fn push_result(kind: Option<Kind>, stack: &mut KindStack) -> Result<(), NoMemory>
    ensures kinds { OnOk result (stack.new.kinds ≡ pushed kind stack.old.kinds) }
    ensures noted { OnOk result (stack.new.noted ≡ stack.old.noted) }
{
    if let Some(kind) = kind {
        stack.push(kind)?;
    }
    Ok(())
}
