//! Code of expressions as `lsl_gen` defines it. `generate` gives the code of a whole program, by the same definitions;
//! here the calls of a draft emit the code of one expression.

ghost use Rattle.std.specs.Prelude.{◌≡◌, ◌++◌, OnOk};
ghost use Rattle.lsl_value.specs.declared.names.BuiltinId.TheVariants.{GetFreeMemory};
ghost use Rattle.lsl_value.specs.declared.operators.BinaryOp.TheVariants.{Both, Sub};
ghost use Rattle.lsl_value.specs.declared.tagged.Kind.TheVariants as kind;
ghost use Rattle.lsl_tree.specs.declared.program_node.Callee.TheVariants.{Builtin};
ghost use Rattle.lsl_tree.specs.Nodes as node;
ghost use Rattle.lsl_gen.specs.Expressions.{call_code, value_code};

use lsl_code::{Draft, Instr};
use lsl_text::NoMemory;
use lsl_value::BinaryOp;

/// Emits a difference of two integers: the right operand is the first.
pub fn difference(draft: &mut Draft, left: i32, right: i32) -> Result<(), NoMemory>
    ensures { OnOk result (draft.new
        ≡ draft.old ++ value_code (node.Binary Sub kind.Int (node.Int left) (node.Int right))) }
{
    draft.push(Instr::Int(right))?;
    draft.push(Instr::Int(left))?;
    draft.push(Instr::Binary(BinaryOp::Sub))
}

/// Emits `&&` of two integers: both are evaluated.
pub fn conjunction(draft: &mut Draft, first: i32, second: i32) -> Result<(), NoMemory>
    ensures { OnOk result (draft.new
        ≡ draft.old ++ value_code (node.Binary Both kind.Int (node.Int first) (node.Int second))) }
{
    draft.push(Instr::Int(second))?;
    draft.push(Instr::Int(first))?;
    draft.push(Instr::Binary(BinaryOp::Both))
}

/// Emits `llGetFreeMemory()`: the current limit counts.
pub fn free_memory(draft: &mut Draft, line: u32) -> Result<(), NoMemory>
    ensures { OnOk result (draft.new ≡ draft.old ++ call_code (Builtin GetFreeMemory) line) }
{
    let _line = line;
    draft.push(Instr::Free)
}
