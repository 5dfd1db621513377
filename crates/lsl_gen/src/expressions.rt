//! The code of expressions.

ghost use Rattle.std.specs.Prelude.{◌≡◌, ◌+◌, ◌<◌, [], ◌∷◌, ◌++◌, OnOk, IfOk, length, map, false};
ghost use Rattle.lsl_tree.specs.Effects.{effect_of};
ghost use Rattle.lsl_tree.specs.Nodes.{node_of, nodes_of};
ghost use Rattle.lsl_table.specs.Constants.{constant_value_of};
ghost use Rattle.lsl_running.specs.Calling.{call_form};
ghost use Rattle.lsl_meaning.specs.Expressions.{step_operator};
ghost use Rattle.lsl_code.specs.Drafts.{carries_point};
ghost use Rattle.lsl_gen.specs.Expressions.{literal as literal_of, load as load_of, store as store_of, builtin_code, call_code, step_code, value_code, values_code, effect_code, effects_code};

use crate::numbers::{to_u16, to_u32};
use crate::texts::{ascii_text, copy_text};
use lsl_code::{Draft, Instr};
use lsl_table::{BuiltinRow, ConstantValue, Home, constant_value};
use lsl_text::NoMemory;
use lsl_tree::{Callee, Effect, Node, Place, StepOp};
use lsl_value::{BinaryOp, BuiltinId, ConstantId};
use std::alloc::Global;

// The instruction that pushes a constant's value.
fn literal(alloc: Global, id: ConstantId) -> Result<Instr, NoMemory>
    ensures value { IfOk result (λ i. i ≡ literal_of (constant_value_of id)) }
    ensures bare { IfOk result (λ i. carries_point i ≡ false) }
{
    match constant_value(id) {
        ConstantValue::Int(n) => Ok(Instr::Int(n)),
        ConstantValue::Str(text) => {
            let text = ascii_text(alloc, text)?;
            Ok(Instr::Str(text))
        }
    }
}

// The instruction that pushes a variable's value.
fn load(place: Place) -> Result<Instr, NoMemory>
    ensures value { IfOk result (λ i. i ≡ load_of place) }
    ensures bare { IfOk result (λ i. carries_point i ≡ false) }
{
    match place {
        Place::Slot(n) => {
            let n = to_u16(n)?;
            Ok(Instr::Load(n))
        }
        Place::Global(n) => {
            let n = to_u16(n)?;
            Ok(Instr::LoadGlobal(n))
        }
    }
}

// The instruction that stores the topmost value.
fn store(place: Place) -> Result<Instr, NoMemory>
    ensures value { IfOk result (λ i. i ≡ store_of place) }
    ensures bare { IfOk result (λ i. carries_point i ≡ false) }
{
    match place {
        Place::Slot(n) => {
            let n = to_u16(n)?;
            Ok(Instr::Store(n))
        }
        Place::Global(n) => {
            let n = to_u16(n)?;
            Ok(Instr::StoreGlobal(n))
        }
    }
}

fn operator(op: StepOp) -> BinaryOp
    ensures { result ≡ step_operator op }
{
    match op {
        StepOp::Increment => BinaryOp::Add,
        StepOp::Decrement => BinaryOp::Sub,
    }
}

// Adds the code of a built-in call, after that of its arguments.
fn emit_builtin(draft: &mut Draft, id: BuiltinId, line: u32) -> Result<(), NoMemory>
    ensures { OnOk result (draft.new ≡ draft.old ++ builtin_code (call_form id) id line) }
{
    match id.row().home {
        Home::Pure => draft.push(Instr::Pure(id)),
        Home::UsedMemory => draft.push(Instr::Used),
        Home::FreeMemory => draft.push(Instr::Free),
        Home::SetLimit => draft.push(Instr::SetLimit),
        Home::GetLimit => draft.push(Instr::GetLimit),
        Home::Query | Home::Mail | Home::Act | Home::Store | Home::Note => draft.push(Instr::Host(
            id,
        )),
        Home::Sleep => {
            draft.push(Instr::Host(id))?;
            draft.push_tick(line)
        }
        Home::Reset => draft.push(Instr::Reset),
    }
}

// Adds the code of a call, after that of its arguments.
fn emit_call(draft: &mut Draft, callee: Callee, line: u32) -> Result<(), NoMemory>
    ensures { OnOk result (draft.new ≡ draft.old ++ call_code callee line) }
{
    match callee {
        Callee::Function(n) => {
            let n = to_u16(n)?;
            draft.push_call(n, line)
        }
        Callee::Builtin(id) => emit_builtin(draft, id, line),
    }
}

// Adds the code that steps a variable and leaves what it held before.
fn emit_step(draft: &mut Draft, place: Place, op: StepOp) -> Result<(), NoMemory>
    ensures { OnOk result (draft.new ≡ draft.old ++ step_code place op) }
{
    draft.push(load(place)?)?;
    draft.push(Instr::Int(1))?;
    draft.push(load(place)?)?;
    draft.push(Instr::Binary(operator(op)))?;
    draft.push(store(place)?)?;
    draft.push(Instr::Drop)
}

/// Adds the code of an expression.
#[cycle(emit)]
pub fn emit_value(alloc: Global, draft: &mut Draft, node: &Node) -> Result<(), NoMemory>
    ensures { OnOk result (draft.new ≡ draft.old ++ value_code (node_of node.now)) }
{
    match node {
        Node::Int { value } => draft.push(Instr::Int(*value)),
        Node::Str { text } => {
            let text = copy_text(text)?;
            draft.push(Instr::Str(text))
        }
        Node::Constant { id, .. } => draft.push(literal(alloc, *id)?),
        Node::Variable { place, .. } => draft.push(load(*place)?),
        Node::Call {
            callee,
            line,
            arguments,
            ..
        } => {
            emit_values(alloc, draft, arguments)?;
            emit_call(draft, *callee, *line)?;
            Ok(())
        }
        Node::List { elements } => {
            emit_values(alloc, draft, elements)?;
            let count = to_u32(elements.len())?;
            draft.push(Instr::MakeList(count))?;
            Ok(())
        }
        Node::Cast { kind, operand } => {
            emit_value(alloc, draft, operand)?;
            draft.push(Instr::Cast(*kind))
        }
        Node::Unary { op, operand } => {
            emit_value(alloc, draft, operand)?;
            draft.push(Instr::Unary(*op))
        }
        Node::Binary {
            op,
            left,
            right,
            ..
        } => {
            emit_value(alloc, draft, right)?;
            emit_value(alloc, draft, left)?;
            draft.push(Instr::Binary(*op))
        }
        Node::Assign { place, value, .. } => {
            emit_value(alloc, draft, value)?;
            draft.push(store(*place)?)
        }
        Node::StepBehind { place, op } => emit_step(draft, *place, *op),
    }
}

// Adds the code of expressions, from the first to the last.
#[cycle(emit)]
fn emit_values(alloc: Global, draft: &mut Draft, nodes: &[Node]) -> Result<(), NoMemory>
    ensures { OnOk result (draft.new ≡ draft.old ++ values_code (nodes_of nodes.now)) }
{
    for node in nodes {
        emit_value(alloc, draft, node)?;
    }
    Ok(())
}

/// Adds the code of an expression used as a statement.
pub fn emit_effect(alloc: Global, draft: &mut Draft, effect: &Effect) -> Result<(), NoMemory>
    ensures { OnOk result (draft.new ≡ draft.old ++ effect_code (effect_of effect.now)) }
{
    match effect {
        Effect::Value { node } => {
            emit_value(alloc, draft, node)?;
            draft.push(Instr::Drop)
        }
        Effect::Call {
            callee,
            line,
            arguments,
        } => {
            emit_values(alloc, draft, arguments)?;
            emit_call(draft, *callee, *line)
        }
    }
}

/// Adds the code of such expressions, from the first to the last.
pub fn emit_effects(alloc: Global, draft: &mut Draft, effects: &[Effect]) -> Result<(), NoMemory>
    ensures { OnOk result (draft.new ≡ draft.old ++ effects_code (map effect_of effects.now)) }
{
    for effect in effects {
        emit_effect(alloc, draft, effect)?;
    }
    Ok(())
}
