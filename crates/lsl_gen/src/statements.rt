//! The code of statements. A jump over code that isn't emitted yet is patched afterwards, to the place after that code.

ghost use Rattle.std.specs.Prelude.{◌≡◌, ◌+◌, [], ◌∷◌, ◌++◌, OnOk, IfOk, length, map};
ghost use Rattle.lsl_tree.specs.Actions.{Block, Declare, Do, If, Loop, action_of, actions_of};
ghost use Rattle.lsl_tree.specs.Effects.{effect_of};
ghost use Rattle.lsl_tree.specs.Nodes.{node_of};
ghost use Rattle.lsl_code.specs.Targets.{retargeted};
ghost use Rattle.lsl_code.specs.declared.instructions.Instr.TheVariants.{JumpIfNot};
ghost use Rattle.lsl_gen.specs.Expressions.{value_code};
ghost use Rattle.lsl_gen.specs.Statements.{size, action_code, actions_code, places_in};
ghost use Rattle.lsl_gen.specs.OpenJumps.{then_code, open_jumps, all_open};

use crate::expressions::{emit_effect, emit_effects, emit_value};
use crate::jumps::{close_jumps, emit_jump, push_label};
use crate::label_places::{LabelPlace, OpenJump};
use crate::labels::Labels;
use crate::numbers::{add, to_u16, to_u32};
use lsl_code::{Draft, Instr};
use lsl_text::NoMemory;
use lsl_tree::{Action, Effect, Node};
use std::alloc::Global;

/// Adds the code of a statement, and its jumps to labels around it, which the enclosing block patches once it knows the
/// label's place.
#[cycle(emit_action)]
pub fn emit_action(
    alloc: Global,
    draft: &mut Draft,
    jumps: &mut Vec<OpenJump>,
    action: &Action,
) -> Result<(), NoMemory>
    ensures code { OnOk result (draft.new
        ≡ draft.old ++ action_code (action_of action.now) [] (length draft.old)) }
    ensures jumps { OnOk result (jumps.new.items
        ≡ jumps.old.items ++ open_jumps (action_of action.now) (length draft.old)) }
{
    match action {
        Action::Block { actions } => {
            emit_block(alloc, draft, jumps, actions)?;
            Ok(())
        }
        Action::Effect { effect } => emit_effect(alloc, draft, effect),
        Action::Declare { slot, value } => emit_declaration(alloc, draft, *slot, value),
        Action::Label { .. } => Ok(()),
        Action::If { test, then } => emit_if(alloc, draft, jumps, then, test),
        Action::IfElse {
            test,
            then,
            otherwise,
        } => {
            let over = emit_then(alloc, draft, jumps, then, test)?;
            emit_action(alloc, draft, jumps, otherwise)?;
            lead_behind(draft, over)?;
            Ok(())
        }
        Action::Loop {
            line,
            test,
            steps,
            body,
        } => emit_loop(alloc, draft, jumps, *line, body, test, steps),
        Action::Do { line, body, test } => emit_do(alloc, draft, jumps, *line, body, test),
        Action::Jump { line, label } => emit_jump(draft, jumps, *line, *label),
        Action::Return => draft.push(Instr::Return),
        Action::ReturnValue { value } => {
            emit_value(alloc, draft, value)?;
            draft.push(Instr::ReturnValue)
        }
        Action::State { state } => {
            let state = to_u16(*state)?;
            draft.push(Instr::GoState(state))
        }
    }
}

// Adds the code of a declaration.
fn emit_declaration(
    alloc: Global,
    draft: &mut Draft,
    slot: usize,
    value: &Node,
) -> Result<(), NoMemory>
    ensures { OnOk result (draft.new
        ≡ draft.old ++ action_code (Declare slot (node_of value.now)) [] (length draft.old)) }
{
    emit_value(alloc, draft, value)?;
    let slot = to_u16(slot)?;
    draft.push(Instr::Set(slot))
}

// Adds the code of a test, and a jump where it fails, whose place is the result. Its target isn't known yet.
fn emit_test(alloc: Global, draft: &mut Draft, test: &Node) -> Result<usize, NoMemory>
    ensures code { OnOk result (draft.new ≡ draft.old ++ (value_code (node_of test.now) ++ JumpIfNot 0 ∷ [])) }
    ensures place { IfOk result (λ place. place ≡ length draft.old + length (value_code (node_of test.now))) }
{
    emit_value(alloc, draft, test)?;
    let place = draft.len();
    draft.push(Instr::JumpIfNot(0))?;
    Ok(place)
}

// Patches the jump at this place to the end of the code.
fn lead_behind(draft: &mut Draft, jump: usize) -> Result<(), NoMemory>
    ensures { OnOk result (draft.new ≡ retargeted draft.old jump (length draft.old)) }
{
    let target = to_u32(draft.len())?;
    draft.set_target(jump, target);
    Ok(())
}

// Adds the code of an `if`.
#[cycle(emit_action)]
fn emit_if(
    alloc: Global,
    draft: &mut Draft,
    jumps: &mut Vec<OpenJump>,
    then: &Action,
    test: &Node,
) -> Result<(), NoMemory>
    ensures code { OnOk result (draft.new
        ≡ draft.old ++ action_code (If (node_of test.now) (action_of then.now)) [] (length draft.old)) }
    ensures jumps { OnOk result (jumps.new.items
        ≡ jumps.old.items ++ open_jumps (If (node_of test.now) (action_of then.now)) (length draft.old)) }
{
    let fails = emit_test(alloc, draft, test)?;
    emit_action(alloc, draft, jumps, then)?;
    lead_behind(draft, fails)?;
    Ok(())
}

// Adds the code of an `if` with an `else` as far as the `else`, and gives the place of the jump over that, whose target
// isn't known yet.
#[cycle(emit_action)]
fn emit_then(
    alloc: Global,
    draft: &mut Draft,
    jumps: &mut Vec<OpenJump>,
    then: &Action,
    test: &Node,
) -> Result<usize, NoMemory>
    ensures code { OnOk result (draft.new
        ≡ draft.old ++ then_code (node_of test.now) (action_of then.now) (length draft.old)) }
    ensures jumps { OnOk result (jumps.new.items
        ≡ jumps.old.items ++ open_jumps (If (node_of test.now) (action_of then.now)) (length draft.old)) }
    ensures over { IfOk result (λ over. over ≡ length draft.old + size (If (node_of test.now) (action_of then.now))) }
{
    let fails = emit_test(alloc, draft, test)?;
    emit_action(alloc, draft, jumps, then)?;
    let over = draft.len();
    draft.push(Instr::Jump(0))?;
    lead_behind(draft, fails)?;
    Ok(over)
}

// Adds the code of a loop that tests before each round.
#[cycle(emit_action)]
fn emit_loop(
    alloc: Global,
    draft: &mut Draft,
    jumps: &mut Vec<OpenJump>,
    line: u32,
    body: &Action,
    test: &Node,
    steps: &[Effect],
) -> Result<(), NoMemory>
    ensures code { OnOk result (draft.new ≡ draft.old
        ++ action_code (Loop line (node_of test.now) (map effect_of steps.now) (action_of body.now)) []
        (length draft.old)) }
    ensures jumps { OnOk result (jumps.new.items ≡ jumps.old.items
        ++ open_jumps (Loop line (node_of test.now) (map effect_of steps.now) (action_of body.now))
        (length draft.old)) }
{
    let start = to_u32(draft.len())?;
    let fails = emit_test(alloc, draft, test)?;
    emit_action(alloc, draft, jumps, body)?;
    emit_effects(alloc, draft, steps)?;
    draft.push_tick(line)?;
    draft.push(Instr::Jump(start))?;
    lead_behind(draft, fails)?;
    Ok(())
}

// Adds the code of a loop that tests after each round.
#[cycle(emit_action)]
fn emit_do(
    alloc: Global,
    draft: &mut Draft,
    jumps: &mut Vec<OpenJump>,
    line: u32,
    body: &Action,
    test: &Node,
) -> Result<(), NoMemory>
    ensures code { OnOk result (draft.new
        ≡ draft.old ++ action_code (Do line (action_of body.now) (node_of test.now)) [] (length draft.old)) }
    ensures jumps { OnOk result (jumps.new.items
        ≡ jumps.old.items ++ open_jumps (Do line (action_of body.now) (node_of test.now)) (length draft.old)) }
{
    let start = to_u32(draft.len())?;
    emit_action(alloc, draft, jumps, body)?;
    emit_value(alloc, draft, test)?;
    let end = add(draft.len(), 3)?;
    let to = to_u32(end)?;
    draft.push(Instr::JumpIfNot(to))?;
    draft.push_tick(line)?;
    draft.push(Instr::Jump(start))?;
    Ok(())
}

/// Adds the code of a block, in which each jump to one of its labels is patched.
#[cycle(emit_action)]
pub fn emit_block(
    alloc: Global,
    draft: &mut Draft,
    jumps: &mut Vec<OpenJump>,
    actions: &[Action],
) -> Result<(), NoMemory>
    ensures code { OnOk result (draft.new
        ≡ draft.old ++ action_code (Block (actions_of actions.now)) [] (length draft.old)) }
    ensures jumps { OnOk result (jumps.new.items
        ≡ jumps.old.items ++ open_jumps (Block (actions_of actions.now)) (length draft.old)) }
{
    let mut inner = Vec::new(alloc);
    let labels = emit_actions(alloc, draft, &mut inner, actions)?;
    let labels = Labels::new(alloc, labels)?;
    close_jumps(draft, jumps, &inner, &labels)?;
    Ok(())
}

// Adds the code of statements, one after the other, and returns the places of the labels among them.
#[cycle(emit_action)]
fn emit_actions(
    alloc: Global,
    draft: &mut Draft,
    jumps: &mut Vec<OpenJump>,
    actions: &[Action],
) -> Result<Vec<LabelPlace>, NoMemory>
    ensures code { OnOk result (draft.new
        ≡ draft.old ++ actions_code (actions_of actions.now) [] (length draft.old)) }
    ensures jumps { OnOk result (jumps.new.items
        ≡ jumps.old.items ++ all_open (actions_of actions.now) (length draft.old)) }
    ensures labels { IfOk result (λ labels. labels.items ≡ places_in (actions_of actions.now) (length draft.old)) }
{
    let mut labels = Vec::new(alloc);
    for action in actions {
        push_label(&mut labels, action, draft.len())?;
        emit_action(alloc, draft, jumps, action)?;
    }
    Ok(labels)
}
