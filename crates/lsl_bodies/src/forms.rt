//! Forms of checked statements.

ghost use Rattle.std.specs.Prelude.{◌≡◌, map, IfOk};
ghost use Rattle.lsl_tree.specs.Nodes.{node_of};
ghost use Rattle.lsl_tree.specs.Effects.{effect_of};
ghost use Rattle.lsl_tree.specs.Actions as action;
ghost use Rattle.lsl_tree.specs.Actions.{action_of, actions_of, NoAction};
ghost use Rattle.lsl_bodies.specs.ActionForms.{effects_after};

use lsl_text::{NoMemory, Span};
use lsl_tree::{Action, Effect, Node};
use std::alloc::Global;

pub(crate) fn branch(alloc: Global, test: Node, then: Action) -> Result<Action, NoMemory>
    ensures { IfOk result (λ a. action_of a ≡ action.If (node_of test) (action_of then)) }
{
    Ok(Action::If {
        test,
        then: Box::new(alloc, then)?,
    })
}

pub(crate) fn branches(
    alloc: Global,
    test: Node,
    then: Action,
    otherwise: Action,
) -> Result<Action, NoMemory>
    ensures { IfOk result (λ a. action_of a ≡ action.IfElse (node_of test) (action_of then) (action_of otherwise)) }
{
    Ok(Action::IfElse {
        test,
        then: Box::new(alloc, then)?,
        otherwise: Box::new(alloc, otherwise)?,
    })
}

/// A loop that tests before each round.
pub(crate) fn repeated(
    alloc: Global,
    span: Span,
    test: Node,
    steps: Vec<Effect>,
    body: Action,
) -> Result<Action, NoMemory>
    ensures { IfOk result
        (λ a. action_of a ≡ action.Loop span.line (node_of test) (map effect_of steps.items) (action_of body)) }
{
    Ok(Action::Loop {
        line: span.line,
        test,
        steps,
        body: Box::new(alloc, body)?,
    })
}

/// A loop that tests after each round.
pub(crate) fn done_once(
    alloc: Global,
    span: Span,
    body: Action,
    test: Node,
) -> Result<Action, NoMemory>
    ensures { IfOk result (λ a. action_of a ≡ action.Do span.line (action_of body) (node_of test)) }
{
    Ok(Action::Do {
        line: span.line,
        body: Box::new(alloc, body)?,
        test,
    })
}

/// The effects, each as a statement, with room for one more.
pub(crate) fn effect_actions(alloc: Global, effects: Vec<Effect>) -> Result<Vec<Action>, NoMemory>
    ensures { IfOk result
        (λ v. actions_of v.items ≡ effects_after NoAction (map effect_of effects.items)) }
{
    let mut actions = Vec::with_capacity(alloc, effects.len().saturating_add(1))?;
    for effect in effects {
        actions.push(Action::Effect { effect })?;
    }
    Ok(actions)
}
