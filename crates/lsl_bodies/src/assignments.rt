//! Assignments.

ghost use Rattle.std.specs.Prelude.{◌≡◌, IfOk};
ghost use Rattle.lsl_tree.specs.Expressions.{expr_of};
ghost use Rattle.lsl_tree.specs.Nodes.{Assign, node_of};
ghost use Rattle.lsl_bodies.specs.Spans.{first_span};
ghost use Rattle.lsl_bodies.specs.Conversions.{operator_before};
ghost use Rattle.lsl_bodies.specs.Sameness.{is_kind};
ghost use Rattle.lsl_bodies.specs.Verdict.{Rules};
ghost use Rattle.lsl_bodies.specs.VariableVerdicts.{stored_verdict, compound_verdict};

use crate::conversions::as_kind;
use crate::faults::{Refused, TypeKind, fault};
use crate::frame::{Target, Variable};
use crate::operators::binary;
use crate::scope::assignable;
use lsl_text::{NoMemory, Span};
use lsl_tree::{AssignOp, Expr, Name, Node};
use lsl_value::{BinaryOp, Kind};
use std::alloc::Global;

/// An assignment of this value of an expression to a name's target.
pub(crate) fn stored(
    alloc: Global,
    target: Target,
    name: &Name,
    op: AssignOp,
    sign: Span,
    node: Node,
    expr: &Expr,
) -> Result<Node, Refused>
    ensures { Rules node_of result
        (stored_verdict target name.now op sign (node_of node) (first_span (expr_of expr.now))) }
{
    let variable = assignable(target, name)?;
    match operator_before(op) {
        None => {
            let node = as_kind(alloc, variable.kind, node, expr)?;
            Ok(assign(alloc, variable, node)?)
        }
        Some(op) => compound(alloc, op, variable, sign, node),
    }
}

fn compound(
    alloc: Global,
    op: BinaryOp,
    variable: Variable,
    sign: Span,
    node: Node,
) -> Result<Node, Refused>
    ensures { Rules node_of result (compound_verdict op variable (node_of node) sign) }
{
    let Variable { place, kind } = variable;
    if is_kind(op.result_kind(kind, node.kind()), kind) {
        let old = Node::Variable { place, kind };
        let new = binary(alloc, op, kind, old, node)?;
        Ok(assign(alloc, variable, new)?)
    } else {
        Err(fault(TypeKind::NoOperator, sign))
    }
}

fn is_kind(found: Option<Kind>, kind: Kind) -> bool
    ensures { result ≡ is_kind found kind }
{
    match found {
        None => false,
        Some(found) => found as u8 == kind as u8,
    }
}

fn assign(alloc: Global, variable: Variable, node: Node) -> Result<Node, NoMemory>
    ensures { IfOk result (λ n. node_of n ≡ Assign variable.place variable.kind (node_of node)) }
{
    Ok(Node::Assign {
        place: variable.place,
        kind: variable.kind,
        value: Box::new(alloc, node)?,
    })
}

fn operator_before(op: AssignOp) -> Option<BinaryOp>
    ensures { result ≡ operator_before op }
{
    match op {
        AssignOp::Set => None,
        AssignOp::Add => Some(BinaryOp::Add),
        AssignOp::Sub => Some(BinaryOp::Sub),
        AssignOp::Mul => Some(BinaryOp::Mul),
        AssignOp::Div => Some(BinaryOp::Div),
        AssignOp::Rem => Some(BinaryOp::Rem),
    }
}
