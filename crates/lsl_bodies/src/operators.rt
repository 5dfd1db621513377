//! Casts, operators between operands, and lists.

ghost use Rattle.std.specs.Prelude.{◌≡◌, length, IfOk, Some, None};
ghost use Rattle.lsl_tree.specs.Expressions.{expr_of, exprs_of};
ghost use Rattle.lsl_tree.specs.Nodes.{Binary, node_of, nodes_of, node_kind_of};
ghost use Rattle.lsl_bodies.specs.Spans.{first_span};
ghost use Rattle.lsl_bodies.specs.Conversions.{is_no_list};
ghost use Rattle.lsl_bodies.specs.Verdict.{Rules, must_verdict};
ghost use Rattle.lsl_bodies.specs.Judgement.{at};
ghost use Rattle.lsl_bodies.specs.ValueVerdicts.{listed_verdict, converted_verdict, prefixed_verdict, joined_verdict};
ghost use Rattle.lsl_bodies.specs.ValueVerdicts.{flat_verdict};

use crate::conversions::cast;
use crate::faults::{Refused, TypeKind, fault};
use crate::spans::first_span;
use lsl_text::{NoMemory, Span};
use lsl_tree::{Expr, Node};
use lsl_value::{BinaryOp, Kind, UnaryOp};
use std::alloc::Global;

/// A list of these elements: none of them is a list.
pub(crate) fn check_list(exprs: &[Expr], nodes: Vec<Node>) -> Result<Node, Refused>
    requires { length exprs.now ≡ length nodes.items }
    ensures { Rules node_of result (listed_verdict (exprs_of exprs.now) (nodes_of nodes.items)) }
{
    flat(exprs, nodes.as_slice())?;
    Ok(Node::List { elements: nodes })
}

fn flat(exprs: &[Expr], nodes: &[Node]) -> Result<(), Refused>
    requires { length exprs.now ≡ length nodes.now }
    ensures { Rules (λ u. u) result (flat_verdict (exprs_of exprs.now) (nodes_of nodes.now)) }
{
    for (i, expr) in exprs.iter().enumerate() {
        element(&nodes[i], expr)?;
    }
    Ok(())
}

/// An element of a list isn't a list.
fn element(node: &Node, expr: &Expr) -> Result<(), Refused>
    ensures { Rules (λ u. u) result
        (must_verdict (is_no_list (node_kind_of (node_of node.now)))
        (at (TypeKind.WrongKind None (Some Kind.List)) (first_span (expr_of expr.now)))) }
{
    match node.kind() {
        Kind::List => {
            let wrong = TypeKind::WrongKind {
                wanted: None,
                found: Some(Kind::List),
            };
            Err(fault(wrong, first_span(expr)))
        }
        _ => Ok(()),
    }
}

pub(crate) fn converted(alloc: Global, span: Span, kind: Kind, node: Node) -> Result<Node, Refused>
    ensures { Rules node_of result (converted_verdict span kind (node_of node)) }
{
    if node.kind().casts_to(kind) {
        Ok(cast(alloc, kind, node)?)
    } else {
        Err(fault(TypeKind::NoCast, span))
    }
}

pub(crate) fn check_unary(
    alloc: Global,
    op: UnaryOp,
    span: Span,
    node: Node,
) -> Result<Node, Refused>
    ensures { Rules node_of result (prefixed_verdict op span (node_of node)) }
{
    match node.kind() {
        Kind::Int => Ok(Node::Unary {
            op,
            operand: Box::new(alloc, node)?,
        }),
        _ => Err(fault(TypeKind::NoOperator, span)),
    }
}

pub(crate) fn check_binary(
    alloc: Global,
    op: BinaryOp,
    span: Span,
    left: Node,
    right: Node,
) -> Result<Node, Refused>
    ensures { Rules node_of result (joined_verdict op span (node_of left) (node_of right)) }
{
    match op.result_kind(left.kind(), right.kind()) {
        Some(kind) => Ok(binary(alloc, op, kind, left, right)?),
        None => Err(fault(TypeKind::NoOperator, span)),
    }
}

pub(crate) fn binary(
    alloc: Global,
    op: BinaryOp,
    kind: Kind,
    left: Node,
    right: Node,
) -> Result<Node, NoMemory>
    ensures { IfOk result (λ n. node_of n ≡ Binary op kind (node_of left) (node_of right)) }
{
    Ok(Node::Binary {
        op,
        kind,
        left: Box::new(alloc, left)?,
        right: Box::new(alloc, right)?,
    })
}
