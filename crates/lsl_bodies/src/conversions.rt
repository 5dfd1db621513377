//! Values as values of a wanted kind.

ghost use Rattle.std.specs.Prelude.{◌≡◌, Some, None, IfOk};
ghost use Rattle.lsl_text.specs.declared.Refusal.TheVariants.{Fault};
ghost use Rattle.lsl_tree.specs.Expressions.{expr_of};
ghost use Rattle.lsl_tree.specs.Nodes.{Cast, node_of};
ghost use Rattle.lsl_bodies.specs.Conversions.{empty_node};
ghost use Rattle.lsl_bodies.specs.Spans.{first_span};
ghost use Rattle.lsl_bodies.specs.Verdict.{Rules};
ghost use Rattle.lsl_bodies.specs.VariableVerdicts.{become_verdict};

use crate::faults::{Refused, TypeKind, fault};
use crate::spans::first_span;
use lsl_text::NoMemory;
use lsl_tree::{Expr, Node};
use lsl_value::{Kind, Text};
use std::alloc::Global;

/// The node of the expression as one of this kind, with an implicit cast if need be.
pub(crate) fn as_kind(alloc: Global, kind: Kind, node: Node, expr: &Expr) -> Result<Node, Refused>
    ensures { Rules node_of result (become_verdict kind (node_of node) (first_span (expr_of expr.now))) }
{
    let found = node.kind();
    if found == kind {
        Ok(node)
    } else if found.casts_implicitly_to(kind) {
        Ok(cast(alloc, kind, node)?)
    } else {
        let wrong = TypeKind::WrongKind {
            wanted: Some(kind),
            found: Some(found),
        };
        Err(fault(wrong, first_span(expr)))
    }
}

pub(crate) fn cast(alloc: Global, kind: Kind, node: Node) -> Result<Node, NoMemory>
    ensures { IfOk result (λ n. node_of n ≡ Cast kind (node_of node)) }
{
    Ok(Node::Cast {
        kind,
        operand: Box::new(alloc, node)?,
    })
}

/// The empty value of a kind.
pub(crate) fn empty_node(alloc: Global, kind: Kind) -> Result<Node, NoMemory>
    ensures { IfOk result (λ n. node_of n ≡ empty_node kind) }
{
    match kind {
        Kind::Int => Ok(Node::Int { value: 0 }),
        Kind::Str => Ok(Node::Str { text: Text::new() }),
        Kind::Key => cast(alloc, Kind::Key, Node::Str { text: Text::new() }),
        Kind::List => Ok(Node::List {
            elements: Vec::new(alloc),
        }),
    }
}
