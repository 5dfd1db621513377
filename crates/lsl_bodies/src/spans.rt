//! The place of a value's first token.

ghost use Rattle.std.specs.Prelude.{◌≡◌};
ghost use Rattle.lsl_tree.specs.Expressions.{expr_of};
ghost use Rattle.lsl_tree.specs.Scripts.{simple_of};
ghost use Rattle.lsl_bodies.specs.Spans.{first_span, atom_span, initial_span};

use lsl_text::Span;
use lsl_tree::{Atom, Expr, Simple};

/// The first token of the expression: of an operator that of its left operand.
pub(crate) fn first_span(expr: &Expr) -> Span
    ensures { result ≡ first_span (expr_of expr.now) }
{
    match expr {
        Expr::Int { span, .. } | Expr::Str { span, .. } | Expr::StepBefore { span, .. } => *span,
        Expr::List { span, .. } | Expr::Parens { span, .. } => *span,
        Expr::Cast { span, .. } | Expr::Unary { span, .. } => *span,
        Expr::Variable { name } | Expr::StepBehind { name, .. } => name.span,
        Expr::Call { name, .. } | Expr::Assign { name, .. } => name.span,
        Expr::Binary { left, .. } => first_span(left),
    }
}

pub fn atom_span(atom: &Atom) -> Span
    ensures { result ≡ atom_span atom.now }
{
    match atom {
        Atom::Int { span, .. } | Atom::Negative { span, .. } | Atom::Str { span, .. } => *span,
        Atom::Constant { name } => name.span,
    }
}

pub fn initial_span(value: &Simple) -> Span
    ensures { result ≡ initial_span (simple_of value.now) }
{
    match value {
        Simple::Atom { atom } => atom_span(atom),
        Simple::List { span, .. } => *span,
    }
}
