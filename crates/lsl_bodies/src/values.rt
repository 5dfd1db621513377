//! Expressions that must have a value: their meaning, or their first fault.

ghost use Rattle.std.specs.Prelude.{◌≡◌, length, IfOk};
ghost use Rattle.lsl_tree.specs.Expressions as expr;
ghost use Rattle.lsl_tree.specs.Expressions.{expr_of, exprs_of};
ghost use Rattle.lsl_tree.specs.Nodes.{node_of, nodes_of};
ghost use Rattle.lsl_bodies.specs.Known.{known_of};
ghost use Rattle.lsl_bodies.specs.Scope.{scope_of};
ghost use Rattle.lsl_bodies.specs.Verdict.{Rules};
ghost use Rattle.lsl_bodies.specs.ValueVerdicts.{value_verdict, values_verdict};

use crate::assignments::stored;
use crate::checker::Checker;
use crate::faults::Refused;
use crate::frame::Scope;
use crate::operators::{check_binary, check_list, check_unary, converted};
use lsl_text::Span;
use lsl_tree::{AssignOp, Expr, Name, Node};
use lsl_value::{Kind, UnaryOp};

impl Checker<'_> {
    /// An expression that must have a value.
    #[cycle(value)]
    pub(crate) fn value(&self, scope: &Scope, expr: &Expr) -> Result<Node, Refused>
        ensures { Rules node_of result
            (value_verdict (known_of self.now.known.now) (scope_of scope.now) (expr_of expr.now)) }
    {
        match expr {
            Expr::Int { value, .. } => Ok(Node::Int { value: *value }),
            Expr::Str { text, .. } => Ok(Node::Str { text: text.copy()? }),
            Expr::Variable { name } => scope.read(name),
            Expr::StepBehind { name, op } => scope.step_behind(name, *op),
            Expr::StepBefore { op, name, .. } => scope.step_before(self.alloc, name, *op),
            Expr::Call { name, arguments } => self.call(scope, name, arguments.as_slice()),
            Expr::List { elements, .. } => {
                let nodes = self.values(scope, elements.as_slice())?;
                check_list(elements.as_slice(), nodes)
            }
            Expr::Parens { inner, .. } => self.value(scope, inner),
            Expr::Cast {
                span,
                kind,
                operand,
            } => self.cast(scope, *span, *kind, operand),
            Expr::Unary { op, span, operand } => self.unary(scope, *op, *span, operand),
            Expr::Binary {
                op,
                span,
                left,
                right,
            } => {
                let left = self.value(scope, left)?;
                let right = self.value(scope, right)?;
                check_binary(self.alloc, *op, *span, left, right)
            }
            Expr::Assign {
                name,
                op,
                span,
                value: right,
            } => self.assign(scope, name, *op, *span, right),
        }
    }

    /// A call that must have a value.
    #[inline(never)]
    #[cycle(value)]
    fn call(&self, scope: &Scope, name: &Name, arguments: &[Expr]) -> Result<Node, Refused>
        ensures { Rules node_of result
            (value_verdict (known_of self.now.known.now) (scope_of scope.now)
            (expr.Call name.now (exprs_of arguments.now))) }
    {
        let nodes = self.values(scope, arguments)?;
        let called = self.known.callable(name)?;
        called.value(self.alloc, name, arguments, nodes)
    }

    #[inline(never)]
    #[cycle(value)]
    fn cast(&self, scope: &Scope, span: Span, kind: Kind, operand: &Expr) -> Result<Node, Refused>
        ensures { Rules node_of result
            (value_verdict (known_of self.now.known.now) (scope_of scope.now)
            (expr.Cast span kind (expr_of operand.now))) }
    {
        let node = self.value(scope, operand)?;
        converted(self.alloc, span, kind, node)
    }

    #[inline(never)]
    #[cycle(value)]
    fn unary(&self, scope: &Scope, op: UnaryOp, span: Span, operand: &Expr) -> Result<Node, Refused>
        ensures { Rules node_of result
            (value_verdict (known_of self.now.known.now) (scope_of scope.now)
            (expr.Unary op span (expr_of operand.now))) }
    {
        let node = self.value(scope, operand)?;
        check_unary(self.alloc, op, span, node)
    }

    #[inline(never)]
    #[cycle(value)]
    fn assign(
        &self,
        scope: &Scope,
        name: &Name,
        op: AssignOp,
        span: Span,
        right: &Expr,
    ) -> Result<Node, Refused>
        ensures { Rules node_of result
            (value_verdict (known_of self.now.known.now) (scope_of scope.now)
            (expr.Assign name.now op span (expr_of right.now))) }
    {
        let target = scope.target(name)?;
        let node = self.value(scope, right)?;
        stored(self.alloc, target, name, op, span, node, right)
    }

    /// Expressions that must have values, from left to right.
    #[cycle(value)]
    pub(crate) fn values(&self, scope: &Scope, exprs: &[Expr]) -> Result<Vec<Node>, Refused>
        ensures found { Rules (λ v. nodes_of v.items) result
            (values_verdict (known_of self.now.known.now) (scope_of scope.now) (exprs_of exprs.now)) }
        ensures counted { IfOk result (λ v. length exprs.now ≡ length v.items) }
    {
        let mut nodes = Vec::with_capacity(self.alloc, exprs.len())?;
        for expr in exprs {
            nodes.push(self.value(scope, expr)?)?;
        }
        Ok(nodes)
    }
}
