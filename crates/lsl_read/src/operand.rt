//! Expressions with their heights, as they are put together.

ghost use Rattle.std.specs.Prelude.{◌≡◌, ◌+◌, IfOk, OnOk, min};
ghost use Rattle.lsl_tree.specs.Expressions as tree;
ghost use Rattle.lsl_tree.specs.Expressions.{height as height_of, highest as highest_of, expr_of, exprs_of, NoExpr, AndExpr};
ghost use Rattle.lsl_signs.specs.Limits.{height_limit};
ghost use Rattle.lsl_read.specs.ExpressionGrammar.{fits};

use lsl_signs::HEIGHT;
use lsl_text::{NoMemory, Span};
use lsl_tree::{AssignOp, Expr, Name, StepOp};
use lsl_value::{BinaryOp, Kind, Text, UnaryOp};
use std::alloc::Global;

/// An expression and its height; heights from the limit on count as the limit.
#[derive(Drop)]
pub struct Operand {
    pub expr: Expr,
    pub height: u32,
    ghost capped: { height ≡ min (height_of (expr_of expr)) height_limit },
}

/// Expressions and the height of the highest; heights from the limit on count as the limit.
#[derive(Drop)]
pub struct Operands {
    pub exprs: Vec<Expr>,
    pub highest: u32,
    ghost capped: { highest ≡ min (highest_of (exprs_of exprs.items)) height_limit },
}

/// One more than a height, up to the limit.
fn raised(height: u32) -> u32
    ensures { result ≡ min (1 + height) height_limit }
{
    if height < HEIGHT { height + 1 } else { HEIGHT }
}

impl Operands {
    pub fn new(alloc: Global) -> Operands
        ensures { exprs_of result.exprs.items ≡ NoExpr }
    {
        Operands {
            exprs: Vec::new(alloc),
            highest: 0,
        }
    }

    /// One more at the end.
    pub fn push(&mut self, next: Operand) -> Result<(), NoMemory>
        ensures { OnOk result (exprs_of self.new.exprs.items
            ≡ AndExpr (exprs_of self.old.exprs.items) (expr_of next.expr)) }
    {
        let Operand { expr, height } = next;
        self.exprs.push(expr)?;
        self.highest = self.highest.max(height);
        Ok(())
    }
}

impl Operand {
    /// Whether it may be to the left of an operator.
    pub fn may_be_left(&self) -> bool
        ensures { result ≡ fits (Some height_limit) (expr_of self.now.expr) }
    {
        self.height < HEIGHT
    }

    pub fn integer(value: i32, span: Span) -> Operand
        ensures { expr_of result.expr ≡ tree.Int value span }
    {
        Operand {
            expr: Expr::Int { value, span },
            height: 1,
        }
    }

    pub fn string(text: Text, span: Span) -> Operand
        ensures { expr_of result.expr ≡ tree.Str text span }
    {
        Operand {
            expr: Expr::Str { text, span },
            height: 1,
        }
    }

    pub fn variable(name: Name) -> Operand
        ensures { expr_of result.expr ≡ tree.Variable name }
    {
        Operand {
            expr: Expr::Variable { name },
            height: 1,
        }
    }

    pub fn step_behind(name: Name, op: StepOp) -> Operand
        ensures { expr_of result.expr ≡ tree.StepBehind name op }
    {
        Operand {
            expr: Expr::StepBehind { name, op },
            height: 2,
        }
    }

    pub fn step_before(op: StepOp, span: Span, name: Name) -> Operand
        ensures { expr_of result.expr ≡ tree.StepBefore op span name }
    {
        Operand {
            expr: Expr::StepBefore { op, span, name },
            height: 2,
        }
    }

    pub fn call(name: Name, arguments: Operands) -> Operand
        ensures { expr_of result.expr ≡ tree.Call name (exprs_of arguments.exprs.items) }
    {
        let Operands { exprs, highest } = arguments;
        Operand {
            expr: Expr::Call {
                name,
                arguments: exprs,
            },
            height: raised(highest),
        }
    }

    pub fn list(span: Span, elements: Operands) -> Operand
        ensures { expr_of result.expr ≡ tree.ListLiteral span (exprs_of elements.exprs.items) }
    {
        let Operands { exprs, highest } = elements;
        Operand {
            expr: Expr::List {
                span,
                elements: exprs,
            },
            height: raised(highest),
        }
    }

    pub fn parens(alloc: Global, span: Span, inner: Operand) -> Result<Operand, NoMemory>
        ensures { IfOk result (λ o. expr_of o.expr ≡ tree.Parens span (expr_of inner.expr)) }
    {
        let Operand { expr, height } = inner;
        let inner = Box::new(alloc, expr)?;
        Ok(Operand {
            expr: Expr::Parens { span, inner },
            height,
        })
    }

    pub fn cast(
        alloc: Global,
        span: Span,
        kind: Kind,
        operand: Operand,
    ) -> Result<Operand, NoMemory>
        ensures { IfOk result (λ o. expr_of o.expr ≡ tree.Cast span kind (expr_of operand.expr)) }
    {
        let Operand { expr, height } = operand;
        let operand = Box::new(alloc, expr)?;
        Ok(Operand {
            expr: Expr::Cast {
                span,
                kind,
                operand,
            },
            height: raised(height),
        })
    }

    pub fn unary(
        alloc: Global,
        op: UnaryOp,
        span: Span,
        operand: Operand,
    ) -> Result<Operand, NoMemory>
        ensures { IfOk result (λ o. expr_of o.expr ≡ tree.Unary op span (expr_of operand.expr)) }
    {
        let Operand { expr, height } = operand;
        let operand = Box::new(alloc, expr)?;
        Ok(Operand {
            expr: Expr::Unary { op, span, operand },
            height: raised(height),
        })
    }

    pub fn binary(
        alloc: Global,
        op: BinaryOp,
        span: Span,
        left: Operand,
        right: Operand,
    ) -> Result<Operand, NoMemory>
        ensures { IfOk result (λ o. expr_of o.expr ≡ tree.Binary op span (expr_of left.expr) (expr_of right.expr)) }
    {
        let height = raised(left.height.max(right.height));
        let left = Box::new(alloc, left.expr)?;
        let right = Box::new(alloc, right.expr)?;
        Ok(Operand {
            expr: Expr::Binary {
                op,
                span,
                left,
                right,
            },
            height,
        })
    }

    pub fn assign(
        alloc: Global,
        name: Name,
        op: AssignOp,
        span: Span,
        value: Operand,
    ) -> Result<Operand, NoMemory>
        ensures { IfOk result (λ o. expr_of o.expr ≡ tree.Assign name op span (expr_of value.expr)) }
    {
        let height = raised(value.height.max(1));
        let value = Box::new(alloc, value.expr)?;
        Ok(Operand {
            expr: Expr::Assign {
                name,
                op,
                span,
                value,
            },
            height,
        })
    }
}
