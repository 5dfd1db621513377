//! Expressions.

use lsl_text::Span;
use lsl_value::{BinaryOp, Kind, Text, UnaryOp};

/// A name and its place.
#[derive(Drop)]
pub struct Name {
    pub text: Text,
    pub span: Span,
}

/// `++` or `--`.
#[derive(Clone, Copy, PartialEq, Eq, Hash)]
pub enum StepOp {
    Increment,
    Decrement,
}

/// `=`, or an operator and `=`.
#[derive(Clone, Copy, PartialEq, Eq, Hash)]
pub enum AssignOp {
    Set,
    Add,
    Sub,
    Mul,
    Div,
    Rem,
}

/// An expression. A span is that of the first token, of an operator's sign between operands, or of an
/// assignment's sign.
pub enum Expr {
    /// INT
    Int {
        value: i32,
        span: Span,
    },
    /// STRING
    Str {
        text: Text,
        span: Span,
    },
    /// NAME
    Variable {
        name: Name,
    },
    /// NAME `++`, NAME `--`
    StepBehind {
        name: Name,
        op: StepOp,
    },
    /// `++` NAME, `--` NAME
    StepBefore {
        op: StepOp,
        span: Span,
        name: Name,
    },
    /// NAME `(` ... `)`
    Call {
        name: Name,
        arguments: Vec<Expr>,
    },
    /// `[` ... `]`
    List {
        span: Span,
        elements: Vec<Expr>,
    },
    /// `(` expression `)`
    Parens {
        span: Span,
        inner: Box<Expr>,
    },
    /// `(` TYPE `)` operand
    Cast {
        span: Span,
        kind: Kind,
        operand: Box<Expr>,
    },
    /// `-`, `!` or `~` and an operand
    Unary {
        op: UnaryOp,
        span: Span,
        operand: Box<Expr>,
    },
    /// an operator between two operands
    Binary {
        op: BinaryOp,
        span: Span,
        left: Box<Expr>,
        right: Box<Expr>,
    },
    /// NAME, the sign of an assignment and a value
    Assign {
        name: Name,
        op: AssignOp,
        span: Span,
        value: Box<Expr>,
    },
}

impl Drop for Expr {
    fn drop(self) {
        match self {
            Expr::Int { value: _, span: _ } => {}
            Expr::Str { text: _, span: _ } => {}
            Expr::Variable { name: _ } => {}
            Expr::StepBehind { name: _, op: _ } => {}
            Expr::StepBefore {
                op: _,
                span: _,
                name: _,
            } => {}
            Expr::Call {
                name: _,
                arguments: _,
            } => {}
            Expr::List {
                span: _,
                elements: _,
            } => {}
            Expr::Parens { span: _, inner: _ } => {}
            Expr::Cast {
                span: _,
                kind: _,
                operand: _,
            } => {}
            Expr::Unary {
                op: _,
                span: _,
                operand: _,
            } => {}
            Expr::Binary {
                op: _,
                span: _,
                left: _,
                right: _,
            } => {}
            Expr::Assign {
                name: _,
                op: _,
                span: _,
                value: _,
            } => {}
        }
    }
}
