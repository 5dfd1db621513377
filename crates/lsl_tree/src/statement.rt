//! Statements, and the content of a block.

use crate::expression::{Expr, Name};
use lsl_text::Span;
use lsl_value::Kind;

/// The state that a script goes to.
#[derive(Drop)]
pub enum StateName {
    Default,
    Named(Name),
}

/// An item of a block.
#[cycle(statement)]
pub enum Item {
    /// TYPE NAME [ `=` expression ] `;`
    Declaration {
        kind: Kind,
        name: Name,
        value: Option<Expr>,
    },
    /// `@` NAME `;`
    Label {
        name: Name,
    },
    /// a statement
    Statement {
        statement: Stmt,
    },
}

/// A statement. The span is that of its first token.
#[cycle(statement)]
pub enum Stmt {
    /// `{` ... `}`
    Block {
        items: Vec<Item>,
    },
    /// `;`
    Empty,
    /// an expression and `;`
    Expression {
        value: Expr,
    },
    /// `if` without an `else`
    If {
        span: Span,
        test: Expr,
        then: Box<Stmt>,
    },
    /// `if` with an `else`
    IfElse {
        span: Span,
        test: Expr,
        then: Box<Stmt>,
        otherwise: Box<Stmt>,
    },
    /// `while`
    While {
        span: Span,
        test: Expr,
        body: Box<Stmt>,
    },
    /// `do` ... `while`
    Do {
        span: Span,
        body: Box<Stmt>,
        test: Expr,
    },
    /// `for`
    For {
        span: Span,
        start: Vec<Expr>,
        test: Expr,
        step: Vec<Expr>,
        body: Box<Stmt>,
    },
    /// `jump`
    Jump {
        span: Span,
        label: Name,
    },
    /// `return`
    Return {
        span: Span,
        value: Option<Expr>,
    },
    /// `state`
    State {
        span: Span,
        state: StateName,
    },
}

impl Drop for Item {
    #[cycle(drops)]
    fn drop(self) {
        match self {
            Item::Declaration {
                kind: _,
                name: _,
                value: _,
            } => {}
            Item::Label { name: _ } => {}
            Item::Statement { statement: _ } => {}
        }
    }
}

impl Drop for Stmt {
    #[cycle(drops)]
    fn drop(self) {
        match self {
            Stmt::Block { items: _ } => {}
            Stmt::Empty => {}
            Stmt::Expression { value: _ } => {}
            Stmt::If {
                span: _,
                test: _,
                then: _,
            } => {}
            Stmt::IfElse {
                span: _,
                test: _,
                then: _,
                otherwise: _,
            } => {}
            Stmt::While {
                span: _,
                test: _,
                body: _,
            } => {}
            Stmt::Do {
                span: _,
                body: _,
                test: _,
            } => {}
            Stmt::For {
                span: _,
                start: _,
                test: _,
                step: _,
                body: _,
            } => {}
            Stmt::Jump { span: _, label: _ } => {}
            Stmt::Return { span: _, value: _ } => {}
            Stmt::State { span: _, state: _ } => {}
        }
    }
}
