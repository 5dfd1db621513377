//! Expressions of a checked program. Each gives a value.

use crate::expression::StepOp;
use lsl_value::{BinaryOp, BuiltinId, ConstantId, Kind, Text, UnaryOp};

/// Where a variable's value is kept: among the globals, or among the slots of the current function.
#[derive(Clone, Copy, PartialEq, Eq, Hash)]
pub enum Place {
    Global(usize),
    Slot(usize),
}

/// What a call calls: the program's function of this number, or a built-in call.
#[derive(Clone, Copy, PartialEq, Eq, Hash)]
pub enum Callee {
    Function(usize),
    Builtin(BuiltinId),
}

/// An expression. It holds its kind, unless its form implies it; an implicit cast is a node like any other.
pub enum Node {
    Int {
        value: i32,
    },
    Str {
        text: Text,
    },
    Constant {
        id: ConstantId,
        kind: Kind,
    },
    Variable {
        place: Place,
        kind: Kind,
    },
    /// A call with a result of this kind, on this line of the text.
    Call {
        callee: Callee,
        kind: Kind,
        line: u32,
        arguments: Vec<Node>,
    },
    List {
        elements: Vec<Node>,
    },
    /// The operand as a value of this kind.
    Cast {
        kind: Kind,
        operand: Box<Node>,
    },
    Unary {
        op: UnaryOp,
        operand: Box<Node>,
    },
    Binary {
        op: BinaryOp,
        kind: Kind,
        left: Box<Node>,
        right: Box<Node>,
    },
    /// Stores the value, and returns it.
    Assign {
        place: Place,
        kind: Kind,
        value: Box<Node>,
    },
    /// `x++`, `x--`: steps an integer variable, and returns its old value.
    StepBehind {
        place: Place,
        op: StepOp,
    },
}

impl Node {
    ghost use Rattle.std.specs.Prelude.{◌≡◌};
    ghost use Rattle.lsl_tree.specs.Nodes.{node_of, node_kind_of};

    /// The kind of the expression's value. Takes no memory.
    pub fn kind(&self) -> Kind
        ensures { result ≡ node_kind_of (node_of self.now) }
    {
        match self {
            Node::Int { .. } | Node::StepBehind { .. } | Node::Unary { .. } => Kind::Int,
            Node::Str { .. } => Kind::Str,
            Node::List { .. } => Kind::List,
            Node::Constant { kind, .. } | Node::Variable { kind, .. } => *kind,
            Node::Call { kind, .. } | Node::Cast { kind, .. } => *kind,
            Node::Binary { kind, .. } | Node::Assign { kind, .. } => *kind,
        }
    }
}

impl Drop for Node {
    fn drop(self) {
        match self {
            Node::Int { value: _ } => {}
            Node::Str { text: _ } => {}
            Node::Constant { id: _, kind: _ } => {}
            Node::Variable { place: _, kind: _ } => {}
            Node::Call {
                callee: _,
                kind: _,
                line: _,
                arguments: _,
            } => {}
            Node::List { elements: _ } => {}
            Node::Cast {
                kind: _,
                operand: _,
            } => {}
            Node::Unary { op: _, operand: _ } => {}
            Node::Binary {
                op: _,
                kind: _,
                left: _,
                right: _,
            } => {}
            Node::Assign {
                place: _,
                kind: _,
                value: _,
            } => {}
            Node::StepBehind { place: _, op: _ } => {}
        }
    }
}
