//! The signs of operators, and the words of kinds.

use lsl_tree::{AssignOp, StepOp};
use lsl_value::{BinaryOp, Kind, UnaryOp};

pub fn unary_sign(op: UnaryOp) -> &'static str {
    match op {
        UnaryOp::Negate => "-",
        UnaryOp::LogicNot => "!",
        UnaryOp::BitNot => "~",
    }
}

pub fn binary_sign(op: BinaryOp) -> &'static str {
    match op {
        BinaryOp::Add => "+",
        BinaryOp::Sub => "-",
        BinaryOp::Mul => "*",
        BinaryOp::Div => "/",
        BinaryOp::Rem => "%",
        BinaryOp::Shl => "<<",
        BinaryOp::Shr => ">>",
        BinaryOp::BitAnd => "&",
        BinaryOp::BitOr => "|",
        BinaryOp::BitXor => "^",
        BinaryOp::Less => "<",
        BinaryOp::AtMost => "<=",
        BinaryOp::More => ">",
        BinaryOp::AtLeast => ">=",
        BinaryOp::Both => "&&",
        BinaryOp::Either => "||",
        BinaryOp::Equal => "==",
        BinaryOp::Unequal => "!=",
    }
}

pub fn assign_sign(op: AssignOp) -> &'static str {
    match op {
        AssignOp::Set => "=",
        AssignOp::Add => "+=",
        AssignOp::Sub => "-=",
        AssignOp::Mul => "*=",
        AssignOp::Div => "/=",
        AssignOp::Rem => "%=",
    }
}

pub fn step_sign(op: StepOp) -> &'static str {
    match op {
        StepOp::Increment => "++",
        StepOp::Decrement => "--",
    }
}

pub fn kind_word(kind: Kind) -> &'static str {
    match kind {
        Kind::Int => "integer",
        Kind::Str => "string",
        Kind::Key => "key",
        Kind::List => "list",
    }
}
