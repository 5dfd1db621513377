//! What operators and casts give.

use crate::shown::Shown;
use crate::values::words::{headed, kind, tell_answer, tell_value, value};
use crate::words::{parted, signed};
use lsl_ops::{binary, cast, unary};
use lsl_value::{BinaryOp, Kind, UnaryOp, Value, charge};
use std::alloc::AllocError;

pub fn tell(told: &mut Shown, word: &str, rest: &str) -> Result<(), AllocError> {
    match word {
        "op" => between(told, rest)?,
        "unary" => before(told, rest),
        "cast" => cast_to(told, rest)?,
        _ => told.add("no such row"),
    }
    Ok(())
}

/// The operator of a sign, and `!=` for any other word.
pub fn operator(sign: &str) -> BinaryOp {
    match sign {
        "+" => BinaryOp::Add,
        "-" => BinaryOp::Sub,
        "*" => BinaryOp::Mul,
        "/" => BinaryOp::Div,
        "%" => BinaryOp::Rem,
        "<<" => BinaryOp::Shl,
        ">>" => BinaryOp::Shr,
        "&" => BinaryOp::BitAnd,
        "|" => BinaryOp::BitOr,
        "^" => BinaryOp::BitXor,
        "<" => BinaryOp::Less,
        "<=" => BinaryOp::AtMost,
        ">" => BinaryOp::More,
        ">=" => BinaryOp::AtLeast,
        "&&" => BinaryOp::Both,
        "||" => BinaryOp::Either,
        "==" => BinaryOp::Equal,
        _ => BinaryOp::Unequal,
    }
}

/// What an operator between two values gives: `LEFT SIGN RIGHT`.
fn between(told: &mut Shown, operands: &str) -> Result<(), AllocError> {
    let (left, rest) = parted(operands, " ");
    let (sign, right) = parted(rest, " ");
    let left = value(told.alloc(), left)?;
    let right = value(told.alloc(), right)?;
    tell_result(told, operator(sign), left, right);
    Ok(())
}

fn tell_result(told: &mut Shown, op: BinaryOp, left: Value, right: Value) {
    let short = charge(&left) <= 65_536 && charge(&right) <= 65_536;
    if short && op.result_kind(left.kind(), right.kind()).is_some() {
        let answer = binary(told.alloc(), op, left, right);
        tell_answer(told, answer);
    } else {
        told.add("no such row");
    }
}

/// What an operator before an integer gives: the sign, and the integer after it.
fn before(told: &mut Shown, operand: &str) {
    let (sign, rest) = headed(operand);
    let op = match sign {
        "-" => UnaryOp::Negate,
        "!" => UnaryOp::LogicNot,
        _ => UnaryOp::BitNot,
    };
    told.put(&unary(op, signed(rest)));
}

/// The result of a cast of a value: `KIND VALUE`.
fn cast_to(told: &mut Shown, operand: &str) -> Result<(), AllocError> {
    let (letter, rest) = parted(operand, " ");
    let value = value(told.alloc(), rest)?;
    tell_cast(told, kind(letter), value)
}

fn tell_cast(told: &mut Shown, kind: Kind, value: Value) -> Result<(), AllocError> {
    if charge(&value) <= 65_536 && value.kind().casts_to(kind) {
        let casted = cast(told.alloc(), value, kind)?;
        tell_value(told, &casted);
    } else {
        told.add("no such row");
    }
    Ok(())
}
