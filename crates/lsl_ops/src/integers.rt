//! Operators on integers, which are signed, have 32 bits, and wrap.

ghost use Rattle.std.specs.Prelude.{◌≡◌, ◌≢◌, ◌↔◌, ◌^◌, ◌*ℤ◌, false, int_div, pos, IfSome, IsTrue, None};
ghost use Rattle.lsl_ops.specs.Integers.{arithmetic_of, has_zero_divisor, shift_of, shifted_right_of, unary_of, wrapped};

use crate::faults::OpFault;
use lsl_value::{BinaryOp, UnaryOp};

/// What the operator before an integer gives (<https://wiki.secondlife.com/wiki/LSL_Operators>). Takes no memory.
pub fn unary(op: UnaryOp, n: i32) -> i32
    ensures { result ≡ unary_of op n }
{
    match op {
        UnaryOp::Negate => n.wrapping_neg(),
        UnaryOp::LogicNot => i32::from(n == 0),
        UnaryOp::BitNot => !n,
    }
}

/// What the operator between two integers gives, or nothing where it divides by 0
/// (<https://wiki.secondlife.com/wiki/LSL_Operators>). Takes no memory.
#[inline(always)]
pub fn checked_arithmetic(op: BinaryOp, left: i32, right: i32) -> Option<i32>
    ensures value { IfSome result (λ n. n ≡ arithmetic_of op left right) }
    ensures nothing { result ≡ None ↔ IsTrue (has_zero_divisor op right) }
{
    if divides_by_zero(op, right) {
        return None;
    }
    Some(arithmetic(op, left, right))
}

/// Whether the operator divides by this integer, which is 0.
#[inline(always)]
fn divides_by_zero(op: BinaryOp, right: i32) -> bool
    ensures { result ≡ has_zero_divisor op right }
{
    matches!(op, BinaryOp::Div | BinaryOp::Rem) && right == 0
}

/// What the operator between two integers gives.
#[inline(always)]
fn arithmetic(op: BinaryOp, left: i32, right: i32) -> i32
    requires { has_zero_divisor op right ≡ false }
    ensures { result ≡ arithmetic_of op left right }
{
    match op {
        BinaryOp::Add => left.wrapping_add(right),
        BinaryOp::Sub => left.wrapping_sub(right),
        BinaryOp::Mul => left.wrapping_mul(right),
        BinaryOp::Div => quotient(left, right),
        BinaryOp::Rem => left.wrapping_rem(right),
        BinaryOp::Shl => shifted_left(left, right),
        BinaryOp::Shr => shifted_right(left, right),
        BinaryOp::BitAnd => left & right,
        BinaryOp::BitOr => left | right,
        BinaryOp::BitXor => left ^ right,
        BinaryOp::Less => i32::from(left < right),
        BinaryOp::AtMost => i32::from(left <= right),
        BinaryOp::More => i32::from(left > right),
        BinaryOp::AtLeast => i32::from(left >= right),
        BinaryOp::Both => i32::from(left != 0 && right != 0),
        BinaryOp::Either => i32::from(left != 0 || right != 0),
        BinaryOp::Equal => i32::from(left == right),
        BinaryOp::Unequal => i32::from(left != right),
    }
}

fn quotient(left: i32, right: i32) -> i32
    requires { right ≢ pos 0 }
    ensures { result ≡ wrapped (int_div left right) }
{
    left.wrapping_div(right)
}

fn shifted_left(n: i32, by: i32) -> i32
    ensures { result ≡ wrapped (n *ℤ pos (2 ^ shift_of by)) }
{
    n.wrapping_shl(by.cast_unsigned())
}

fn shifted_right(n: i32, by: i32) -> i32
    ensures { result ≡ shifted_right_of n (shift_of by) }
{
    n.wrapping_shr(by.cast_unsigned())
}
