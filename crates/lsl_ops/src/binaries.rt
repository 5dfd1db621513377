//! Operators between two values.

ghost use Rattle.std.specs.Prelude.{◌≡◌, ◌≢◌, ◌≤◌, ◌↔◌, IfOk, IsErrOf, IsSome, IsTrue};
ghost use Rattle.lsl_value.specs.Limits.{most_charge};
ghost use Rattle.lsl_value.specs.OperatorRows.{integer_kind_of, result_kind_of};
ghost use Rattle.lsl_value.specs.Values.{kind_of, charge_of};
ghost use Rattle.lsl_ops.specs.Operations.{binary_of, binary_takes_memory, divides_by_zero as divides_by_zero_of, integer_of};
ghost use Rattle.lsl_ops.specs.Integers.{arithmetic_of};

use crate::comparisons::{difference, equal};
use crate::faults::OpFault;
use crate::integers::checked_arithmetic;
use crate::sums::sum;
use lsl_value::{BinaryOp, Value};
use std::alloc::Global;

/// What the operator between two values gives (<https://wiki.secondlife.com/wiki/LSL_Operators>): `MathError`
/// exactly where `/` or `%` has a right integer 0.
///
/// Takes memory where it makes a text or a list.
pub fn binary(alloc: Global, op: BinaryOp, left: Value, right: Value) -> Result<Value, OpFault>
    requires row { IsSome (result_kind_of op (kind_of left) (kind_of right)) }
    requires left { charge_of left ≤ most_charge }
    requires right { charge_of right ≤ most_charge }
    ensures ok { IfOk result (λ value. value ≡ binary_of op left right) }
    ensures math_error { IsErrOf result OpFault.MathError ↔ IsTrue (divides_by_zero_of op right) }
    ensures memory { IsErrOf result OpFault.NoMemory → IsTrue (binary_takes_memory op (kind_of left) (kind_of right)) }
{
    match op {
        BinaryOp::Add => Ok(sum(left, right)?),
        BinaryOp::Equal => Ok(Value::Int(i32::from(equal(&left, &right)))),
        BinaryOp::Unequal => Ok(Value::Int(difference(&left, &right))),
        _ => integer_value(op, left, right),
    }
}

fn integer_value(op: BinaryOp, left: Value, right: Value) -> Result<Value, OpFault>
    requires { IsSome (integer_kind_of (kind_of left) (kind_of right)) }
    ensures ok { IfOk result (λ value. value ≡ Value.Int (arithmetic_of op (integer_of left) (integer_of right))) }
    ensures math_error { IsErrOf result OpFault.MathError ↔ IsTrue (divides_by_zero_of op right) }
    ensures memory { result ≢ Err OpFault.NoMemory }
{
    let (Value::Int(left), Value::Int(right)) = (left, right) else {
        unreachable!();
    };
    match checked_arithmetic(op, left, right) {
        Some(n) => Ok(Value::Int(n)),
        None => Err(OpFault::MathError),
    }
}
