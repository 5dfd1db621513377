//! Equality and difference of values.

ghost use Rattle.std.specs.Prelude.{◌≡◌, ◌-ℤ◌, IsSome, length, pos};
ghost use Rattle.lsl_value.specs.OperatorRows.{comparison_kind_of};
ghost use Rattle.lsl_value.specs.Values.{kind_of};
ghost use Rattle.lsl_ops.specs.Operations.{are_equal, difference_of};

use lsl_value::{Items, Value};

/// Whether two values are equal: integers, texts by their characters, lists by their lengths
/// (<https://wiki.secondlife.com/wiki/List#Comparing_Lists>).
pub(crate) fn equal(left: &Value, right: &Value) -> bool
    requires { IsSome (comparison_kind_of (kind_of left.now) (kind_of right.now)) }
    ensures { result ≡ are_equal left.now right.now }
{
    match (left, right) {
        (Value::Int(a), Value::Int(b)) => a == b,
        (Value::Str(a) | Value::Key(a), Value::Str(b) | Value::Key(b)) => a == b,
        (Value::List(a), Value::List(b)) => a.len() == b.len(),
        _ => unreachable!(),
    }
}

/// 0 where the values are equal, else 1; of two lists the difference of their lengths.
pub(crate) fn difference(left: &Value, right: &Value) -> i32
    requires { IsSome (comparison_kind_of (kind_of left.now) (kind_of right.now)) }
    ensures { result ≡ difference_of left.now right.now }
{
    match (left, right) {
        (Value::List(a), Value::List(b)) => length_difference(a, b),
        _ => i32::from(!equal(left, right)),
    }
}

fn length_difference(left: &Items, right: &Items) -> i32
    ensures { result ≡ pos (length left.now) -ℤ pos (length right.now) }
{
    left.len() as i32 - right.len() as i32
}
