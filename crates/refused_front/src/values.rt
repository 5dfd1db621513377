//! Calls of `lsl_value` and `lsl_ops`.

ghost use Rattle.std.specs.Prelude.{◌≡◌, ◌↔◌, ◌+◌, ◌++◌, ◌<◌, ◌≤◌, ◌∷◌, length, IfOk, IfSome, IsSome, IsTrue, None, OnOk};
ghost use Rattle.std.specs.Str.{encode_utf8_all};
ghost use Rattle.lsl_ops.specs.Integers.{arithmetic_of, has_zero_divisor};
ghost use Rattle.lsl_ops.specs.Operations.{binary_of};
ghost use Rattle.lsl_value.specs.Limits.{most_charge, most_items, most_text_bytes};
ghost use Rattle.lsl_value.specs.OperatorRows.{result_kind_of};
ghost use Rattle.lsl_value.specs.Values.{charge_of, kind_of, same_value, truth_of};

use lsl_ops::{OpFault, binary, checked_arithmetic};
use lsl_text::NoMemory;
use lsl_value::{Atom, BinaryOp, Items, Text, Value, truth};
use std::alloc::Global;

/// `Text::push_text`, `ok`.
pub fn joined(text: &mut Text, other: &Text) -> Result<(), NoMemory>
    requires { length (encode_utf8_all text.old) + length (encode_utf8_all other.now) ≤ most_text_bytes }
    ensures { OnOk result (text.new ≡ text.old ++ other.now) }
{
    text.push_text(other)
}

/// `Items::append`, `ok`.
pub fn appended(items: &mut Items, other: Items) -> Result<(), NoMemory>
    requires { length items.old + length other ≤ most_items }
    ensures { OnOk result (items.new ≡ items.old ++ other) }
{
    items.append(other)
}

/// `Items::push_front`, `ok`.
pub fn prepended(items: &mut Items, atom: Atom) -> Result<(), NoMemory>
    requires { length items.old < most_items }
    ensures { OnOk result (items.new ≡ atom ∷ items.old) }
{
    items.push_front(atom)
}

/// `truth`.
pub fn holds(value: &Value) -> bool
    ensures { result ≡ truth_of value.now }
{
    truth(value)
}

/// `Value::eq`.
pub fn same(left: &Value, right: &Value) -> bool
    ensures { result ≡ same_value left.now right.now }
{
    left == right
}

/// `checked_arithmetic`, `value`.
pub fn arithmetic(op: BinaryOp, left: i32, right: i32) -> Option<i32>
    ensures { IfSome result (λ n. n ≡ arithmetic_of op left right) }
{
    checked_arithmetic(op, left, right)
}

/// `checked_arithmetic`, `nothing`.
pub fn divided(op: BinaryOp, dividend: i32, divisor: i32) -> Option<i32>
    ensures { result ≡ None ↔ IsTrue (has_zero_divisor op divisor) }
{
    checked_arithmetic(op, dividend, divisor)
}

/// `binary`, `ok`.
pub fn operated(alloc: Global, op: BinaryOp, left: Value, right: Value) -> Result<Value, OpFault>
    requires row { IsSome (result_kind_of op (kind_of left) (kind_of right)) }
    requires left { charge_of left ≤ most_charge }
    requires right { charge_of right ≤ most_charge }
    ensures { IfOk result (λ value. value ≡ binary_of op left right) }
{
    binary(alloc, op, left, right)
}
