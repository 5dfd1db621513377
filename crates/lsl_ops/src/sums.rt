//! What `+` makes: sums, joined texts, longer lists.

ghost use Rattle.std.specs.Prelude.{◌≡◌, ◌++◌, ◌<◌, ◌≤◌, ◌+◌, ◌∷◌, [], IfOk, OnErr, IsSome, IsTrue, length};
ghost use Rattle.std.specs.Str.{encode_utf8_all};
ghost use Rattle.lsl_value.specs.Limits.{most_charge, most_items, most_text_bytes};
ghost use Rattle.lsl_value.specs.OperatorRows.{sum_kind_of};
ghost use Rattle.lsl_value.specs.Values.{kind_of, charge_of};
ghost use Rattle.lsl_ops.specs.Operations.{atoms_of, sum_of, sum_takes_memory};

use lsl_text::NoMemory;
use lsl_value::{Atom, Items, Text, Value};

/// The sum of two integers, two strings joined, or a list with a value added before or after it: one pass.
pub(crate) fn sum(left: Value, right: Value) -> Result<Value, NoMemory>
    requires row { IsSome (sum_kind_of (kind_of left) (kind_of right)) }
    requires left { charge_of left ≤ most_charge }
    requires right { charge_of right ≤ most_charge }
    ensures ok { IfOk result (λ value. value ≡ sum_of left right) }
    ensures memory { OnErr result (IsTrue (sum_takes_memory (kind_of left) (kind_of right))) }
{
    match (left, right) {
        (Value::Int(a), Value::Int(b)) => Ok(Value::Int(a.wrapping_add(b))),
        (Value::Str(a), Value::Str(b)) => Ok(Value::Str(joined(a, &b)?)),
        (Value::List(a), right) => Ok(Value::List(with_last(a, right)?)),
        (Value::Int(a), Value::List(b)) => Ok(Value::List(with_first(Atom::Int(a), b)?)),
        (Value::Str(a), Value::List(b)) => Ok(Value::List(with_first(Atom::Str(a), b)?)),
        (Value::Key(a), Value::List(b)) => Ok(Value::List(with_first(Atom::Key(a), b)?)),
        _ => unreachable!(),
    }
}

fn joined(left: Text, right: &Text) -> Result<Text, NoMemory>
    requires { length (encode_utf8_all left) + length (encode_utf8_all right.now) ≤ most_text_bytes }
    ensures { IfOk result (λ text. text ≡ left ++ right.now) }
{
    let mut text = left;
    text.push_text(right)?;
    Ok(text)
}

fn with_last(list: Items, value: Value) -> Result<Items, NoMemory>
    requires { length list + length (atoms_of value) ≤ most_items }
    ensures { IfOk result (λ items. items ≡ list ++ atoms_of value) }
{
    let mut items = list;
    match value {
        Value::Int(n) => items.push(Atom::Int(n))?,
        Value::Str(text) => items.push(Atom::Str(text))?,
        Value::Key(text) => items.push(Atom::Key(text))?,
        Value::List(other) => items.append(other)?,
    }
    Ok(items)
}

fn with_first(atom: Atom, list: Items) -> Result<Items, NoMemory>
    requires { length list < most_items }
    ensures { IfOk result (λ items. items ≡ atom ∷ list) }
{
    let mut items = list;
    items.push_front(atom)?;
    Ok(items)
}
