//! A call's arguments, taken apart.

ghost use Rattle.std.specs.Prelude.{◌≡◌, drop};
ghost use Rattle.std.specs.Vec.Iter.{into_iter_items};
ghost use Rattle.lsl_pure.specs.Arguments.{value_at, int_of, text_of, atoms_of};

use lsl_value::{Items, Text, Value, Values};
use std::alloc::Global;
use std::vec::IntoIter;

/// The first four arguments, with 0 where there are fewer.
pub fn first_four(args: Values) -> (Value, Value, Value, Value)
    ensures first { result.0 ≡ value_at args 0 }
    ensures second { result.1 ≡ value_at args 1 }
    ensures third { result.2 ≡ value_at args 2 }
    ensures fourth { result.3 ≡ value_at args 3 }
{
    let mut rest = args.into_vec().into_iter();
    let first = next(&mut rest);
    let second = next(&mut rest);
    let third = next(&mut rest);
    let fourth = next(&mut rest);
    (first, second, third, fourth)
}

fn next(rest: &mut IntoIter<Value>) -> Value
    ensures value { result ≡ value_at (into_iter_items rest.old) 0 }
    ensures others { into_iter_items rest.new ≡ drop 1 (into_iter_items rest.old) }
{
    match rest.next() {
        Some(value) => value,
        None => Value::Int(0),
    }
}

/// The value's integer. A value of another kind has 0.
pub fn int(value: Value) -> i32
    ensures { result ≡ int_of value }
{
    match value {
        Value::Int(n) => n,
        _ => 0,
    }
}

/// The value's text. A value of another kind has the empty one.
pub fn text(value: Value) -> Text
    ensures { result ≡ text_of value }
{
    match value {
        Value::Str(text) => text,
        _ => Text::new(),
    }
}

/// The value's list. A value of another kind has the empty one.
pub fn list(alloc: Global, value: Value) -> Items
    ensures { result ≡ atoms_of value }
{
    match value {
        Value::List(items) => items,
        _ => Items::new(alloc),
    }
}
