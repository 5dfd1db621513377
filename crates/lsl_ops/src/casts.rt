//! Casts: what a value of one kind becomes as another.

ghost use Rattle.std.specs.Prelude.{◌≡◌, ◌≤◌, ◌+◌, ◌++◌, IfOk, OnOk, OnErr, IsTrue, ◌∷◌, [], length};
ghost use Rattle.std.specs.List.{flat_map};
ghost use Rattle.std.specs.Str.{encode_utf8_all};
ghost use Rattle.lsl_value.specs.Atoms.{item_charge_of, text_of_atom, list_charge_of};
ghost use Rattle.lsl_value.specs.Limits.{most_charge, most_text_bytes};
ghost use Rattle.lsl_value.specs.OperatorRows.{casts_of};
ghost use Rattle.lsl_value.specs.Values.{kind_of, charge_of};
ghost use Rattle.lsl_ops.specs.Operations.{atoms_of, cast_of, cast_takes_memory, integer_of, text_of};

use lsl_text::NoMemory;
use lsl_value::{Atom, Items, Kind, Text, Value};
use std::alloc::Global;

/// The value as one of another kind: an integer's text is its decimal, a text's integer is the one that it begins
/// with, a list of anything else is its one element, and a list's text joins its elements' texts
/// (<https://wiki.secondlife.com/wiki/Typecast>).
///
/// Takes memory where it makes a text of an integer or of a list, or a list of anything else. The value may be
/// charged more than the one that was cast.
pub fn cast(alloc: Global, value: Value, kind: Kind) -> Result<Value, NoMemory>
    requires row { IsTrue (casts_of (kind_of value) kind) }
    requires charged { charge_of value ≤ most_charge }
    ensures ok { IfOk result (λ casted. casted ≡ cast_of value kind) }
    ensures memory { OnErr result (IsTrue (cast_takes_memory (kind_of value) kind)) }
{
    match kind {
        Kind::Int => Ok(Value::Int(integer(&value))),
        Kind::Str => Ok(Value::Str(text(alloc, value)?)),
        Kind::Key => Ok(Value::Key(text(alloc, value)?)),
        Kind::List => Ok(Value::List(items(alloc, value)?)),
    }
}

fn integer(value: &Value) -> i32
    ensures { result ≡ integer_of value.now }
{
    match value {
        Value::Int(n) => *n,
        Value::Str(text) => text.integer(),
        Value::Key(_) | Value::List(_) => 0,
    }
}

fn text(alloc: Global, value: Value) -> Result<Text, NoMemory>
    requires { charge_of value ≤ most_charge }
    ensures ok { IfOk result (λ text. text ≡ text_of value) }
    ensures memory { OnErr result (IsTrue (cast_takes_memory (kind_of value) Kind.Str)) }
{
    match value {
        Value::Int(n) => Text::decimal(alloc, n),
        Value::Str(text) | Value::Key(text) => Ok(text),
        Value::List(items) => joined_text(alloc, &items),
    }
}

fn items(alloc: Global, value: Value) -> Result<Items, NoMemory>
    ensures ok { IfOk result (λ items. items ≡ atoms_of value) }
    ensures memory { OnErr result (IsTrue (cast_takes_memory (kind_of value) Kind.List)) }
{
    match value {
        Value::Int(n) => one_item(alloc, Atom::Int(n)),
        Value::Str(text) => one_item(alloc, Atom::Str(text)),
        Value::Key(text) => one_item(alloc, Atom::Key(text)),
        Value::List(items) => Ok(items),
    }
}

fn one_item(alloc: Global, atom: Atom) -> Result<Items, NoMemory>
    ensures { IfOk result (λ items. items ≡ atom ∷ []) }
{
    let mut items = Items::new(alloc);
    items.push(atom)?;
    Ok(items)
}

fn joined_text(alloc: Global, items: &Items) -> Result<Text, NoMemory>
    requires { list_charge_of items.now ≤ most_charge }
    ensures { IfOk result (λ text. text ≡ flat_map text_of_atom items.now) }
{
    let mut text = Text::new();
    for atom in items.as_slice() {
        push_atom(alloc, &mut text, atom)?;
    }
    Ok(text)
}

fn push_atom(alloc: Global, text: &mut Text, atom: &Atom) -> Result<(), NoMemory>
    requires { length (encode_utf8_all text.old) + item_charge_of atom.now ≤ most_text_bytes }
    ensures ok { OnOk result (text.new ≡ text.old ++ text_of_atom atom.now) }
    ensures short { OnOk result (length (encode_utf8_all text.new)
        ≤ length (encode_utf8_all text.old) + item_charge_of atom.now) }
{
    text.push_text(&atom.text(alloc)?)
}
