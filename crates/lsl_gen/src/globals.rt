//! The initial values of globals.

ghost use Rattle.std.specs.Prelude.{◌≡◌, [], ◌∷◌, ◌++◌, IfOk, OnOk, true, map, flat_map};
ghost use Rattle.lsl_value.specs.OperatorRows.{casts_implicitly_of};
ghost use Rattle.lsl_value.specs.Values.{kind_of};
ghost use Rattle.lsl_table.specs.Constants.{constant_value_of};
ghost use Rattle.lsl_ops.specs.Operations.{atoms_of, cast_of};
ghost use Rattle.lsl_tree.specs.Initials.{IsKindedInitial, AreKindedInitials};
ghost use Rattle.lsl_tree.specs.Program.{initial_of};
ghost use Rattle.lsl_meaning.specs.Globals.{part_value_of, initial_value_of, globals_behind};

use crate::texts::{ascii_text, copy_text};
use lsl_ops::unary;
use lsl_table::{ConstantValue, constant_value};
use lsl_text::NoMemory;
use lsl_tree::{Initial, Part};
use lsl_value::{Atom, ConstantId, Items, Kind, MAX_ITEMS, UnaryOp, Value, Values, copy};
use std::alloc::{AllocError, Global};

/// The values of globals, in order: an initial value may name earlier globals.
pub fn initial_values(alloc: Global, initials: &[Initial]) -> Result<Values, NoMemory>
    requires { AreKindedInitials [] (map initial_of initials.now) }
    ensures { IfOk result (λ values. values ≡ globals_behind [] (map initial_of initials.now)) }
{
    let mut values = Values::new(alloc);
    for initial in initials {
        let value = initial_value(alloc, values.as_slice(), initial)?;
        values.push(value)?;
    }
    Ok(values)
}

// The value of a global that follows these.
fn initial_value(alloc: Global, before: &[Value], initial: &Initial) -> Result<Value, NoMemory>
    requires { IsKindedInitial (map kind_of before.now) (initial_of initial.now) }
    ensures { IfOk result (λ value. value ≡ initial_value_of before.now (initial_of initial.now)) }
{
    match initial {
        Initial::Part { part } => {
            let value = part_value(alloc, before, part)?;
            Ok(value)
        }
        Initial::Cast { kind, part } => {
            let value = part_value(alloc, before, part)?;
            Ok(cast_initial(value, *kind))
        }
        Initial::List { parts } => {
            let items = items_of(alloc, before, parts)?;
            Ok(Value::List(items))
        }
    }
}

// A part of a global's initial value.
fn part_value(alloc: Global, before: &[Value], part: &Part) -> Result<Value, NoMemory>
    ensures { IfOk result (λ value. value ≡ part_value_of before.now part.now) }
{
    match part {
        Part::Int { value } => Ok(Value::Int(*value)),
        Part::Negative { value } => Ok(Value::Int(unary(UnaryOp::Negate, *value))),
        Part::Str { text } => {
            let text = copy_text(text)?;
            Ok(Value::Str(text))
        }
        Part::Constant { id, .. } => {
            let value = constant(alloc, *id)?;
            Ok(value)
        }
        Part::Global { number, .. } => match before.get(*number) {
            Some(value) => {
                let value = copy(value)?;
                Ok(value)
            }
            None => Ok(Value::Int(0)),
        },
    }
}

// A constant's value.
fn constant(alloc: Global, id: ConstantId) -> Result<Value, NoMemory>
    ensures { IfOk result (λ value. value ≡ constant_value_of id) }
{
    match constant_value(id) {
        ConstantValue::Int(n) => Ok(Value::Int(n)),
        ConstantValue::Str(text) => {
            let text = ascii_text(alloc, text)?;
            Ok(Value::Str(text))
        }
    }
}

// The string as a key, or the key as a string: the same text, so it takes no memory.
fn cast_initial(value: Value, kind: Kind) -> Value
    requires { casts_implicitly_of (kind_of value) kind ≡ true }
    ensures { result ≡ cast_of value kind }
{
    match (value, kind) {
        (Value::Str(text), Kind::Key) => Value::Key(text),
        (Value::Key(text), Kind::Str) => Value::Str(text),
        _ => unreachable!(),
    }
}

// The elements of a list of these parts.
fn items_of(alloc: Global, before: &[Value], parts: &[Part]) -> Result<Items, NoMemory>
    ensures { IfOk result (λ items. items ≡ flat_map atoms_of (map (part_value_of before.now) parts.now)) }
{
    let mut items = Items::new(alloc);
    for part in parts {
        let value = part_value(alloc, before, part)?;
        push_atoms(&mut items, value)?;
    }
    Ok(items)
}

// Adds the value's elements: a list's own, or the one of any other value. Out of memory where there are too many.
fn push_atoms(items: &mut Items, value: Value) -> Result<(), NoMemory>
    ensures { OnOk result (items.new ≡ items.old ++ atoms_of value) }
{
    match value {
        Value::Int(n) => push_atom(items, Atom::Int(n)),
        Value::Str(text) => push_atom(items, Atom::Str(text)),
        Value::Key(text) => push_atom(items, Atom::Key(text)),
        Value::List(other) => {
            if other.len() > MAX_ITEMS - items.len() {
                return Err(AllocError);
            }
            items.append(other)
        }
    }
}

// Adds an element. Out of memory where there are too many.
fn push_atom(items: &mut Items, atom: Atom) -> Result<(), NoMemory>
    ensures { OnOk result (items.new ≡ items.old ++ atom ∷ []) }
{
    if items.is_full() {
        return Err(AllocError);
    }
    items.push(atom)
}
