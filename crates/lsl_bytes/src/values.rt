//! Values after the tags of their kinds.

ghost use Rattle.std.specs.Prelude.{◌≡◌, ◌++◌, take, vec_len, IfOk, OnOk, OnErr};
ghost use Rattle.lsl_value.specs.Values.{value_of_atom};
ghost use Rattle.lsl_bytes.specs.Fields.{FitsI32, IsValue, int_bytes, value_bytes};
ghost use Rattle.lsl_bytes.specs.Places.{Takes};

use crate::Taken;
use crate::elements::{
    INT_TAG, KEY_TAG, LIST_TAG, STR_TAG, append_int, append_items, append_tagged, take_atom,
    take_items,
};
use crate::numbers::{take_i32, take_u8};
use lsl_text::NoMemory;
use lsl_value::{Atom, Value};
use std::alloc::Global;

/// Appends a value: the tag of its kind, and the number, the text, or the count of elements and these. Any value fits
/// its field.
pub fn push_value(out: &mut Vec<u8>, value: &Value) -> Result<(), NoMemory>
    ensures ok { OnOk result (out.new.items ≡ out.old.items ++ value_bytes value.now) }
    ensures unchanged { OnErr result (out.new.items ≡ out.old.items) }
    ensures valid { OnOk result (IsValue value.now) }
{
    let start = out.len();
    let pushed = append_value(out, value);
    if pushed.is_err() {
        out.truncate(start);
    }
    pushed
}

/// Takes a value. Takes memory for its text, or for its elements and their texts: in proportion to the bytes
/// that are there, whatever count they claim.
pub fn take_value(alloc: Global, bytes: &[u8], place: usize) -> Taken<Value>
    ensures { IfOk result (λ answer. Takes value_bytes IsValue bytes.now place answer) }
{
    let Some((tag, next)) = take_u8(bytes, place) else {
        return Ok(None);
    };
    match tag {
        LIST_TAG => match take_items(alloc, bytes, next)? {
            Some((items, next)) => Ok(Some((Value::List(items), next))),
            None => Ok(None),
        },
        _ => match take_atom(alloc, bytes, place)? {
            Some((atom, next)) => Ok(Some((value_of(atom), next))),
            None => Ok(None),
        },
    }
}

/// Takes the integer of an integer value, after its tag. Takes no memory.
#[inline(always)]
pub fn take_int(bytes: &[u8], place: usize) -> Option<(i32, usize)>
    ensures { Takes int_bytes FitsI32 bytes.now place result }
{
    let (tag, next) = take_u8(bytes, place)?;
    if tag != INT_TAG {
        return None;
    }
    take_i32(bytes, next)
}

// After an `Err` a prefix of the bytes may follow the old ones.
#[tactic(auto, unfolding(crate::specs::Fields::value_bytes))]
fn append_value(out: &mut Vec<u8>, value: &Value) -> Result<(), NoMemory>
    ensures ok { OnOk result (out.new.items ≡ out.old.items ++ value_bytes value.now) }
    ensures front { OnErr result (take (vec_len out.old) out.new.items ≡ out.old.items) }
    ensures valid { OnOk result (IsValue value.now) }
{
    match value {
        Value::Int(n) => append_int(out, *n),
        Value::Str(text) => append_tagged(out, STR_TAG, text),
        Value::Key(text) => append_tagged(out, KEY_TAG, text),
        Value::List(items) => append_items(out, items),
    }
}

fn value_of(atom: Atom) -> Value
    ensures { result ≡ value_of_atom atom }
{
    match atom {
        Atom::Int(n) => Value::Int(n),
        Atom::Str(text) => Value::Str(text),
        Atom::Key(text) => Value::Key(text),
    }
}
