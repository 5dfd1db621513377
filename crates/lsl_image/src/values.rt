//! Values of the kinds that are due.

ghost use Rattle.std.specs.Prelude.{◌≡◌, ℕ, [], map, drop, length, IfOk, IfSome};
ghost use Rattle.lsl_value.specs.Values.{kind_of};
ghost use Rattle.lsl_value.specs.declared.tagged.Value.TheVariants.{Int};
ghost use Rattle.lsl_running.specs.Charging.{charged_with, charges_of};
ghost use Rattle.lsl_code.specs.Kinds.{kinds_of};
ghost use Rattle.lsl_image.specs.Charges.{integers_charge};
ghost use Rattle.lsl_image.specs.Layout.{value_of, values_of};
ghost use Rattle.lsl_image.specs.Leading.{LeadsBehind};
ghost use Rattle.lsl_image.specs.Reading.{Gives, Reads};

use crate::charges::with_integers;
use crate::faults::wrong;
use crate::fields::{Read, read_value};
use lsl_bytes::take_int;
use lsl_code::Woven;
use lsl_text::NoMemory;
use lsl_value::{Kind, Value, Values, charge};
use std::alloc::Global;

// How many bytes a value has at least.
const LEAST_VALUE_BYTES: usize = 5;

/// A value of the kind of each global of the unit.
pub fn read_globals(alloc: Global, bytes: &[u8], place: usize, unit: &Woven) -> Read<Values>
    ensures { Reads bytes.now (values_of (kinds_of unit.now.globals)) place result }
{
    let kinds = kinds_of(alloc, unit.globals().as_slice())?;
    read_values(alloc, bytes, place, kinds.as_slice())
}

// The kinds of these values.
fn kinds_of(alloc: Global, values: &[Value]) -> Result<Vec<Kind>, NoMemory>
    ensures { IfOk result (λ kinds. kinds.items ≡ map kind_of values.now) }
{
    let mut kinds = Vec::with_capacity(alloc, values.len())?;
    for value in values {
        kinds.push(value.kind())?;
    }
    Ok(kinds)
}

/// A value of each of these kinds. It reserves no more than can be in the bytes that are left.
pub fn read_values(alloc: Global, bytes: &[u8], place: usize, kinds: &[Kind]) -> Read<Values>
    ensures { Reads bytes.now (values_of kinds.now) place result }
{
    let mut charged = 0;
    read_charged_values(alloc, bytes, place, kinds, Vec::new(alloc), &mut charged)
}

/// A value of each of these kinds in this buffer, and the charge with them.
#[inline(always)]
pub fn read_charged_values(
    alloc: Global,
    bytes: &[u8],
    place: usize,
    kinds: &[Kind],
    room: Vec<Value>,
    charged: &mut u64,
) -> Read<Values>
    requires { room.items ≡ [] }
    ensures reads { Reads bytes.now (values_of kinds.now) place result }
    ensures charged { IfOk result (λ read. charged.new ≡ charged_with charged.old (charges_of read.0)) }
{
    let most = bytes.len().saturating_sub(place) / LEAST_VALUE_BYTES;
    let mut values = room;
    values.reserve(kinds.len().min(most))?;
    let next = read_integers(bytes, place, kinds, &mut values);
    *charged = with_integers(*charged, values.len());
    if values.len() < kinds.len() {
        return read_others(alloc, bytes, next, kinds, values, charged);
    }
    Ok((Values::from_vec(values), next))
}

// The integers at the front, up to the first value that isn't an integer, can't be read or has no room, and the place
// after them.
#[inline(always)]
fn read_integers(bytes: &[u8], place: usize, kinds: &[Kind], values: &mut Vec<Value>) -> usize
    requires { values.old.items ≡ [] }
    ensures leads { LeadsBehind bytes.now (drop (length values.new.items) kinds.now) result values.new.items
        (values_of kinds.now) place }
    ensures charged { charges_of values.new.items ≡ integers_charge (length values.new.items) }
{
    let mut next = place;
    for kind in kinds {
        let Some((n, behind)) = int_of(bytes, next, *kind) else {
            return next;
        };
        if values.len() >= values.capacity() {
            return next;
        }
        values.push_reserved(Value::Int(n));
        next = behind;
    }
    next
}

// The values after those that are read, and charged.
#[inline(never)]
fn read_others(
    alloc: Global,
    bytes: &[u8],
    place: usize,
    kinds: &[Kind],
    values: Vec<Value>,
    charged: &mut u64,
) -> Read<Values>
    ensures reads { (start : ℕ) → LeadsBehind bytes.now (drop (length values.items) kinds.now) place values.items
        (values_of kinds.now) start → Reads bytes.now (values_of kinds.now) start result }
    ensures charged { (before : ℕ) → charged.old ≡ charged_with before (charges_of values.items) →
        IfOk result (λ read. charged.new ≡ charged_with before (charges_of read.0)) }
{
    let mut values = values;
    let mut next = place;
    for at in values.len()..kinds.len() {
        let (value, behind) = read_value_of(alloc, bytes, next, kinds[at])?;
        *charged = charged.saturating_add(charge(&value));
        values.push(value)?;
        next = behind;
    }
    Ok((Values::from_vec(values), next))
}

// The integer of a value, if one is due and is at the place.
#[inline(always)]
fn int_of(bytes: &[u8], place: usize, kind: Kind) -> Option<(i32, usize)>
    ensures { IfSome result (λ read. Gives bytes.now (value_of kind) place (Int read.0) read.1) }
{
    match kind {
        Kind::Int => take_int(bytes, place),
        _ => None,
    }
}

// A value of this kind.
#[inline(never)]
#[tactic(auto, unfolding(crate::specs::Layout::field, crate::specs::Layout::field_that))]
fn read_value_of(alloc: Global, bytes: &[u8], place: usize, kind: Kind) -> Read<Value>
    ensures { Reads bytes.now (value_of kind) place result }
{
    let (value, next) = read_value(alloc, bytes, place)?;
    if value.kind() != kind {
        return Err(wrong(place));
    }
    Ok((value, next))
}
