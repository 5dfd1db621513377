//! What a script rests in.

ghost use Rattle.std.specs.Prelude.{◌≡◌, ◌&&◌, nat_le};
ghost use Rattle.lsl_image.specs.Layout.{U8, field_that};
ghost use Rattle.lsl_image.specs.Reading.{Reads};
ghost use Rattle.lsl_image.specs.Rest.{dead_rest, fault_numbered, rest, saved_rest};

use crate::calls::read_calls;
use crate::events::read_event;
use crate::faults::wrong;
use crate::fields::{Read, read_u8, read_u8_within};
use lsl_code::Woven;
use lsl_post::Rest;
use lsl_running::Fault;
use lsl_value::Values;
use std::alloc::Global;

/// How many ways to rest there are beside being idle.
const MOST_REST: u8 = 2;

/// Idle, saved calls, or a fault. The current event is an exit exactly where the script is leaving its state.
pub fn read_rest(
    alloc: Global,
    bytes: &[u8],
    place: usize,
    unit: &Woven,
    state: u16,
    exits: bool,
    globals: &Values,
    limit: u32,
) -> Read<Rest>
    ensures { Reads bytes.now (rest unit.now state exits globals.now limit) place result }
{
    let (kind, next) = read_u8_within(bytes, place, MOST_REST)?;
    if kind == 0 {
        return Ok((Rest::Idle, next));
    }
    if kind == 1 {
        return read_saved(alloc, bytes, next, unit, state, exits, globals, limit);
    }
    read_dead(bytes, next)
}

// The current event, and the saved calls of its handler.
fn read_saved(
    alloc: Global,
    bytes: &[u8],
    place: usize,
    unit: &Woven,
    state: u16,
    exits: bool,
    globals: &Values,
    limit: u32,
) -> Read<Rest>
    ensures { Reads bytes.now (saved_rest unit.now state exits globals.now limit) place result }
{
    let (event, middle) = read_event(alloc, bytes, place, unit, state, exits)?;
    let handler = unit.handler(state, event.id);
    let (sack, next) = read_calls(alloc, bytes, middle, unit, globals, limit, handler)?;
    Ok((Rest::Saved(event, sack), next))
}

// The fault that stopped the script.
fn read_dead(bytes: &[u8], place: usize) -> Read<Rest>
    ensures { Reads bytes.now dead_rest place result }
{
    let (number, next) = read_fault_number(bytes, place)?;
    Ok((Rest::Dead(fault_numbered(number)), next))
}

#[tactic(auto, unfolding(crate::specs::Layout::field, crate::specs::Layout::field_that))]
fn read_fault_number(bytes: &[u8], place: usize) -> Read<u8>
    ensures { Reads bytes.now (field_that U8 (λ f. nat_le 1 f && nat_le f 3)) place result }
{
    let (number, next) = read_u8(bytes, place)?;
    if number < 1 || number > 3 {
        return Err(wrong(place));
    }
    Ok((number, next))
}

// The fault of this number, from 1.
#[tactic(auto, using(crate::proofs::Numbered::first, crate::proofs::Numbered::second, crate::proofs::Numbered::last))]
fn fault_numbered(number: u8) -> Fault
    ensures { result ≡ fault_numbered number }
{
    if number < 2 {
        return Fault::MathError;
    }
    if number < 3 {
        return Fault::StackHeap;
    }
    Fault::TooManyListens
}
