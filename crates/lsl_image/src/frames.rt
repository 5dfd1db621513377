//! Saved calls.

ghost use Rattle.std.specs.Prelude.{◌≡◌, ◌&&◌, [], nat_lt, length, sum_by, IfOk};
ghost use Rattle.lsl_code.specs.Frames.{frame_charge};
ghost use Rattle.lsl_running.specs.Charging.{charged_with};
ghost use Rattle.lsl_image.specs.Layout.{U16, field_that, grown};
ghost use Rattle.lsl_image.specs.Reading.{Reads};
ghost use Rattle.lsl_image.specs.Rest.{ends_in, frame_behind, frame_in, same_callee};

use crate::faults::wrong;
use crate::fields::{Read, read_u16};
use crate::values::read_charged_values;
use lsl_code::{Frame, Pack, Sack, Woven};
use lsl_running::CALL_CHARGE;
use lsl_value::Value;
use std::alloc::Global;

// How many bytes a saved call has at least.
const LEAST_FRAME_BYTES: usize = 4;

/// Saved calls, `count` of them, the innermost first, and the charge with them.
///
/// Each is at a call of the function of the one before it, the innermost at a tick, and the last is of the handler's
/// function.
pub fn read_frames(
    alloc: Global,
    bytes: &[u8],
    place: usize,
    unit: &Woven,
    handler: Option<u16>,
    count: u16,
    charged: &mut u64,
) -> Read<Sack>
    ensures reads { Reads bytes.now (grown count (frame_behind unit.now handler count) []) place result }
    ensures charged { IfOk result (λ read. charged.new ≡ charged_with charged.old (sum_by frame_charge read.0)) }
{
    let most = usize::from(count).min(bytes.len().saturating_sub(place) / LEAST_FRAME_BYTES);
    let mut pack = Pack::with_room(alloc, most, most)?;
    let mut room = Vec::new(alloc);
    let mut callee = None;
    let mut sum = 0;
    let mut next = place;
    for i in 0..count {
        let more = i + 1 < count;
        let (frame, behind) = read_frame(
            alloc, bytes, next, unit, handler, more, callee, room, &mut sum,
        )?;
        callee = Some(frame.function);
        let emptied = pack.push(frame)?;
        room = emptied;
        next = behind;
    }
    *charged = charged.saturating_add(sum);
    Ok((Sack::from_pack(pack), next))
}

// A saved call, which is at a call of this function, or at a tick, with its values in this buffer, and the charge with
// it.
#[inline(always)]
fn read_frame(
    alloc: Global,
    bytes: &[u8],
    place: usize,
    unit: &Woven,
    handler: Option<u16>,
    more: bool,
    callee: Option<u16>,
    room: Vec<Value>,
    charged: &mut u64,
) -> Read<Frame>
    requires { room.items ≡ [] }
    ensures reads { Reads bytes.now (frame_in unit.now handler more callee) place result }
    ensures charged { IfOk result (λ read. charged.new ≡ charged_with charged.old (frame_charge read.0)) }
{
    let (function, middle) = read_function(bytes, place, unit, handler, more)?;
    let (number, behind) = read_u16(bytes, middle)?;
    let Some(point) = unit.point(function, number) else {
        return Err(wrong(middle));
    };
    if !same_callee(point.calls, callee) {
        return Err(wrong(middle));
    }
    *charged = charged.saturating_add(CALL_CHARGE);
    let (slots, next) = read_charged_values(
        alloc,
        bytes,
        behind,
        point.kinds.as_slice(),
        room,
        charged,
    )?;
    let frame = Frame {
        function,
        point: number,
        slots,
    };
    Ok((frame, next))
}

// The number of a function of the unit.
#[tactic(auto, unfolding(crate::specs::Layout::field, crate::specs::Layout::field_that))]
fn read_function(
    bytes: &[u8],
    place: usize,
    unit: &Woven,
    handler: Option<u16>,
    more: bool,
) -> Read<u16>
    ensures { Reads bytes.now
        (field_that U16 (λ f. nat_lt f (length unit.now.functions) && ends_in handler more f)) place result }
{
    let (function, next) = read_u16(bytes, place)?;
    if usize::from(function) >= unit.functions.as_slice().len() {
        return Err(wrong(place));
    }
    if !ends_in(handler, more, function) {
        return Err(wrong(place));
    }
    Ok((function, next))
}

// Whether more calls follow, or this is the handler's function.
fn ends_in(handler: Option<u16>, more: bool, function: u16) -> bool
    ensures { result ≡ ends_in handler more function }
{
    if more {
        return true;
    }
    match handler {
        Some(handler) => handler == function,
        None => false,
    }
}

// Whether both are the same function, or none.
fn same_callee(calls: Option<u16>, callee: Option<u16>) -> bool
    ensures { result ≡ same_callee calls callee }
{
    match (calls, callee) {
        (None, None) => true,
        (Some(calls), Some(callee)) => calls == callee,
        _ => false,
    }
}
