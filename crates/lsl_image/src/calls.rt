//! The saved calls of a handler.

ghost use Rattle.std.specs.Prelude.{nat_le};
ghost use Rattle.lsl_image.specs.Layout.{U16, field_that};
ghost use Rattle.lsl_image.specs.Reading.{Reads};
ghost use Rattle.lsl_image.specs.Rest.{saved_calls};

use crate::charges::is_within;
use crate::faults::wrong;
use crate::fields::{Read, read_u16};
use crate::frames::read_frames;
use lsl_code::{Sack, Woven};
use lsl_running::{SCRIPT_CHARGE, charged_with_values};
use lsl_value::Values;
use std::alloc::Global;

/// How many saved calls there are at least.
const LEAST_CALLS: u16 = 1;

/// The saved calls of a handler of the unit, the innermost first, with a charge within the limit beside these globals.
pub fn read_calls(
    alloc: Global,
    bytes: &[u8],
    place: usize,
    unit: &Woven,
    globals: &Values,
    limit: u32,
    handler: Option<u16>,
) -> Read<Sack>
    ensures { Reads bytes.now (saved_calls unit.now globals.now limit handler) place result }
{
    let (count, middle) = read_count(bytes, place)?;
    let mut charged = charged_with_values(SCRIPT_CHARGE, globals.as_slice());
    let (sack, next) = read_frames(alloc, bytes, middle, unit, handler, count, &mut charged)?;
    if !is_within(limit, charged) {
        return Err(wrong(place));
    }
    Ok((sack, next))
}

#[tactic(auto, unfolding(crate::specs::Layout::field, crate::specs::Layout::field_that))]
fn read_count(bytes: &[u8], place: usize) -> Read<u16>
    ensures { Reads bytes.now (field_that U16 (λ n. nat_le 1 n)) place result }
{
    let (count, next) = read_u16(bytes, place)?;
    if count < LEAST_CALLS {
        return Err(wrong(place));
    }
    Ok((count, next))
}
