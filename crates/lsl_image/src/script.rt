//! The parts of a script.

ghost use Rattle.std.specs.Prelude.{nat_lt, length};
ghost use Rattle.lsl_image.specs.Layout.{U16, field_that};
ghost use Rattle.lsl_image.specs.Reading.{Reads};
ghost use Rattle.lsl_image.specs.Rest.{code_digest, script};

use crate::faults::{ImageFault, wrong};
use crate::fields::{Read, read_array, read_u16, read_u64};
use crate::listens::read_listens;
use crate::queue::read_queue;
use crate::rest::read_rest;
use crate::seal::are_same;
use crate::values::read_globals;
use crate::waiting::{read_leaving, read_limit, read_timer};
use lsl_code::Woven;
use lsl_post::ScriptParts;
use lsl_text::Refusal;
use std::alloc::Global;

/// The parts of a script of this unit, which has this number in the library.
pub fn read_script(
    alloc: Global,
    bytes: &[u8],
    place: usize,
    version: u16,
    number: u32,
    unit: &Woven,
) -> Read<ScriptParts>
    ensures { Reads bytes.now (script version number unit.now) place result }
{
    let (_digest, next) = read_code(bytes, place, unit)?;
    let (state, next) = read_state(bytes, next, unit)?;
    let (leaving, next) = read_leaving(bytes, next, unit, state)?;
    let (globals, next) = read_globals(alloc, bytes, next, unit)?;
    let (queue, next) = read_queue(alloc, bytes, next, unit, state)?;
    let (listens, next) = read_listens(alloc, bytes, next)?;
    let (timer, next) = read_timer(bytes, next)?;
    let (wake, next) = read_u64(bytes, next)?;
    let (limit, next) = read_limit(bytes, next, version)?;
    let exits = leaving.is_some();
    let (rest, next) = read_rest(alloc, bytes, next, unit, state, exits, &globals, limit)?;
    let parts = ScriptParts {
        unit: number,
        globals,
        limit,
        state,
        leaving,
        queue,
        listens,
        timer,
        wake,
        rest,
    };
    Ok((parts, next))
}

// The digest of the unit's text.
fn read_code(bytes: &[u8], place: usize, unit: &Woven) -> Read<[u8; 32]>
    ensures { Reads bytes.now (code_digest unit.now) place result }
{
    let (found, next) = read_array(bytes, place)?;
    let wanted = *unit.digest();
    if !are_same(&found, &wanted) {
        return Err(Refusal::Fault(ImageFault::WrongCode { found, wanted }));
    }
    Ok((found, next))
}

// The number of a state of the unit.
#[tactic(auto, unfolding(crate::specs::Layout::field, crate::specs::Layout::field_that))]
fn read_state(bytes: &[u8], place: usize, unit: &Woven) -> Read<u16>
    ensures { Reads bytes.now (field_that U16 (λ n. nat_lt n (length unit.now.states))) place result }
{
    let (state, next) = read_u16(bytes, place)?;
    if state >= unit.states() {
        return Err(wrong(place));
    }
    Ok((state, next))
}
