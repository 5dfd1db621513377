//! What a script waits for other than events, and the limit of its charge.

ghost use Rattle.std.specs.Prelude.{◌≡◌, ◌≤◌};
ghost use Rattle.lsl_value.specs.declared.names.EventId.TheVariants.{StateExit};
ghost use Rattle.lsl_post.specs.Timing.{fits_timer};
ghost use Rattle.lsl_image.specs.Reading.{Reads};
ghost use Rattle.lsl_image.specs.Script.{handles, leaving, limit, other_state, timer};

use crate::faults::wrong;
use crate::fields::{Read, read_flag, read_u16, read_u32, read_u32_within, read_u64};
use lsl_code::Woven;
use lsl_post::Timer;
use lsl_value::EventId;

/// The greatest period of a timer, in seconds.
const MOST_PERIOD: u32 = 2_147_483_647;

/// The limits that a script may have.
const LEAST_LIMIT: u32 = 1064;

const MOST_LIMIT: u32 = 65_536;

/// A timer: one that doesn't run is never due.
pub fn read_timer(bytes: &[u8], place: usize) -> Read<Timer>
    ensures { Reads bytes.now timer place result }
{
    let (period, middle) = read_u32_within(bytes, place, MOST_PERIOD)?;
    let (due, next) = read_u64(bytes, middle)?;
    if !fits_timer(period, due) {
        return Err(wrong(middle));
    }
    let timer = Timer { period, due };
    Ok((timer, next))
}

// Whether a timer of this period may be due then.
fn fits_timer(period: u32, due: u64) -> bool
    requires { period ≤ 2147483647 }
    ensures { result ≡ fits_timer period due }
{
    period > 0 || due == 0
}

/// The limit of a script's charge. Version 1 has none, which means the greatest.
#[tactic(auto, unfolding(crate::specs::Layout::field, crate::specs::Layout::field_that, crate::specs::Script::limit))]
pub fn read_limit(bytes: &[u8], place: usize, version: u16) -> Read<u32>
    ensures { Reads bytes.now (limit version) place result }
{
    if version == 1 {
        return Ok((MOST_LIMIT, place));
    }
    let (most, next) = read_u32(bytes, place)?;
    if most < LEAST_LIMIT || most > MOST_LIMIT {
        return Err(wrong(place));
    }
    Ok((most, next))
}

/// The state that the script is leaving for, if any: another one, if the state has an exit.
pub fn read_leaving(bytes: &[u8], place: usize, unit: &Woven, state: u16) -> Read<Option<u16>>
    ensures { Reads bytes.now (leaving unit.now state) place result }
{
    let (flag, next) = read_flag(bytes, place)?;
    if flag == 0 {
        return Ok((None, next));
    }
    if !has_exit(unit, state) {
        return Err(wrong(place));
    }
    let (to, next) = read_other_state(bytes, next, unit, state)?;
    Ok((Some(to), next))
}

// Whether the state handles its exit.
fn has_exit(unit: &Woven, state: u16) -> bool
    ensures { result ≡ handles unit.now state StateExit }
{
    unit.handler(state, EventId::StateExit).is_some()
}

// The number of another state.
#[tactic(auto, unfolding(crate::specs::Layout::field, crate::specs::Layout::field_that))]
fn read_other_state(bytes: &[u8], place: usize, unit: &Woven, state: u16) -> Read<u16>
    ensures { Reads bytes.now (other_state unit.now state) place result }
{
    let (to, next) = read_u16(bytes, place)?;
    if to >= unit.states() || to == state {
        return Err(wrong(place));
    }
    Ok((to, next))
}
