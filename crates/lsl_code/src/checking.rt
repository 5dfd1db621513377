//! Frames that come from outside, tested before they are taken for a handler's saved calls.

ghost use Rattle.std.specs.Prelude.{◌≡◌, ◌+◌, ◌<◌, ◌↔◌, List, length, map, IfOk, IfErr, IsTrue, MatchOption, None};
ghost use Rattle.lsl_running.specs.Charging.{charges_of};
ghost use Rattle.lsl_code.specs.Frames.{AreValid, FirstUnfit, FitFrames, FitsFrame, IsAtPoint, frame_charge, parked_charge, points_of};
ghost use Rattle.lsl_code.specs.FrameFaults.{IsFrameFault};
ghost use Rattle.lsl_code.specs.Kinds.{kinds_of};
ghost use Rattle.lsl_code.specs.Laid.{frame_laid};
ghost use Rattle.lsl_code.specs.declared.frames.Frame.{Frame as SavedCall};
ghost use Rattle.lsl_code.specs.WovenBodies.{woven_body};

use crate::sacks::{Laid, Sack};
use crate::woven_units::Woven;
use lsl_running::{CALL_CHARGE, SCRIPT_CHARGE};
use lsl_value::{Kind, Value, Values, charge};

/// What is wrong with frames.
#[derive(Clone, Copy, Debug, PartialEq, Eq)]
pub enum FrameFault {
    /// the frame of this number, from 0, is the first that isn't one of the unit's; or there is no frame, and the
    /// number is 0
    Frame(u32),
    /// a charge above the limit
    Charge,
}

impl Sack {
    /// The saved calls of a handler of this unit that was cut, beside these globals, or what is wrong with them. Takes
    /// no memory; walks the values of all calls.
    pub fn check(
        self,
        globals: &Values,
        limit: u32,
        unit: &Woven,
        handler: u16,
    ) -> Result<Sack, FrameFault>
        requires { length self < 4294967296 }
        ensures same { IfOk result (λ sack. sack ≡ self) }
        ensures valid { IfOk result (λ sack.
            AreValid (points_of (map woven_body unit.now.functions)) handler globals.now limit sack) }
        ensures first { IfErr result (λ fault.
            IsFrameFault (points_of (map woven_body unit.now.functions)) handler globals.now limit self fault) }
    {
        if self.is_empty() {
            return Err(FrameFault::Frame(0));
        }
        if let Some(n) = first_unfit(unit, handler, &self) {
            return Err(FrameFault::Frame(n));
        }
        if spent(limit, globals, &self).is_none() {
            return Err(FrameFault::Charge);
        }
        Ok(self)
    }
}

// The first frame that does not fit, if there is one.
fn first_unfit(unit: &Woven, handler: u16, sack: &Sack) -> Option<u32>
    requires { length sack.now < 4294967296 }
    ensures { MatchOption result (FitFrames (points_of (map woven_body unit.now.functions)) handler None sack.now)
        (λ n. FirstUnfit (points_of (map woven_body unit.now.functions)) handler None sack.now n) }
{
    let mut callee = None;
    let count = sack.len();
    for i in 0..count {
        let call = sack.call(i);
        if !fits(unit, handler, callee, &call, count - 1 - i) {
            return Some(i as u32);
        }
        callee = Some(call.function);
    }
    None
}

// Whether the frame that calls this function, or none, fits before the outer ones.
fn fits(unit: &Woven, handler: u16, callee: Option<u16>, call: &Laid<'_>, outer: usize) -> bool
    ensures { (rest : List SavedCall) → length rest ≡ outer → IsTrue result ↔
        FitsFrame (points_of (map woven_body unit.now.functions)) handler callee (frame_laid call.now) rest }
{
    is_at_point(unit, callee, call) && (outer != 0 || call.function == handler)
}

// Whether the frame is at a point of its function that calls this one, or none, with values of the point's kinds.
fn is_at_point(unit: &Woven, callee: Option<u16>, call: &Laid<'_>) -> bool
    ensures { IsTrue result ↔
        IsAtPoint (points_of (map woven_body unit.now.functions)) callee (frame_laid call.now) }
{
    match unit.point(call.function, call.point) {
        Some(point) => point.calls == callee && have_kinds(call.values, point.kinds.as_slice()),
        None => false,
    }
}

// Whether the values have these kinds.
fn have_kinds(values: &[Value], kinds: &[Kind]) -> bool
    ensures { IsTrue result ↔ (kinds_of values.now ≡ kinds.now) }
{
    if values.len() != kinds.len() {
        return false;
    }
    for i in 0..values.len() {
        if values[i].kind() != kinds[i] {
            return false;
        }
    }
    true
}

// What is left of the limit beside the globals and the frames, where they are within it.
fn spent(limit: u32, globals: &Values, sack: &Sack) -> Option<u64>
    ensures { MatchOption result (limit < parked_charge globals.now sack.now)
        (λ left. left + parked_charge globals.now sack.now ≡ limit) }
{
    let left = u64::from(limit).checked_sub(SCRIPT_CHARGE)?;
    let mut left = without(left, globals.as_slice())?;
    for i in 0..sack.len() {
        left = without_call(left, &sack.call(i))?;
    }
    Some(left)
}

// What is left after this frame's charge, if it is enough.
fn without_call(left: u64, call: &Laid<'_>) -> Option<u64>
    ensures { MatchOption result (left < frame_charge (frame_laid call.now))
        (λ rest. rest + frame_charge (frame_laid call.now) ≡ left) }
{
    let held = left.checked_sub(CALL_CHARGE)?;
    without(held, call.values)
}

// What is left after the charge of these values, if it is enough.
fn without(left: u64, values: &[Value]) -> Option<u64>
    ensures { MatchOption result (left < charges_of values.now) (λ rest. rest + charges_of values.now ≡ left) }
{
    let mut left = left;
    for value in values {
        left = left.checked_sub(charge(value))?;
    }
    Some(left)
}
