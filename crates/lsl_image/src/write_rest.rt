//! What a script rests in, appended to an image.

ghost use Rattle.std.specs.Prelude.{◌≡◌, ◌++◌, ◌<◌, length, OnOk};
ghost use Rattle.std.specs.List.{flat_map, AllByRecursion};
ghost use Rattle.lsl_code.specs.Laid.{frame_laid};
ghost use Rattle.lsl_image.specs.Bytes.{calls_bytes, fault_number, frame_bytes, rest_bytes};
ghost use Rattle.lsl_image.specs.Fits.{FitsFrame, FitsRest};
ghost use Rattle.lsl_image.specs.Valid.{HasFewCalls};

use crate::write_events::{write_event, write_values};
use lsl_bytes::{push_u8, push_u16, push_value};
use lsl_code::{Laid, Sack};
use lsl_post::Rest;
use lsl_running::Fault;
use lsl_text::NoMemory;

/// Appends the number of what a script rests in, and its content.
pub fn write_rest(out: &mut Vec<u8>, rest: &Rest) -> Result<(), NoMemory>
    requires { HasFewCalls rest.now }
    ensures ok { OnOk result (out.new.items ≡ out.old.items ++ rest_bytes rest.now) }
    ensures fits { OnOk result (FitsRest rest.now) }
{
    match rest {
        Rest::Idle => push_u8(out, 0),
        Rest::Saved(event, sack) => {
            push_u8(out, 1)?;
            write_event(out, event)?;
            write_calls(out, sack)
        }
        Rest::Dead(fault) => {
            push_u8(out, 2)?;
            push_u8(out, fault_number(*fault))
        }
    }
}

// The number of the fault, from 1.
fn fault_number(fault: Fault) -> u8
    ensures { result ≡ fault_number fault }
{
    match fault {
        Fault::MathError => 1,
        Fault::StackHeap => 2,
        Fault::TooManyListens => 3,
    }
}

// Appends the count of saved calls, and the calls.
#[tactic(auto, unfolding(crate::specs::Bytes::calls_bytes))]
fn write_calls(out: &mut Vec<u8>, sack: &Sack) -> Result<(), NoMemory>
    requires { length sack.now < 65536 }
    ensures ok { OnOk result (out.new.items ≡ out.old.items ++ calls_bytes sack.now) }
    ensures fits { OnOk result (AllByRecursion FitsFrame sack.now) }
{
    push_u16(out, sack.len() as u16)?;
    write_each_call(out, sack)
}

fn write_each_call(out: &mut Vec<u8>, sack: &Sack) -> Result<(), NoMemory>
    ensures ok { OnOk result (out.new.items ≡ out.old.items ++ flat_map frame_bytes sack.now) }
    ensures fits { OnOk result (AllByRecursion FitsFrame sack.now) }
{
    for i in 0..sack.len() {
        write_call(out, &sack.call(i))?;
    }
    Ok(())
}

#[tactic(auto, unfolding(crate::specs::Bytes::frame_bytes))]
fn write_call(out: &mut Vec<u8>, call: &Laid<'_>) -> Result<(), NoMemory>
    ensures ok { OnOk result (out.new.items ≡ out.old.items ++ frame_bytes (frame_laid call.now)) }
    ensures fits { OnOk result (FitsFrame (frame_laid call.now)) }
{
    push_u16(out, call.function)?;
    push_u16(out, call.point)?;
    write_values(out, call.values)
}
