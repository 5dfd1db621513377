//! Scripts, appended to an image of version 2.

ghost use Rattle.std.specs.Prelude.{◌≡◌, ◌++◌, ◌<◌, length, OnOk};
ghost use Rattle.lsl_image.specs.Bytes.{script_bytes, waiting_bytes};
ghost use Rattle.lsl_image.specs.Fits.{FitsScript, FitsWaiting};
ghost use Rattle.lsl_image.specs.Valid.{HasFewCalls};

use crate::write_events::{write_queue, write_values};
use crate::write_rest::write_rest;
use crate::write_waiting::{write_leaving, write_listens, write_timer};
use lsl_bytes::{push_u16, push_u32, push_u64};
use lsl_code::Woven;
use lsl_post::ScriptParts;
use lsl_text::NoMemory;

/// Appends the parts of a script of this unit.
#[tactic(auto, unfolding(crate::specs::Bytes::script_bytes))]
pub fn write_script(out: &mut Vec<u8>, script: &ScriptParts, unit: &Woven) -> Result<(), NoMemory>
    requires { HasFewCalls script.now.rest }
    ensures ok { OnOk result (out.new.items ≡ out.old.items ++ script_bytes 2 unit.now.digest script.now) }
    ensures digest { length unit.now.digest ≡ 32 }
    ensures fits { OnOk result (FitsScript script.now) }
{
    write_digest(out, unit.digest())?;
    push_u16(out, script.state)?;
    write_leaving(out, script.leaving)?;
    write_values(out, script.globals.as_slice())?;
    write_waiting(out, script)
}

// Appends what the script waits for, and what it rests in.
#[tactic(auto, unfolding(crate::specs::Bytes::waiting_bytes))]
fn write_waiting(out: &mut Vec<u8>, script: &ScriptParts) -> Result<(), NoMemory>
    requires { HasFewCalls script.now.rest }
    ensures ok { OnOk result (out.new.items ≡ out.old.items ++ waiting_bytes 2 script.now) }
    ensures fits { OnOk result (FitsWaiting script.now) }
{
    write_queue(out, &script.queue)?;
    write_listens(out, &script.listens)?;
    write_timer(out, &script.timer)?;
    push_u64(out, script.wake)?;
    push_u32(out, script.limit)?;
    write_rest(out, &script.rest)
}

/// Appends a digest.
pub fn write_digest(out: &mut Vec<u8>, digest: &[u8; 32]) -> Result<(), NoMemory>
    ensures ok { OnOk result (out.new.items ≡ out.old.items ++ digest.now) }
    ensures whole { length digest.now ≡ 32 }
{
    out.extend_from_slice(digest.as_slice())
}
