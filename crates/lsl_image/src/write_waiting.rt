//! What a script waits for other than events, appended to an image.

ghost use Rattle.std.specs.Prelude.{◌≡◌, ◌++◌, OnOk};
ghost use Rattle.std.specs.List.{flat_map, AllByRecursion};
ghost use Rattle.lsl_bytes.specs.Fields.{u8_bytes};
ghost use Rattle.lsl_image.specs.Bytes.{flag_of, leaving_bytes, listen_bytes, listens_bytes, timer_bytes};
ghost use Rattle.lsl_image.specs.Fits.{FitsLeaving, FitsListen, FitsStanding, FitsTimer};

use lsl_bytes::{push_i32, push_text, push_u8, push_u16, push_u32, push_u64};
use lsl_post::{Listen, Listens, Timer};
use lsl_text::NoMemory;

/// Appends the next number, the count of listens, and the listens.
#[tactic(auto, unfolding(crate::specs::Bytes::listens_bytes))]
pub fn write_listens(out: &mut Vec<u8>, listens: &Listens) -> Result<(), NoMemory>
    ensures ok { OnOk result (out.new.items ≡ out.old.items ++ listens_bytes listens.now) }
    ensures fits { OnOk result (FitsStanding listens.now) }
{
    push_i32(out, listens.next())?;
    push_u8(out, listens.count() as u8)?;
    write_list(out, listens)
}

fn write_list(out: &mut Vec<u8>, listens: &Listens) -> Result<(), NoMemory>
    ensures ok { OnOk result (out.new.items ≡ out.old.items ++ flat_map listen_bytes listens.now.list) }
    ensures fits { OnOk result (AllByRecursion FitsListen listens.now.list) }
{
    for place in 0..listens.count() {
        write_listen(out, listens.listen(place))?;
    }
    Ok(())
}

#[tactic(auto, unfolding(crate::specs::Bytes::listen_bytes))]
fn write_listen(out: &mut Vec<u8>, listen: &Listen) -> Result<(), NoMemory>
    ensures ok { OnOk result (out.new.items ≡ out.old.items ++ listen_bytes listen.now) }
    ensures fits { OnOk result (FitsListen listen.now) }
{
    push_i32(out, listen.number)?;
    write_flag(out, listen.active)?;
    push_i32(out, listen.channel)?;
    push_text(out, &listen.name)?;
    push_text(out, &listen.id)?;
    push_text(out, &listen.message)
}

fn write_flag(out: &mut Vec<u8>, told: bool) -> Result<(), NoMemory>
    ensures { OnOk result (out.new.items ≡ out.old.items ++ u8_bytes (flag_of told)) }
{
    if told {
        return push_u8(out, 1);
    }
    push_u8(out, 0)
}

/// Appends a timer.
#[tactic(auto, unfolding(crate::specs::Bytes::timer_bytes))]
pub fn write_timer(out: &mut Vec<u8>, timer: &Timer) -> Result<(), NoMemory>
    ensures ok { OnOk result (out.new.items ≡ out.old.items ++ timer_bytes timer.now) }
    ensures fits { OnOk result (FitsTimer timer.now) }
{
    push_u32(out, timer.period)?;
    push_u64(out, timer.due)
}

/// Appends a flag, and the state that a script is leaving for, if any.
pub fn write_leaving(out: &mut Vec<u8>, leaving: Option<u16>) -> Result<(), NoMemory>
    ensures ok { OnOk result (out.new.items ≡ out.old.items ++ leaving_bytes leaving) }
    ensures fits { OnOk result (FitsLeaving leaving) }
{
    match leaving {
        None => push_u8(out, 0),
        Some(to) => {
            push_u8(out, 1)?;
            push_u16(out, to)
        }
    }
}
