//! The toucher of a prim, as an event has it.

ghost use Rattle.lsl_image.specs.Reading.{Reads};
ghost use Rattle.lsl_image.specs.Script.{flagged_toucher, told_toucher, toucher};

use crate::fields::{Read, read_flag, read_i32, read_text};
use lsl_post::Toucher;
use std::alloc::Global;

/// The toucher of an event, if it has one.
pub fn read_toucher(alloc: Global, bytes: &[u8], place: usize) -> Read<Option<Toucher>>
    ensures { Reads bytes.now toucher place result }
{
    let (flag, next) = read_flag(bytes, place)?;
    flagged(alloc, bytes, next, flag)
}

fn flagged(alloc: Global, bytes: &[u8], place: usize, flag: u8) -> Read<Option<Toucher>>
    ensures { Reads bytes.now (flagged_toucher flag) place result }
{
    match flag {
        0 => Ok((None, place)),
        _ => told(alloc, bytes, place),
    }
}

fn told(alloc: Global, bytes: &[u8], place: usize) -> Read<Option<Toucher>>
    ensures { Reads bytes.now told_toucher place result }
{
    let (key, next) = read_text(alloc, bytes, place)?;
    let (name, next) = read_text(alloc, bytes, next)?;
    let (link, next) = read_i32(bytes, next)?;
    Ok((Some(Toucher { key, name, link }), next))
}
