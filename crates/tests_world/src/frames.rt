//! Frames and their values as words.

use lsl_code::{Frame, Laid, Pack, Sack};
use lsl_text::NoMemory;
use lsl_value::{Text, Value, Values};
use std::alloc::Global;
use std::test::Fail;

/// The number that a word means, or 0.
pub(crate) fn number(word: &str) -> u16 {
    word.parse::<u16>().unwrap_or(0)
}

/// A value: the empty text, or an integer.
fn value(word: &str) -> Value {
    match word {
        "text" => Value::Str(Text::new()),
        _ => Value::Int(word.parse::<i32>().unwrap_or(0)),
    }
}

/// A frame: its function, its point and its values.
fn frame(alloc: Global, words: &str) -> Result<Frame, NoMemory> {
    let (function, rest) = words.split_once(' ').unwrap_or((words, ""));
    let (point, rest) = rest.split_once(' ').unwrap_or((rest, ""));
    let mut slots = Values::new(alloc);
    for word in rest.split_whitespace() {
        slots.push(value(word))?;
    }
    Ok(Frame {
        function: number(function),
        point: number(point),
        slots,
    })
}

/// Frames, with commas between; none if there is no word.
pub(crate) fn sack(alloc: Global, words: &str) -> Result<Sack, NoMemory> {
    let mut pack = Pack::with_room(alloc, 0, 0)?;
    if words.is_empty() {
        return Ok(Sack::from_pack(pack));
    }
    for words in words.split(", ") {
        let _room = pack.push(frame(alloc, words)?)?;
    }
    Ok(Sack::from_pack(pack))
}

fn tell_value(told: &mut String, value: &Value) -> Result<(), NoMemory> {
    match value {
        Value::Int(number) => write!(told, " {number}"),
        _ => told.push_str(" text"),
    }
}

/// The values of a frame.
fn tell_values(told: &mut String, call: &Laid<'_>) -> Result<(), NoMemory> {
    for value in call.values {
        tell_value(told, value)?;
    }
    Ok(())
}

/// The values of each frame, a stroke before them.
pub(crate) fn tell_slots(told: &mut String, sack: &Sack) -> Result<(), NoMemory> {
    for i in 0..sack.len() {
        told.push_str(" |")?;
        tell_values(told, &sack.call(i))?;
    }
    Ok(())
}

/// Each frame's function and point, and its values.
fn tell(told: &mut String, sack: &Sack) -> Result<(), NoMemory> {
    for i in 0..sack.len() {
        let call = sack.call(i);
        write!(told, "{} {}:", call.function, call.point)?;
        tell_values(told, &call)?;
        told.push_str("; ")?;
    }
    Ok(())
}

/// The frames of a sack, of its copy, and how many the copy holds.
fn copied(alloc: Global, words: &str) -> Result<String, NoMemory> {
    let sack = sack(alloc, words)?;
    let copy = sack.copy(alloc)?;
    let mut told = String::new(alloc);
    tell(&mut told, &sack)?;
    tell(&mut told, &copy)?;
    write!(told, "{}", copy.len())?;
    Ok(told)
}

#[test]
fn sacks_are_copied(rt: HostRuntime) -> Result<(), Fail> {
    let told = copied(rt.alloc(), "0 0 4 2 text, 1 3 1 10")?;
    let want = "0 0: 4 2 text; 1 3: 1 10; 0 0: 4 2 text; 1 3: 1 10; 2";
    assert!(rt; told.as_str() == want, "{told}");
    Ok(())
}
