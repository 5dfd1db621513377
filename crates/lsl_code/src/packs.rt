//! Saved calls that are made or taken apart, one at a time, with the values of all in one vector.

ghost use Rattle.std.specs.Prelude.{◌≡◌, ◌↔◌, ◌<◌, ◌≤◌, ◌++◌, [], ◌∷◌, take, reverse, length, vec_capacity, option_to_list, IfOk, IsSome, OnErr, OnOk, MatchOption};
ghost use Rattle.lsl_code.specs.declared.frames.Frame.{Frame as SavedCall};
ghost use Rattle.lsl_code.specs.Packs.{end_in, packed};
ghost use Rattle.lsl_code.specs.Saving.{frame_of};

use crate::frames::{Frame, Mark};
use lsl_text::NoMemory;
use lsl_value::Value;
use std::alloc::Global;
use std::marker::Model;

/// Saved calls, the innermost first, and after them the values of the current one.
#[derive(Drop)]
pub struct Pack {
    /// where the values of each call end
    pub(crate) marks: Vec<Mark>,
    /// those of each call from the last, and then the current ones
    pub(crate) values: Vec<Value>,
    /// where the current ones begin
    pub(crate) start: usize,
}

impl Model for Pack {
    ghost use Rattle.std.specs.Prelude.{◌≤◌, drop, length, reverse};
    ghost use Rattle.lsl_code.specs.Packs.{EndAt, Packed, frames_in};

    ghost Value = { Packed };

    ghost view = { λ p. record {
      frames = frames_in 0 p.marks.items p.values.items;
      hand = reverse (drop p.start p.values.items);
    } };

    ghost invariant = { λ p. EndAt 0 p.marks.items p.start × (p.start ≤ length p.values.items) };
}

impl Pack {
    /// No call, and no current value. Takes memory for `calls` calls, and for `values` values of all together.
    pub fn with_room(alloc: Global, calls: usize, values: usize) -> Result<Pack, NoMemory>
        ensures { IfOk result (λ pack. pack ≡ packed [] []) }
    {
        Ok(Pack {
            marks: Vec::with_capacity(alloc, calls)?,
            values: Vec::with_capacity(alloc, values)?,
            start: 0,
        })
    }

    /// Puts the value before the current ones.
    #[inline(always)]
    pub fn keep(&mut self, value: Value) -> Result<(), NoMemory>
        ensures kept { OnOk result (self.new ≡ packed self.old.frames (value ∷ self.old.hand)) }
        ensures unchanged { OnErr result (self.new ≡ self.old) }
    {
        put(&mut self.values, value)
    }

    /// Takes the first current value, if there is one. Takes no memory.
    #[inline(always)]
    pub fn take(&mut self) -> Option<Value>
        ensures frames { self.new.frames ≡ self.old.frames }
        ensures hand { self.old.hand ≡ option_to_list result ++ self.new.hand }
        ensures some { IsSome result ↔ (0 < length self.old.hand) }
    {
        if self.values.len() <= self.start {
            return None;
        }
        self.values.pop()
    }

    /// Closes the current call: it follows the others, with this function and this point.
    #[inline(always)]
    pub fn seal(&mut self, function: u16, point: u16) -> Result<(), NoMemory>
        ensures sealed { OnOk result
            (self.new ≡ packed (self.old.frames ++ frame_of function point self.old.hand ∷ []) []) }
        ensures unchanged { OnErr result (self.new ≡ self.old) }
    {
        let end = self.values.len();
        let mark = Mark {
            function,
            point,
            end,
        };
        put(&mut self.marks, mark)?;
        self.start = end;
        Ok(())
    }

    /// Makes the last call the current one, if there is one, and returns its point. Takes no memory.
    #[inline(always)]
    pub fn unpack(&mut self) -> Option<u16>
        ensures { MatchOption result (self.old.frames ≡ []) (λ point. (frame : SavedCall) ×
            (self.old.frames ≡ self.new.frames ++ frame ∷ []) × (point ≡ frame.point) ×
            (self.new.hand ≡ frame.slots)) }
    {
        let mark = self.marks.pop()?;
        cut(&mut self.values, self.start);
        self.start = end_of(self.marks.as_slice());
        Some(mark.point)
    }

    /// Drops the current values. Takes no memory.
    #[inline(always)]
    pub(crate) fn clear(&mut self)
        ensures { self.new ≡ packed self.old.frames [] }
    {
        cut(&mut self.values, self.start);
    }

    /// Adds a call after the others, and drops the current values. Its values move, and their memory is freed.
    #[inline(always)]
    pub fn push(&mut self, frame: Frame) -> Result<Vec<Value>, NoMemory>
        ensures pushed { OnOk result (self.new ≡ packed (self.old.frames ++ frame ∷ []) []) }
        ensures room { IfOk result (λ room. room.items ≡ []) }
    {
        self.clear();
        let mut slots = frame.slots.into_vec();
        pour(&mut slots, &mut self.values)?;
        self.seal(frame.function, frame.point)?;
        Ok(slots)
    }
}

/// Where the values of the last of these calls end.
pub(crate) fn end_of(marks: &[Mark]) -> usize
    ensures { result ≡ end_in 0 marks.now }
{
    match marks.last() {
        Some(mark) => mark.end,
        None => 0,
    }
}

// Keeps only the first values.
#[inline(always)]
fn cut(values: &mut Vec<Value>, to: usize)
    ensures { values.new.items ≡ take to values.old.items }
{
    if values.len() > to {
        values.truncate(to);
    }
}

// Moves all values after others, the last first.
#[inline(always)]
fn pour(from: &mut Vec<Value>, to: &mut Vec<Value>) -> Result<(), NoMemory>
    ensures moved { OnOk result (to.new.items ≡ to.old.items ++ reverse from.old.items) }
    ensures emptied { OnOk result (from.new.items ≡ []) }
    ensures longer { length to.old.items ≤ length to.new.items }
{
    while let Some(value) = from.pop() {
        put(to, value)?;
    }
    Ok(())
}

// Adds an element at the end.
#[inline(always)]
fn put<T: Drop>(list: &mut Vec<T>, element: T) -> Result<(), NoMemory>
    ensures ok { OnOk result (list.new.items ≡ list.old.items ++ element ∷ []) }
    ensures unchanged { OnErr result (list.new.items ≡ list.old.items) }
{
    make_room(list)?;
    list.push_reserved(element);
    Ok(())
}

// Reserves for one more.
#[inline(always)]
fn make_room<T>(list: &mut Vec<T>) -> Result<(), NoMemory>
    ensures items { list.new.items ≡ list.old.items }
    ensures room { OnOk result (length list.new.items < vec_capacity list.new) }
{
    if list.len() < list.capacity() {
        return Ok(());
    }
    list.reserve(1)
}
