//! The saved calls of a handler that was cut at a tick.

ghost use Rattle.std.specs.Prelude.{◌≡◌, ◌<◌, ◌==◌, [], Some, length, reverse, slice_get, IfOk};
ghost use Rattle.lsl_code.specs.Packs.{EndAt, packed};
ghost use Rattle.lsl_code.specs.Sacks.{EndsWithin, seen_from_end, stack_frames, values_of};
ghost use Rattle.lsl_code.specs.Saving.{frame_of};

use crate::frames::Mark;
use crate::packs::{Pack, end_of};
use lsl_text::NoMemory;
use lsl_value::{Value, copy};
use std::alloc::Global;
use std::marker::Model;

/// The saved calls of a handler that was cut at a tick, as they lie on a stack.
#[derive(Drop)]
pub struct Sack {
    /// the innermost call, unless there is none
    top: Option<Top>,
    /// the calls around it, the outermost first, with the place after the values of each
    outer: Vec<Mark>,
    /// the values of all calls, the outermost call's first, each call's from the first on
    values: Vec<Value>,
}

/// The innermost call: its function and its point.
#[derive(Clone, Copy)]
pub(crate) struct Top {
    pub(crate) function: u16,
    pub(crate) point: u16,
}

impl Model for Sack {
    ghost use Rattle.std.specs.Prelude.{List};
    ghost use Rattle.lsl_code.specs.declared.frames.Frame.{Frame as SavedCall};
    ghost use Rattle.lsl_code.specs.Sacks.{IsSack, sack_frames};

    ghost Value = { List SavedCall };

    ghost view = { λ s. sack_frames s.top s.outer.items s.values.items };

    ghost invariant = { λ s. IsSack s.top s.outer.items s.values.items };
}

/// A saved call as it lies in a sack.
#[derive(Clone, Copy)]
pub struct Laid<'s> {
    pub function: u16,
    pub point: u16,
    pub values: &'s [Value],
}

impl Sack {
    /// The calls of a stack: the function and the point of the innermost one, the calls around it, the outermost first,
    /// and the values of all. Takes no memory.
    pub fn from_stack(function: u16, point: u16, outer: Vec<Mark>, values: Vec<Value>) -> Sack
        requires { EndsWithin 0 outer.items (length values.items) }
        ensures { result ≡ stack_frames function point outer.items values.items }
    {
        Sack {
            top: Some(Top { function, point }),
            outer,
            values,
        }
    }

    /// The values of all calls, those of the outermost first. Takes no memory.
    pub fn into_stack(self) -> Vec<Value>
        ensures { result.items ≡ values_of self }
    {
        self.values
    }

    /// The calls of this pack, without the current values. Takes no memory.
    pub fn from_pack(mut pack: Pack) -> Sack
        ensures { result ≡ pack.frames }
    {
        pack.clear();
        let Pack {
            mut marks,
            mut values,
            ..
        } = pack;
        turn(&mut marks, values.len());
        values.reverse();
        match marks.pop() {
            Some(mark) => Sack::from_stack(mark.function, mark.point, marks, values),
            None => Sack {
                top: None,
                outer: marks,
                values,
            },
        }
    }

    /// The calls, to be taken apart.
    pub fn into_pack(self) -> Result<Pack, NoMemory>
        ensures { IfOk result (λ pack. pack ≡ packed self []) }
    {
        let Sack {
            top,
            outer: mut marks,
            mut values,
        } = self;
        let end = values.len();
        let Some(top) = top else {
            return Ok(Pack {
                marks,
                values,
                start: end,
            });
        };
        marks.push(Mark {
            function: top.function,
            point: top.point,
            end,
        })?;
        turn(&mut marks, end);
        values.reverse();
        Ok(Pack {
            marks,
            values,
            start: end,
        })
    }

    /// How many calls there are.
    pub fn len(&self) -> usize
        ensures { result ≡ length self.now }
    {
        match self.top {
            Some(_top) => self.outer.len() + 1,
            None => 0,
        }
    }

    /// Whether there is no call.
    pub fn is_empty(&self) -> bool
        ensures { result ≡ (length self.now == 0) }
    {
        self.top.is_none()
    }

    /// The call of this number, from 0, which is the innermost. Takes no memory.
    pub fn call(&self, number: usize) -> Laid<'_>
        requires { number < length self.now }
        ensures { slice_get self.now number ≡ Some (frame_of result.function result.point result.values.now) }
    {
        let Some(top) = self.top else {
            unreachable!();
        };
        let place = self.outer.len() - number;
        let start = end_of(&self.outer[..place]);
        if number == 0 {
            return Laid {
                function: top.function,
                point: top.point,
                values: &self.values[start..],
            };
        }
        let mark = self.outer[place];
        Laid {
            function: mark.function,
            point: mark.point,
            values: &self.values[start..mark.end],
        }
    }

    /// An equal sack. Walks the values of all calls.
    pub fn copy(&self, alloc: Global) -> Result<Sack, NoMemory>
        ensures { IfOk result (λ sack. sack ≡ self.now) }
    {
        let top = self.top;
        let outer = self.outer.as_slice().to_vec(alloc)?;
        let values = copies(alloc, self.values.as_slice())?;
        Ok(Sack { top, outer, values })
    }
}

// The calls from the last to the first, of values that lie in that order.
fn turn(marks: &mut Vec<Mark>, total: usize)
    requires { EndAt 0 marks.old.items total }
    ensures { marks.new.items ≡ reverse (seen_from_end total 0 marks.old.items) }
{
    let mut from = 0;
    for i in 0..marks.len() {
        let mark = marks[i];
        marks[i] = Mark {
            end: total - from,
            ..mark
        };
        from = mark.end;
    }
    marks.reverse();
}

// Equal values.
fn copies(alloc: Global, values: &[Value]) -> Result<Vec<Value>, NoMemory>
    ensures { IfOk result (λ copies. copies.items ≡ values.now) }
{
    let mut copies = Vec::with_capacity(alloc, values.len())?;
    for value in values {
        copies.push(copy(value)?)?;
    }
    Ok(copies)
}
