//! A moment as lines.

ghost use Rattle.std.specs.Prelude.{◌≡◌};
ghost use Rattle.lsl_seek.specs.Calls.{mark_of};
ghost use Rattle.lsl_seek.specs.Moments.{moments, up_to};

use crate::bytes::cut;
use crate::entry::{Slot, Sort, parse_set};
use crate::tables::Name;
use crate::trace::{Moment, Trace};
use crate::watch::Variable;
use lsl_text::{NoMemory, push_decimal};
use std::alloc::Global;

impl<'a> Trace<'a> {
    /// The lines of a moment, or `nowhere`.
    pub fn show(&self, alloc: Global, number: Option<usize>) -> Result<Vec<u8>, NoMemory> {
        let mut out = Vec::new(alloc);
        match number {
            Some(number) if self.has(number) => self.push_moment(&mut out, number)?,
            _ => out.extend_from_slice(b"nowhere\n")?,
        }
        Ok(out)
    }

    fn push_moment(&self, out: &mut Vec<u8>, number: usize) -> Result<(), NoMemory> {
        let moment = self.moment(number);
        out.extend_from_slice(b"moment")?;
        push_number(out, number)?;
        out.extend_from_slice(b" of ")?;
        push_decimal(out, as_integer(self.len()))?;
        out.extend_from_slice(b"\nplace")?;
        push_number(out, moment.entry.step as usize)?;
        push_number(out, moment.entry.segment as usize)?;
        out.push(b'\n')?;
        let serial = self.active(number, &moment);
        self.push_at(out, number, &moment, serial)?;
        if moment.sort.is_said() {
            push_words(out, &[b"said ", moment.entry.said, b"\n"])?;
        }
        self.push_calls(out, number, serial)?;
        self.push_globals(out, number, moment.entry.script)
    }

    fn push_at(
        &self,
        out: &mut Vec<u8>,
        number: usize,
        moment: &Moment,
        serial: u32,
    ) -> Result<(), NoMemory> {
        let Some(mark) = self.mark(self.latest(number, serial)) else {
            return Ok(());
        };
        let Some(file) = self.file(mark.unit) else {
            return Ok(());
        };
        out.extend_from_slice(b"at")?;
        push_number(out, moment.entry.script as usize)?;
        push_words(out, &[b" ", file])?;
        push_number(out, mark.line as usize)?;
        push_words(out, &[b" ", moment.sort.word(), b"\n"])
    }

    // The mark of a call's latest entry, or 0.
    fn latest(&self, number: usize, serial: u32) -> u32
        ensures { result ≡ mark_of serial (up_to (moments self.now) number) }
    {
        match self.latest_of(number, serial) {
            Some(it) => it.entry.mark,
            None => 0,
        }
    }

    fn push_calls(&self, out: &mut Vec<u8>, number: usize, serial: u32) -> Result<(), NoMemory> {
        let mut serial = serial;
        'entries: for i in (0..self.up_to(number).len()).rev() {
            let it = self.moment(i + 1);
            if it.entry.is_of(serial) {
                self.push_call(out, self.up_to(i + 1), &it)?;
                serial = it.entry.outer;
            }
        }
        Ok(())
    }

    // A call and its variables, as its latest entry has them, which is the last of these.
    fn push_call(&self, out: &mut Vec<u8>, places: &[usize], it: &Moment) -> Result<(), NoMemory> {
        let Some(mark) = self.mark(it.entry.mark) else {
            return Ok(());
        };
        push_words(out, &[b"call ", mark.routine])?;
        push_number(out, mark.line as usize)?;
        out.push(b'\n')?;
        let mut names = self.names_at(it.entry.mark);
        'names: while let [name, more @ ..] = names {
            if !is_hidden(name, more) {
                let variable = Variable {
                    script: it.entry.script,
                    serial: it.entry.serial,
                    slot: name.slot,
                };
                push_variable(out, b"slot ", name, self.value(places, variable))?;
            }
            names = more;
        }
        Ok(())
    }

    fn push_globals(&self, out: &mut Vec<u8>, number: usize, script: u32) -> Result<(), NoMemory> {
        let unit = self.unit(script);
        'globals: for name in self.globals.as_slice() {
            if name.of == unit {
                let variable = Variable {
                    script,
                    serial: 0,
                    slot: name.slot,
                };
                push_variable(
                    out,
                    b"global ",
                    name,
                    self.value(self.up_to(number), variable),
                )?;
            }
        }
        Ok(())
    }

    // The value that a variable got last, at one of these places. One of a call is sought as far as the call's entry.
    fn value(&self, places: &[usize], variable: Variable) -> Option<&'a [u8]> {
        'before: for place in places.iter().rev() {
            let it = self.moment_at(*place);
            if it.entry.mark != 0 && it.entry.script == variable.script {
                let found = value_in(&it, variable);
                if found.is_some() {
                    return found;
                }
                if it.sort == Sort::Enter && it.entry.serial == variable.serial {
                    return None;
                }
            }
        }
        None
    }

    /// A line for each stop.
    pub fn show_stops(&self, alloc: Global) -> Result<Vec<u8>, NoMemory> {
        let mut out = Vec::new(alloc);
        'moments: for (i, place) in self.places.iter().enumerate() {
            let moment = self.moment_at(*place);
            if moment.sort.is_stop() {
                self.push_stop(&mut out, i + 1, &moment)?;
            }
        }
        Ok(out)
    }

    fn push_stop(&self, out: &mut Vec<u8>, number: usize, moment: &Moment) -> Result<(), NoMemory> {
        let mark = self.mark(self.latest(number, self.active(number, moment)));
        let line = match mark {
            Some(mark) => mark.line,
            None => 0,
        };
        push_decimal(out, as_integer(number))?;
        push_number(out, moment.entry.step as usize)?;
        push_number(out, moment.entry.segment as usize)?;
        push_number(out, moment.entry.script as usize)?;
        push_number(out, line as usize)?;
        push_words(out, &[b" ", moment.sort.word(), b"\n"])
    }
}

fn is_hidden(name: &Name, later: &[Name]) -> bool {
    later.iter().any(|it| it.name == name.name)
}

// The value that a variable gets at a moment.
fn value_in<'a>(moment: &Moment<'a>, variable: Variable) -> Option<&'a [u8]> {
    let mut found = None;
    let mut rest = moment.sets;
    'sets: while !rest.is_empty() {
        let (line, after) = cut(rest, b'\n');
        let Some(set) = parse_set(line) else {
            return found;
        };
        if set.serial == variable.serial && set.slot == variable.slot {
            found = Some(set.value);
        }
        rest = after;
    }
    found
}

fn push_variable(
    out: &mut Vec<u8>,
    word: &[u8],
    name: &Name,
    value: Option<&[u8]>,
) -> Result<(), NoMemory> {
    let value = match value {
        Some(value) => value,
        None => b"?",
    };
    push_words(out, &[word, name.name, b" ", name.kind, b" ", value, b"\n"])
}

fn push_words(out: &mut Vec<u8>, words: &[&[u8]]) -> Result<(), NoMemory> {
    for word in words {
        out.extend_from_slice(*word)?;
    }
    Ok(())
}

// The number, after a space.
fn push_number(out: &mut Vec<u8>, number: usize) -> Result<(), NoMemory> {
    out.push(b' ')?;
    push_decimal(out, as_integer(number))
}

fn as_integer(number: usize) -> i64 {
    i64::try_from(number).unwrap_or(i64::MAX)
}
