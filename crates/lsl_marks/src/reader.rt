//! The reading of the copies' journals.

use crate::calls::{Frame, Running, outer_of};
use crate::entries::{Arrival, Entry, Guilty, Value, What};
use crate::journal_lines::{Line, Word, number_of, told_by_owner};
use crate::markers::{After, Marker, Moment};
use crate::variables::Slot;
use lsl_text::NoMemory;

/// A marker that is followed by values: the next is the variable of this number.
#[derive(Clone, Copy)]
pub struct Awaited {
    pub script: usize,
    pub marker: usize,
    pub serial: u64,
    pub next: usize,
}

/// What was run: how many scripts and objects, the markers of the copies and how they begin.
#[derive(Clone, Copy)]
pub struct Played<'a> {
    pub scripts: usize,
    pub objects: usize,
    pub markers: &'a [Marker],
    pub mark: &'a [u8],
}

#[derive(Drop)]
pub struct Reader<'a> {
    pub played: Played<'a>,
    pub running: Vec<Running>,
    pub entries: Vec<Entry<'a>>,
    pub step: u64,
    pub segment: u64,
    pub serial: u64,
    pub awaited: Option<Awaited>,
}

impl<'a> Reader<'a> {
    /// Reads a line. Returns what didn't come through a marker.
    pub fn read(&mut self, whole: &'a [u8]) -> Result<Option<Guilty>, NoMemory> {
        let line = Line::of(whole);
        if let Some(awaited) = self.awaited {
            return self.read_value(awaited, &line);
        }
        if line.word == Word::Home {
            if line.number <= self.played.objects {
                self.add(What::Said(line.whole))?;
            }
        } else if self.played.scripts < line.number {
            if line.word == Word::Took {
                self.step = self.step.saturating_add(1);
                self.segment = 0;
            }
        } else if let Some(marker) = self.marker_in(&line) {
            return self.read_marker(&line, marker);
        } else {
            self.read_plain(&line)?;
        }
        Ok(None)
    }

    /// The number of a line's marker.
    fn marker_in(&self, line: &Line<'a>) -> Option<usize> {
        let told = told_by_owner(line.whole).strip_prefix(self.played.mark)?;
        let number = number_of(told.strip_suffix(b"\"")?)?;
        (number < self.played.markers.len()).then_some(number)
    }

    fn add(&mut self, what: What<'a>) -> Result<(), NoMemory> {
        self.entries.push(Entry {
            step: self.step,
            segment: self.segment,
            what,
        })?;
        Ok(())
    }

    fn running(&mut self, script: usize) -> Option<&mut Running> {
        self.running.get_mut(script.checked_sub(1)?)
    }

    /// A script continues: the ticks that it waited at have passed, and these.
    fn pass(&mut self, script: usize, ticks: u64) {
        let pending = match self.running(script) {
            Some(running) => std::mem::replace(&mut running.pending, 0),
            None => 0,
        };
        self.segment = self.segment.saturating_add(pending.saturating_add(ticks));
    }

    fn read_plain(&mut self, line: &Line<'a>) -> Result<(), NoMemory> {
        if line.word == Word::Took {
            self.pass(line.number, 1);
        } else if line.word != Word::Drop {
            self.pass(line.number, 0);
        }
        self.add(What::Said(line.whole))?;
        if line.word == Word::Done || line.word == Word::Fault {
            if let Some(running) = self.running(line.number) {
                running.stack.truncate(0);
                running.pending = 0;
            }
        }
        Ok(())
    }

    fn read_marker(&mut self, line: &Line<'a>, number: usize) -> Result<Option<Guilty>, NoMemory> {
        let script = line.number;
        let Some(marker) = self.played.markers.get(number) else {
            return Ok(Some(Guilty::Unknown));
        };
        let ticks = match marker.moment {
            Moment::Enter => self.enter(script, marker)?,
            _ => self.come(script, number, marker),
        };
        if let Some(ticks) = ticks {
            self.pass(script, ticks);
        }
        let Some(running) = self.running(script) else {
            return Ok(Some(Guilty::Unknown));
        };
        let outer = outer_of(running.stack.as_slice());
        let Some(frame) = running.stack.last_mut() else {
            return Ok(Some(Guilty::Script(script)));
        };
        let serial = frame.serial;
        frame.sleeps = marker.after == After::Sleep;
        if marker.after == After::Tick {
            running.pending = running.pending.saturating_add(1);
        }
        if marker.moment == Moment::Leave {
            let _ = running.stack.pop();
        }
        self.add(What::At(Arrival {
            script,
            marker: number,
            serial,
            outer,
        }))?;
        self.awaited = (!marker.says.is_empty()).then_some(Awaited {
            script,
            marker: number,
            serial,
            next: 0,
        });
        Ok(None)
    }

    /// Enters a routine: a tick passes, but before a handler it has passed. Calls end if their `return` doesn't call
    /// the routine.
    fn enter(&mut self, script: usize, marker: &Marker) -> Result<Option<u64>, NoMemory> {
        let markers = self.played.markers;
        self.serial = self.serial.saturating_add(1);
        let serial = self.serial;
        let Some(running) = self.running(script) else {
            return Ok(None);
        };
        let is_handler = running.stack.is_empty();
        for _ in 1..running.stack.len() {
            match running.stack.last() {
                Some(frame) if frame.is_over(markers, marker.routine) => {
                    let _ = running.stack.pop();
                }
                _ => break,
            }
        }
        running.stack.push(Frame {
            routine: marker.routine,
            serial,
            is_again: false,
            sleeps: false,
            returning: None,
        })?;
        Ok((!is_handler).then_some(1))
    }

    /// A marker within a routine: the calls of others are over. Returns the ticks that have passed.
    fn come(&mut self, script: usize, number: usize, marker: &Marker) -> Option<u64> {
        let running = self.running(script)?;
        for _ in 1..running.stack.len() {
            match running.stack.last() {
                Some(frame) if frame.is_left(number, marker) => {
                    let _ = running.stack.pop();
                }
                _ => break,
            }
        }
        let frame = running.stack.last_mut()?;
        let comes_again = marker.moment == Moment::Body && frame.is_again;
        match marker.moment {
            Moment::Again => frame.is_again = true,
            Moment::Note => {}
            _ => frame.is_again = false,
        }
        if marker.calls.is_some() {
            frame.returning = Some(number);
        }
        Some(u64::from(comes_again).saturating_add(u64::from(frame.sleeps)))
    }

    fn read_value(
        &mut self,
        awaited: Awaited,
        line: &Line<'a>,
    ) -> Result<Option<Guilty>, NoMemory> {
        let guilty = Some(Guilty::Script(awaited.script));
        if line.word != Word::Owner || line.number != awaited.script {
            return Ok(guilty);
        }
        let Some(marker) = self.played.markers.get(awaited.marker) else {
            return Ok(guilty);
        };
        let Some(variable) = marker.says.get(awaited.next).copied() else {
            return Ok(guilty);
        };
        let serial = match variable.slot {
            Slot::Global(_) => 0,
            _ => awaited.serial,
        };
        self.add(What::Set(Value {
            serial,
            variable,
            told: line.rest,
        }))?;
        let next = awaited.next.saturating_add(1);
        self.awaited = (next < marker.says.len()).then_some(Awaited { next, ..awaited });
        Ok(None)
    }
}
