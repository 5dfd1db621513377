//! What a move looks for.

ghost use Rattle.std.specs.Prelude.{◌≡◌, ◌==◌, ◌&&◌, false, List};
ghost use Rattle.std.specs.Option.{option_map};
ghost use Rattle.lsl_seek.specs.Aims.{asks_values, files_of, is_at, is_begun, is_entered, is_file, is_in, is_on_line, is_script, meets};
ghost use Rattle.lsl_seek.specs.Watches.{WatchesAt};
ghost use Rattle.lsl_seek.specs.Moments.{Moment as Told, marks_of, numbered, seen};

use crate::entry::{Slot, Sort};
use crate::tables::Name;
use crate::texts::{contains, is_event, last_part, unquoted};
use crate::trace::{Moment, Trace};
use crate::watch::{Variable, Watch};

/// What the moment to which a move leads is to be.
#[derive(Drop)]
pub enum Aim<'a> {
    /// Any moment.
    Any,
    /// A stop at this step and segment or later.
    From(u32, u32),
    /// A stop of this script.
    Of(u32),
    /// A stop of this script that isn't within a call of this call. A fault always is one.
    Outside(u32, u32),
    /// The first stop of a segment, and not of this step and segment.
    Segment(u32, u32),
    /// The first stop of a step, and not of this one.
    Turn(u32),
    /// The first stop after an event was taken.
    Handler,
    /// A statement, or a loop's condition, at this line, in this file or any.
    Line(Option<&'a [u8]>, u32),
    /// The first statement of a function, or of an event's handler.
    Routine(&'a [u8]),
    If(Test<'a>),
    /// A stop at which a variable has another value since its script's last stop.
    Changes(&'a [u8]),
    /// The journal's line that this event was taken, by this script or any.
    Event(&'a [u8], Option<u32>),
    /// A line of chat that contains this text.
    Said(&'a [u8]),
    Fault,
}

/// A stop at which a variable's value compares so.
#[derive(Clone, Copy, Drop)]
pub struct Test<'a> {
    pub name: &'a [u8],
    pub op: Op,
    pub value: Value<'a>,
}

#[derive(Clone, Copy, Debug, PartialEq, Eq, Drop)]
pub enum Op {
    Equal,
    Other,
    Less,
    AtMost,
    Greater,
    AtLeast,
}

/// A value that a variable is compared with.
#[derive(Clone, Copy, Drop)]
pub enum Value<'a> {
    Integer(i64),
    /// The text between its quotes.
    Text(&'a [u8]),
}

impl<'a> Aim<'a> {
    /// Whether a moment is one, where the watch came to it.
    #[tactic(auto, unfolding(crate::specs::Aims::meets))]
    pub fn is_met(&self, trace: &Trace, watch: &Watch, moment: &Moment) -> bool
        ensures { (past : List Told) → WatchesAt self.now watch.now (seen moment.now) past → asks_values self.now ≡ false
            → result ≡ meets trace.now self.now (seen moment.now) past }
    {
        let entry = &moment.entry;
        match self {
            Aim::Any => true,
            Aim::From(step, segment) => {
                moment.sort.is_stop()
                    && (entry.step > *step || (entry.step == *step && entry.segment >= *segment))
            }
            Aim::Of(script) => moment.sort.is_stop() && entry.script == *script,
            Aim::Outside(script, _) => {
                moment.sort.is_stop()
                    && entry.script == *script
                    && (matches!(moment.sort, Sort::Fault) || !watch.inner.contains(&entry.serial))
            }
            Aim::Segment(step, segment) => {
                moment.sort.is_stop()
                    && (entry.step != *step || entry.segment != *segment)
                    && !watch.is_at(entry.step, entry.segment)
            }
            Aim::Turn(step) => moment.sort.is_stop()
                && entry.step != *step
                && !watch.is_in(entry.step),
            Aim::Handler => moment.sort.is_stop() && watch.is_taken,
            Aim::Line(file, line) => trace.is_at(moment, *file, *line),
            Aim::Routine(name) => {
                matches!(moment.sort, Sort::Statement) && trace.enters(watch.before, *name)
            }
            Aim::If(test) => moment.sort.is_stop() && trace.tests(watch, moment, test),
            Aim::Changes(name) => moment.sort.is_stop() && trace.changes(watch, moment, *name),
            Aim::Event(name, script) => {
                matches!(moment.sort, Sort::Took)
                    && is_event(entry.said, *name)
                    && is_script(*script, entry.script)
            }
            Aim::Said(text) => {
                matches!(moment.sort, Sort::Speech) && contains(entry.said, *text)
            }
            Aim::Fault => matches!(moment.sort, Sort::Fault),
        }
    }
}

impl<'a> Watch<'a> {
    // Whether the last stop was in this step and segment.
    fn is_at(&self, step: u32, segment: u32) -> bool
        ensures { result ≡ is_at self.now.stop step segment }
    {
        match self.stop {
            Some((last, its)) => last == step && its == segment,
            None => false,
        }
    }

    // Whether the last stop was in this step.
    fn is_in(&self, step: u32) -> bool
        ensures { result ≡ is_in self.now.stop step }
    {
        match self.stop {
            Some((last, _)) => last == step,
            None => false,
        }
    }
}

impl<'a> Trace<'a> {
    fn is_at(&self, moment: &Moment, file: Option<&[u8]>, line: u32) -> bool
        ensures { result ≡ (is_begun moment.now.sort
            && is_on_line self.now (numbered (marks_of self.now) moment.now.entry.mark) (option_map (λ it. it.now) file.entry) line) }
    {
        if !matches!(moment.sort, Sort::Statement | Sort::Again) {
            return false;
        }
        match self.mark(moment.entry.mark) {
            Some(mark) => mark.line == line && self.is_file(mark.unit, file),
            None => false,
        }
    }

    fn is_file(&self, unit: u32, file: Option<&[u8]>) -> bool
        ensures { result ≡ is_file (option_map (λ it. it.now) file.entry) (numbered (files_of self.now) unit) }
    {
        match (file, self.file(unit)) {
            (None, _) => true,
            (Some(wanted), Some(name)) => unquoted(name) == wanted,
            (Some(_), None) => false,
        }
    }

    // Whether the mark is the entry of this function, or of an event's handler.
    fn enters(&self, mark: u32, name: &[u8]) -> bool
        ensures { result ≡ is_entered (numbered (marks_of self.now) mark) name.now }
    {
        match self.mark(mark) {
            Some(mark) => matches!(mark.sort, Sort::Enter) && last_part(mark.routine) == name,
            None => false,
        }
    }

    fn tests(&self, watch: &Watch, moment: &Moment, test: &Test) -> bool {
        match self.variable(moment, test.name) {
            Some((variable, kind)) => match watch.values.get(&variable) {
                Some(value) => test.holds(kind, *value),
                None => false,
            },
            None => false,
        }
    }

    fn changes(&self, watch: &Watch, moment: &Moment, name: &[u8]) -> bool {
        match self.variable(moment, name) {
            Some((variable, _)) => watch.news.as_slice().contains(&variable),
            None => false,
        }
    }

    // The variable of this name that is visible at a moment, and its kind.
    fn variable(&self, moment: &Moment, name: &[u8]) -> Option<(Variable, &[u8])> {
        let mark = self.mark(moment.entry.mark)?;
        let script = moment.entry.script;
        match named(self.names_at(moment.entry.mark), name) {
            Some(it) => Some((
                Variable {
                    script,
                    serial: moment.entry.serial,
                    slot: it.slot,
                },
                it.kind,
            )),
            None => {
                let it = global(self.globals.as_slice(), mark.unit, name)?;
                Some((
                    Variable {
                        script,
                        serial: 0,
                        slot: it.slot,
                    },
                    it.kind,
                ))
            }
        }
    }
}

// The last of these names.
fn named<'a, 'b>(names: &'b [Name<'a>], name: &[u8]) -> Option<&'b Name<'a>> {
    names
        .iter()
        .rev()
        .find(|it| it.slot != Slot::Result && it.name == name)
}

fn global<'a, 'b>(names: &'b [Name<'a>], unit: u32, name: &[u8]) -> Option<&'b Name<'a>> {
    names.iter().find(|it| it.of == unit && it.name == name)
}

fn is_script(wanted: Option<u32>, script: u32) -> bool
    ensures { result ≡ is_script wanted script }
{
    match wanted {
        Some(wanted) => wanted == script,
        None => true,
    }
}

impl<'a> Test<'a> {
    fn holds(&self, kind: &[u8], value: &[u8]) -> bool {
        match self.value {
            Value::Integer(wanted) => {
                is_integer(kind)
                    && match integer(value) {
                        Some(n) => self.op.holds(n < wanted, n == wanted),
                        None => false,
                    }
            }
            Value::Text(wanted) => {
                let text = unquoted(value);
                !is_integer(kind) && self.op.holds(text < wanted, text == wanted)
            }
        }
    }
}

fn is_integer(kind: &[u8]) -> bool {
    matches!(kind, b"integer")
}

impl Op {
    fn holds(self, is_less: bool, is_equal: bool) -> bool {
        match self {
            Op::Equal => is_equal,
            Op::Other => !is_equal,
            Op::Less => is_less,
            Op::AtMost => is_less || is_equal,
            Op::Greater => !is_less && !is_equal,
            Op::AtLeast => !is_less,
        }
    }
}

/// A decimal number, with a minus sign or none.
pub fn integer(text: &[u8]) -> Option<i64> {
    match text {
        [b'-', digits @ ..] => Some(0 - i64::from(crate::bytes::number(digits)?)),
        _ => Some(i64::from(crate::bytes::number(text)?)),
    }
}
