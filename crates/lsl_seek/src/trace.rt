//! A trace that was read.

ghost use Rattle.std.specs.Prelude.{◌≡◌, ◌==◌, ◌-◌, ◌&&◌, nat_le, nat_lt, drop, take, length, map, slice_get, Some};
ghost use Rattle.std.specs.Option.{option_copied, option_map};
ghost use Rattle.lsl_seek.specs.Aims.{files_of};
ghost use Rattle.lsl_seek.specs.Calls.{call_told, tells_call_of};
ghost use Rattle.lsl_seek.specs.Entries.{line};
ghost use Rattle.lsl_seek.specs.Moments.{marks_of, moment_of, moment_or_nothing, moments, nothing, numbered, seen, sort_of};
ghost use Rattle.lsl_seek.specs.Tables.{place};

use crate::bytes::cut;
use crate::entry::{Entry, Sort, parse_entry, said_sort};
use crate::faults::SeekFault;
use crate::tables::{Mark, Name, Row, parse_row};
use lsl_text::{NoMemory, Refusal};
use std::alloc::Global;

/// A trace: its tables, and where in its text each of its entries begins. It has 8 bytes for an entry.
#[derive(Drop)]
pub struct Trace<'a> {
    pub text: &'a [u8],
    pub places: Vec<usize>,
    pub files: Vec<&'a [u8]>,
    /// The unit of each script.
    pub scripts: Vec<u32>,
    pub globals: Vec<Name<'a>>,
    pub marks: Vec<Mark<'a>>,
    /// How many names come before those of each mark.
    pub firsts: Vec<usize>,
    pub names: Vec<Name<'a>>,
}

/// A moment: an entry, what it is, and the text after its line, where its values are.
#[derive(Clone, Copy)]
pub struct Moment<'a> {
    pub entry: Entry<'a>,
    pub sort: Sort,
    pub sets: &'a [u8],
}

impl<'a> Moment<'a> {
    /// Whether it says in which call this script is after it.
    pub fn tells_call_of(&self, script: u32) -> bool
        ensures { result ≡ tells_call_of script (seen self.now) }
    {
        self.entry.script == script && self.sort.tells_call()
    }

    /// The call that its script is in after it, where it says that; where a call is left it is the caller.
    pub fn call_told(&self) -> u32
        ensures { result ≡ call_told (Some (seen self.now)) }
    {
        match self.sort {
            Sort::Leave => self.entry.outer,
            Sort::Enter | Sort::Statement | Sort::Again | Sort::Note => self.entry.serial,
            Sort::Took | Sort::Done | Sort::Fault | Sort::Speech | Sort::Apart | Sort::Other => 0,
        }
    }
}

impl<'a> Trace<'a> {
    /// Reads a trace. The fault is that of the first line that is none of a trace.
    pub fn read(alloc: Global, text: &'a [u8]) -> Result<Trace<'a>, Refusal<SeekFault>> {
        let mut trace = Trace::new(alloc, text);
        let mut rest = text;
        let mut number: usize = 1;
        'lines: while !rest.is_empty() {
            let (line, after) = cut(rest, b'\n');
            match parse_row(line) {
                Some(row) => trace.add(row, text.len() - rest.len())?,
                None => return Err(Refusal::Fault(SeekFault::Line(number))),
            }
            rest = after;
            number += 1;
        }
        Ok(trace)
    }

    // Nothing was read of a text.
    fn new(alloc: Global, text: &'a [u8]) -> Trace<'a> {
        Trace {
            text,
            places: Vec::new(alloc),
            files: Vec::new(alloc),
            scripts: Vec::new(alloc),
            globals: Vec::new(alloc),
            marks: Vec::new(alloc),
            firsts: Vec::new(alloc),
            names: Vec::new(alloc),
        }
    }

    // Adds what a line is that begins at this place.
    fn add(&mut self, row: Row<'a>, place: usize) -> Result<(), NoMemory> {
        match row {
            Row::Entry => self.places.push(place)?,
            Row::Value => {}
            Row::File(name) => self.files.push(name)?,
            Row::Script(unit) => self.scripts.push(unit)?,
            Row::Global(name) => self.globals.push(name)?,
            Row::Mark(mark) => {
                self.firsts.push(self.names.len())?;
                self.marks.push(mark)?;
            }
            Row::Name(name) => self.names.push(name)?,
        }
        Ok(())
    }

    /// How many moments there are.
    pub fn len(&self) -> usize
        ensures { result ≡ length self.now.places.items }
    {
        self.places.len()
    }

    /// Whether there is a moment of this number, from 1.
    pub fn has(&self, number: usize) -> bool
        ensures { result ≡ (nat_lt 0 number && nat_le number (length self.now.places.items)) }
    {
        0 < number && number <= self.len()
    }

    /// The moment of this number, from 1. Where there is none it is one of no script.
    pub fn moment(&self, number: usize) -> Moment<'a>
        ensures { seen result ≡ moment_or_nothing (moments self.now) number }
    {
        match self.place(number) {
            Some(place) => self.moment_at(place),
            None => no_moment(),
        }
    }

    // Where the moment of this number begins, from 1.
    fn place(&self, number: usize) -> Option<usize>
        ensures { result ≡ numbered self.now.places.items number }
    {
        if number == 0 {
            return None;
        }
        self.places.get(number - 1).copied()
    }

    /// The places of the moments up to this one.
    pub fn up_to(&self, number: usize) -> &[usize]
        ensures { result.now ≡ take number self.now.places.items }
    {
        match self.places.get(..number) {
            Some(places) => places,
            None => self.places.as_slice(),
        }
    }

    /// The places of the moments before this one.
    pub fn before(&self, number: usize) -> &[usize]
        ensures { result.now ≡ take (number - 1) self.now.places.items }
    {
        if number == 0 {
            return &[];
        }
        self.up_to(number - 1)
    }

    /// The moment whose line begins at this place.
    #[tactic(auto, unfolding(crate::specs::Moments::moment_of))]
    pub fn moment_at(&self, place: usize) -> Moment<'a>
        ensures { seen result ≡ moment_of (marks_of self.now) (drop place self.now.text.now) }
    {
        let (line, after) = cut(self.text_from(place), b'\n');
        match parse_entry(line) {
            Some(entry) => Moment {
                sort: self.sort(&entry),
                entry,
                sets: after,
            },
            None => no_moment(),
        }
    }

    // What follows this place in the text.
    fn text_from(&self, place: usize) -> &'a [u8]
        ensures { result.now ≡ drop place self.now.text.now }
    {
        match self.text.get(place..) {
            Some(text) => text,
            None => b"",
        }
    }

    fn sort(&self, entry: &Entry<'a>) -> Sort
        ensures { result ≡ sort_of (marks_of self.now) (line entry.now) }
    {
        if entry.mark == 0 {
            return said_sort(entry.said);
        }
        match self.mark(entry.mark) {
            Some(mark) => mark.sort,
            None => Sort::Note,
        }
    }

    /// The mark of this number, from 1.
    pub fn mark(&self, number: u32) -> Option<&Mark<'a>>
        ensures { option_map (λ it. place it.now) result ≡ numbered (marks_of self.now) number }
    {
        if number == 0 {
            return None;
        }
        self.marks.get(number as usize - 1)
    }

    /// The variables that are visible at a mark, outer ones first, without globals.
    pub fn names_at(&self, mark: u32) -> &[Name<'a>] {
        let (first, end) = if mark == 0 {
            (0, 0)
        } else {
            (self.first(mark as usize - 1), self.first(mark as usize))
        };
        let names = self.names.as_slice();
        let end = end.min(names.len());
        &names[first.min(end)..end]
    }

    // How many names come before those of the mark of this number, from 0.
    fn first(&self, mark: usize) -> usize {
        match self.firsts.get(mark) {
            Some(first) => *first,
            None => self.names.len(),
        }
    }

    /// The unit that a script runs, or 0.
    pub fn unit(&self, script: u32) -> u32 {
        if script == 0 {
            return 0;
        }
        match self.scripts.get(script as usize - 1) {
            Some(unit) => *unit,
            None => 0,
        }
    }

    /// The quoted name of a unit's file.
    pub fn file(&self, unit: u32) -> Option<&'a [u8]>
        ensures { option_map (λ it. it.now) result ≡ numbered (files_of self.now) unit }
    {
        if unit == 0 {
            return None;
        }
        match self.files.get(unit as usize - 1) {
            Some(name) => Some(*name),
            None => None,
        }
    }
}

// A moment of no script.
fn no_moment() -> Moment<'static>
    ensures { seen result ≡ nothing }
{
    Moment {
        entry: Entry {
            step: 0,
            segment: 0,
            script: 0,
            mark: 0,
            serial: 0,
            outer: 0,
            said: b"",
        },
        sort: Sort::Apart,
        sets: b"",
    }
}
