//! The copy of a script: its text, and between its tokens statements that report where it is, and what values its
//! variables have.

use crate::blocks::Open;
use crate::markers::{After, Marker, Moment};
use crate::statements::{Event, Outline};
use crate::tiers::Tier;
use crate::tokens::{Part, line_at, name_at};
use crate::variables::{Scope, Variable};
use itoa::Buffer;
use lsl_lex::Token;
use lsl_text::NoMemory;
use lsl_value::Kind;
use std::alloc::Global;

/// A script that is copied: its text, its tokens and its parts. `mark` begins what markers say.
#[derive(Clone, Copy)]
pub struct Source<'a> {
    pub unit: usize,
    pub text: &'a [u8],
    pub tokens: &'a [Token],
    pub outline: &'a Outline,
    pub mark: &'a [u8],
    pub tier: Tier,
}

/// What ends a marker's calls: they are statements, or they are in a list of a `for`, each after a comma.
#[derive(Clone, Copy, Debug, PartialEq, Eq)]
pub enum Sign {
    Semicolon,
    Comma,
}

/// The text of the script's copy. Its markers are added to `markers`, and are numbered there.
pub fn marked_copy(
    alloc: Global,
    source: &Source<'_>,
    markers: &mut Vec<Marker>,
) -> Result<Vec<u8>, NoMemory> {
    let mut writer = Writer {
        alloc,
        source: *source,
        own: own_name(alloc, source.tokens)?,
        markers,
        text: Vec::new(alloc),
        copied: 0,
        scope: Scope::new(alloc, source.tokens, source.outline)?,
        open: Vec::new(alloc),
        routine: 0,
    };
    for event in &source.outline.events {
        writer.write(*event)?;
    }
    writer.copy_to(source.text.len())?;
    Ok(writer.text)
}

/// A name that isn't a token.
fn own_name(alloc: Global, tokens: &[Token]) -> Result<Vec<u8>, NoMemory> {
    let mut name = Vec::from_slice(alloc, b"r_")?;
    for _ in 0..tokens.len() {
        if !(0..tokens.len()).any(|at| name_at(tokens, at) == name.as_slice()) {
            break;
        }
        name.push(b'_')?;
    }
    Ok(name)
}

/// Where a marker is, and which tick passes after it. `first` and `last` are tokens.
#[derive(Clone, Copy, Debug)]
pub struct Place {
    pub moment: Moment,
    pub first: usize,
    pub last: usize,
    pub after: After,
}

#[derive(Drop)]
pub struct Writer<'a, 'b> {
    pub alloc: Global,
    pub source: Source<'a>,
    pub own: Vec<u8>,
    pub markers: &'b mut Vec<Marker>,
    pub text: Vec<u8>,
    pub copied: usize,
    pub scope: Scope<'a>,
    pub open: Vec<Open>,
    pub routine: usize,
}

impl Writer<'_, '_> {
    fn write(&mut self, event: Event) -> Result<(), NoMemory> {
        match event {
            Event::Enter(number) => self.enter(number),
            Event::Begin(number) => match self.source.outline.statements.get(number).copied() {
                Some(statement) => self.begin(&statement),
                None => Ok(()),
            },
            Event::End(number) => match self.source.outline.statements.get(number).copied() {
                Some(statement) => self.end(&statement),
                None => Ok(()),
            },
            Event::Leave(at) => self.leave(at),
        }
    }

    // Text

    /// Copies the script's bytes up to a place.
    pub fn copy_to(&mut self, place: usize) -> Result<(), NoMemory> {
        let part = Part {
            from: self.copied,
            to: place,
        };
        self.text.extend_from_slice(part.of(self.source.text))?;
        self.copied = self.copied.max(place);
        Ok(())
    }

    pub fn put(&mut self, piece: &[u8]) -> Result<(), NoMemory> {
        self.text.extend_from_slice(piece)?;
        Ok(())
    }

    /// Writes a marker, and the values of these variables after it.
    pub fn mark(
        &mut self,
        place: Place,
        says: &[Variable],
        calls: Option<Vec<usize>>,
        sign: Sign,
    ) -> Result<(), NoMemory> {
        let number = self.markers.len() as u64;
        let mut told = Vec::new(self.alloc);
        self.put_number(number, sign)?;
        for variable in says {
            if self.source.tier.tells(variable.kind) {
                told.push(*variable)?;
                self.say(
                    variable.kind,
                    name_at(self.source.tokens, variable.name),
                    sign,
                )?;
            }
        }
        self.markers.push(Marker {
            moment: place.moment,
            unit: self.source.unit,
            routine: self.routine,
            first: line_at(self.source.tokens, place.first),
            last: line_at(self.source.tokens, place.last),
            after: place.after,
            says: told,
            names: self.scope.locals.clone()?,
            calls,
        })?;
        Ok(())
    }

    fn put_number(&mut self, number: u64, sign: Sign) -> Result<(), NoMemory> {
        let mut buffer = Buffer::new();
        if sign == Sign::Comma {
            self.put(b",")?;
        }
        self.put(b"llOwnerSay(\"")?;
        self.put(self.source.mark)?;
        self.put(buffer.format(number).as_bytes())?;
        self.put(b"\")")?;
        if sign == Sign::Semicolon {
            self.put(b";")?;
        }
        Ok(())
    }

    pub fn say(&mut self, kind: Kind, name: &[u8], sign: Sign) -> Result<(), NoMemory> {
        if sign == Sign::Comma {
            self.put(b",")?;
        }
        match kind {
            Kind::Int => {
                self.put(b"llOwnerSay((string)")?;
                self.put(name)?;
                self.put(b")")?;
            }
            Kind::Str | Kind::Key => {
                self.put(b"llOwnerSay(")?;
                self.put(name)?;
                self.put(b")")?;
            }
            Kind::List => {
                self.put(b"llOwnerSay(llDumpList2String(")?;
                self.put(name)?;
                self.put(b",\"\xc2\xa6\"))")?;
            }
        }
        if sign == Sign::Semicolon {
            self.put(b";")?;
        }
        Ok(())
    }

    /// A marker at one token.
    pub fn note(&mut self, moment: Moment, at: usize, says: &[Variable]) -> Result<(), NoMemory> {
        self.mark(
            Place {
                moment,
                first: at,
                last: at,
                after: After::Nothing,
            },
            says,
            None,
            Sign::Semicolon,
        )
    }
}
