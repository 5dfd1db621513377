//! The results of functions in a copy: `return e;` becomes `{x=e; ... return x;}`, if nothing reads the variable x any
//! more.

use crate::markers::{After, Moment, kind_word};
use crate::statements::Statement;
use crate::tiers::Tier;
use crate::tokens::{end_at, name_at};
use crate::variables::{Slot, Variable};
use crate::writer::{Place, Sign, Writer};
use lsl_text::NoMemory;
use lsl_value::Kind;

/// The variable that holds a result, and the globals that may have changed with it.
#[derive(Drop)]
pub struct Held {
    pub name: Vec<u8>,
    pub kind: Kind,
    pub is_new: bool,
    pub changed: Vec<Variable>,
}

impl Writer<'_, '_> {
    pub fn begin_return(&mut self, statement: &Statement) -> Result<(), NoMemory> {
        let held = self.held(statement)?;
        if let Some(held) = &held {
            self.open_return(statement, held)?;
        }
        self.open(Some(*statement), Vec::new(self.alloc), After::Nothing)?;
        if let Some(open) = self.open.last_mut() {
            open.held = held;
        }
        Ok(())
    }

    /// What holds the result of a `return`, if it is reported.
    fn held(&self, statement: &Statement) -> Result<Option<Held>, NoMemory> {
        let routine = self.source.outline.routines.get(self.routine);
        let Some(kind) = routine.map_or(None, |it| it.kind) else {
            return Ok(None);
        };
        let is_told = matches!(self.source.tier, Tier::All | Tier::Held);
        if !is_told || statement.values.is_empty() {
            return Ok(None);
        }
        let own = match self.scope.holder(kind) {
            Some(variable) => Some(name_at(self.source.tokens, variable.name)),
            None => None,
        };
        if own.is_none() && self.source.tier == Tier::Held {
            return Ok(None);
        }
        let name = Vec::from_slice(self.alloc, own.unwrap_or(self.own.as_slice()))?;
        let is_new = own.is_none();
        let mut changed = Vec::new(self.alloc);
        for variable in &self.scope.changed(self.alloc, statement.values)? {
            if matches!(variable.slot, Slot::Global(_)) {
                changed.push(*variable)?;
            }
        }
        Ok(Some(Held {
            name,
            kind,
            is_new,
            changed,
        }))
    }

    fn open_return(&mut self, statement: &Statement, held: &Held) -> Result<(), NoMemory> {
        self.put(b"{")?;
        if held.is_new {
            self.put(kind_word(held.kind).as_bytes())?;
            self.put(b" ")?;
        }
        self.put(held.name.as_slice())?;
        self.put(b"=")?;
        self.copied = end_at(self.source.tokens, statement.first);
        Ok(())
    }

    pub fn end_return(&mut self, statement: &Statement, held: &Held) -> Result<(), NoMemory> {
        let last = statement.end.saturating_sub(1);
        self.copy_to(end_at(self.source.tokens, last))?;
        let place = Place {
            moment: Moment::Leave,
            first: statement.first,
            last,
            after: After::Nothing,
        };
        self.mark(place, held.changed.as_slice(), None, Sign::Semicolon)?;
        self.say(held.kind, held.name.as_slice(), Sign::Semicolon)?;
        if let Some(marker) = self.markers.last_mut() {
            marker.says.push(Variable {
                name: statement.first,
                kind: held.kind,
                slot: Slot::Result,
            })?;
        }
        self.put(b"return ")?;
        self.put(held.name.as_slice())?;
        self.put(b";}")
    }
}
