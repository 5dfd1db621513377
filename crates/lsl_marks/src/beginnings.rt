//! What a copy reports before a statement.

use crate::blocks::Open;
use crate::markers::{After, Moment};
use crate::statements::{Form, Statement};
use crate::tokens::{Part, kind_at, name_at, sort_at};
use crate::variables::{Variable, add, is_call, sleeps_in};
use crate::writer::{Place, Sign, Writer};
use lsl_lex::Sort;
use lsl_text::NoMemory;

impl Writer<'_, '_> {
    /// The marker before a statement.
    pub fn before(&mut self, statement: &Statement, carried: &[Variable]) -> Result<(), NoMemory> {
        let place = Place {
            moment: Moment::Statement,
            first: statement.first,
            last: self.last_told(statement),
            after: self.after_beginning(statement),
        };
        let calls = match statement.form {
            Form::Return => Some(self.calls_in(statement.values)?),
            _ => None,
        };
        self.mark(place, carried, calls, Sign::Semicolon)
    }

    /// The last token of a statement before its bodies.
    fn last_told(&self, statement: &Statement) -> usize {
        match statement.form {
            Form::If | Form::While | Form::For => statement.values.to,
            Form::Block => self.last_of_opening(statement.first),
            _ => statement.end.saturating_sub(1),
        }
    }

    /// The brace that opens a block, or that ends it where it is empty.
    fn last_of_opening(&self, first: usize) -> usize {
        let next = first.saturating_add(1);
        match sort_at(self.source.tokens, next) {
            Some(Sort::BraceClose) => next,
            _ => first,
        }
    }

    fn after_beginning(&self, statement: &Statement) -> After {
        match statement.form {
            Form::Jump => After::Tick,
            Form::Value => self.before_sleeps(statement.values),
            Form::For => self.before_sleeps(self.lists_of(statement.values).starts),
            _ => After::Nothing,
        }
    }

    /// The tick after a marker that these values follow.
    pub fn before_sleeps(&self, values: Part) -> After {
        if sleeps_in(self.source.tokens, values) {
            After::Sleep
        } else {
            After::Nothing
        }
    }

    /// The functions that are called among these tokens.
    fn calls_in(&self, values: Part) -> Result<Vec<usize>, NoMemory> {
        let mut calls = Vec::new(self.alloc);
        for at in values.from..values.to {
            if is_call(self.source.tokens, at)
                && let Some(number) = self.function(name_at(self.source.tokens, at))
            {
                calls.push(number)?;
            }
        }
        Ok(calls)
    }

    fn function(&self, name: &[u8]) -> Option<usize> {
        let tokens = self.source.tokens;
        self.source.outline.routines.iter().position(|it| it.state.is_none()
            && name_at(tokens, it.name) == name)
    }

    pub fn declare(&mut self, statement: &Statement) -> Result<(), NoMemory> {
        let mut carried = self.scope.changed(self.alloc, statement.values)?;
        if let Some(kind) = kind_at(self.source.tokens, statement.first) {
            let variable = self.scope.declare(statement.first.saturating_add(1), kind)?;
            add(&mut carried, variable)?;
        }
        let carried = self.seen(carried)?;
        self.open.push(Open {
            statement: Some(*statement),
            carried,
            locals: self.scope.locals.len(),
            after: After::Nothing,
            held: None,
        })?;
        Ok(())
    }
}
