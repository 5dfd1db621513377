//! The bodies of statements in a copy.

use crate::markers::Moment;
use crate::statements::{Form, Statement};
use crate::tokens::{end_at, start_at};
use crate::variables::Variable;
use crate::writer::{Place, Sign, Writer};
use lsl_text::NoMemory;

impl Writer<'_, '_> {
    /// The markers at the start of a body, which gets braces where it has none.
    pub fn begin_body(&mut self, body: &Statement) -> Result<(), NoMemory> {
        if body.form == Form::Block {
            self.copy_to(end_at(self.source.tokens, body.first))?;
            return self.begin_of_body();
        }
        self.copy_to(start_at(self.source.tokens, body.first))?;
        self.put(b"{")?;
        self.begin_of_body()?;
        self.before(body, &[])
    }

    fn begin_of_body(&mut self) -> Result<(), NoMemory> {
        let Some(open) = self.open.last() else {
            return Ok(());
        };
        let Some(around) = open.statement else {
            return Ok(());
        };
        let carried = open.carried.clone()?;
        if around.form == Form::Do {
            self.note(Moment::Body, around.first, carried.as_slice())
        } else if carried.is_empty() {
            Ok(())
        } else {
            self.note(Moment::Note, around.first, carried.as_slice())
        }
    }

    /// The markers at the end of a body.
    pub fn end_body(&mut self, body: &Statement, after: &[Variable]) -> Result<(), NoMemory> {
        let last = body.end.saturating_sub(1);
        if body.form == Form::Block {
            return self.end_of_body(body, after);
        }
        self.copy_to(end_at(self.source.tokens, last))?;
        self.end_of_body(body, after)?;
        self.put(b"}")
    }

    fn end_of_body(&mut self, body: &Statement, after: &[Variable]) -> Result<(), NoMemory> {
        let Some(open) = self.open.last() else {
            return Ok(());
        };
        let Some(around) = open.statement else {
            return Ok(());
        };
        if around.form.is_loop() {
            let first = if around.form == Form::Do {
                body.end
            } else {
                around.first
            };
            let place = Place {
                moment: Moment::Again,
                first,
                last: first,
                after: open.after,
            };
            self.mark(place, after, None, Sign::Semicolon)
        } else if after.is_empty() {
            Ok(())
        } else {
            self.note(Moment::Note, body.end.saturating_sub(1), after)
        }
    }
}
