//! Routines, blocks and their statements in a copy.

use crate::markers::{After, Moment};
use crate::returns::Held;
use crate::statements::{Form, Statement};
use crate::tokens::{Part, end_at, kind_at, start_at};
use crate::variables::Variable;
use crate::writer::Writer;
use lsl_text::NoMemory;

/// A statement that isn't ended, or a routine. `carried` are the variables that may have changed since the last marker,
/// `locals` how many there were before it, and `after` is the tick that passes where its body ends.
#[derive(Drop)]
pub struct Open {
    pub statement: Option<Statement>,
    pub carried: Vec<Variable>,
    pub locals: usize,
    pub after: After,
    pub held: Option<Held>,
}

impl Writer<'_, '_> {
    pub fn enter(&mut self, number: usize) -> Result<(), NoMemory> {
        let Some(routine) = self.source.outline.routines.get(number).copied() else {
            return Ok(());
        };
        self.routine = number;
        self.scope.clear();
        for at in routine.parameters.from..routine.parameters.to {
            if let Some(kind) = kind_at(self.source.tokens, at) {
                self.scope.declare(at.saturating_add(1), kind)?;
            }
        }
        let mut told = self.scope.locals.clone()?;
        if routine.state.is_some() {
            self.scope.push_globals(&mut told)?;
        }
        self.copy_to(end_at(self.source.tokens, routine.body))?;
        self.note(Moment::Enter, routine.name, told.as_slice())?;
        self.open(None, Vec::new(self.alloc), After::Nothing)
    }

    pub fn leave(&mut self, at: usize) -> Result<(), NoMemory> {
        self.copy_to(start_at(self.source.tokens, at))?;
        let after = self.close_block(at)?;
        self.note(Moment::Leave, at, after.as_slice())
    }

    pub fn open(
        &mut self,
        statement: Option<Statement>,
        carried: Vec<Variable>,
        after: After,
    ) -> Result<(), NoMemory> {
        self.open.push(Open {
            statement,
            carried,
            locals: self.scope.locals.len(),
            after,
            held: None,
        })?;
        Ok(())
    }

    /// The statement that isn't ended, the innermost.
    fn around(&self) -> Option<Statement> {
        self.open.last()?.statement
    }

    /// Closes a block before its last brace. Returns the variables that its last statement may have changed; its own
    /// are reported here.
    fn close_block(&mut self, brace: usize) -> Result<Vec<Variable>, NoMemory> {
        let Some(block) = self.open.pop() else {
            return Ok(Vec::new(self.alloc));
        };
        let own = Part {
            from: block.locals,
            to: self.scope.locals.len(),
        };
        let is_own = |it: &Variable| own
            .of(self.scope.locals.as_slice())
            .iter()
            .any(|own| own.slot == it.slot);
        let loses = block.carried.iter().any(is_own);
        if loses {
            self.note(Moment::Note, brace, block.carried.as_slice())?;
        }
        self.scope.locals.truncate(block.locals);
        if loses {
            return Ok(Vec::new(self.alloc));
        }
        self.seen(block.carried)
    }

    /// Those of these variables that their names refer to here.
    pub fn seen(&self, variables: Vec<Variable>) -> Result<Vec<Variable>, NoMemory> {
        let mut seen = Vec::new(self.alloc);
        for variable in &variables {
            if self.scope.sees(variable) {
                seen.push(*variable)?;
            }
        }
        Ok(seen)
    }

    pub fn begin(&mut self, statement: &Statement) -> Result<(), NoMemory> {
        if statement.is_body {
            self.begin_body(statement)?;
        } else {
            self.begin_in_block(statement)?;
        }
        match statement.form {
            Form::Declare => self.declare(statement),
            Form::Return => self.begin_return(statement),
            Form::For => self.lists(statement),
            Form::Block | Form::Jump | Form::Label => self.open(
                Some(*statement),
                Vec::new(self.alloc),
                After::Nothing,
            ),
            form => {
                let carried = self.scope.changed(self.alloc, statement.values)?;
                let after = match form {
                    Form::While => After::Tick,
                    _ => After::Nothing,
                };
                self.open(Some(*statement), carried, after)
            }
        }
    }

    pub fn end(&mut self, statement: &Statement) -> Result<(), NoMemory> {
        let last = statement.end.saturating_sub(1);
        let after = if statement.form == Form::Block {
            self.copy_to(start_at(self.source.tokens, last))?;
            self.close_block(last)?
        } else {
            self.end_plain(statement)?
        };
        if statement.is_body {
            return self.end_body(statement, after.as_slice());
        }
        if let Some(block) = self.open.last_mut() {
            block.carried = after;
        }
        Ok(())
    }

    /// Ends a statement that isn't a block. Returns the variables that it may have changed.
    fn end_plain(&mut self, statement: &Statement) -> Result<Vec<Variable>, NoMemory> {
        let Some(open) = self.open.pop() else {
            return Ok(Vec::new(self.alloc));
        };
        if let Some(held) = &open.held {
            self.end_return(statement, held)?;
        }
        Ok(open.carried)
    }

    /// What the statement before may have changed, in the block around.
    fn take_carried(&mut self) -> Vec<Variable> {
        match self.open.last_mut() {
            Some(open) => std::mem::replace(&mut open.carried, Vec::new(self.alloc)),
            None => Vec::new(self.alloc),
        }
    }

    /// The marker before a statement of a block; before a label only if something is reported.
    fn begin_in_block(&mut self, statement: &Statement) -> Result<(), NoMemory> {
        let carried = self.take_carried();
        self.copy_to(start_at(self.source.tokens, statement.first))?;
        if statement.form != Form::Label {
            return self.before(statement, carried.as_slice());
        }
        if carried.is_empty() {
            return Ok(());
        }
        self.note(Moment::Note, statement.first, carried.as_slice())
    }
}
