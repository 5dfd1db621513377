//! Variables, and what values do to them.

use crate::statements::Outline;
use crate::tokens::{Part, name_at, sort_at};
use lsl_lex::{Sort, Token};
use lsl_text::NoMemory;
use lsl_value::Kind;
use std::alloc::Global;

/// Where a variable is kept: at a place among its routine's or among the globals. The result of a routine is reported
/// as if it were one.
#[derive(Clone, Copy, Debug, PartialEq, Eq)]
pub enum Slot {
    Local(usize),
    Global(usize),
    Result,
}

/// A variable: its name's token, its kind, and its slot.
#[derive(Clone, Copy, Debug)]
pub struct Variable {
    pub name: usize,
    pub kind: Kind,
    pub slot: Slot,
}

/// The variables that a routine can name: the globals, and its own, the inner ones last.
#[derive(Drop)]
pub struct Scope<'a> {
    tokens: &'a [Token],
    globals: Vec<Variable>,
    pub locals: Vec<Variable>,
    slots: usize,
}

impl<'a> Scope<'a> {
    pub fn new(
        alloc: Global,
        tokens: &'a [Token],
        outline: &Outline,
    ) -> Result<Scope<'a>, NoMemory> {
        let mut globals = Vec::new(alloc);
        for (place, declared) in outline.globals.iter().enumerate() {
            globals.push(Variable {
                name: declared.name,
                kind: declared.kind,
                slot: Slot::Global(place),
            })?;
        }
        Ok(Scope {
            tokens,
            globals,
            locals: Vec::new(alloc),
            slots: 0,
        })
    }

    /// Begins a routine.
    pub fn clear(&mut self) {
        self.locals.truncate(0);
        self.slots = 0;
    }

    /// Declares a variable.
    pub fn declare(&mut self, name: usize, kind: Kind) -> Result<Variable, NoMemory> {
        let variable = Variable {
            name,
            kind,
            slot: Slot::Local(self.slots),
        };
        self.slots = self.slots.saturating_add(1);
        self.locals.push(variable)?;
        Ok(variable)
    }

    /// The variable that a name refers to.
    pub fn visible(&self, name: &[u8]) -> Option<Variable> {
        let own = self.locals.iter().rev();
        let mut all = own.chain(self.globals.iter());
        all.find(|it| name_at(self.tokens, it.name) == name)
            .copied()
    }

    /// Whether a variable's name refers to it here.
    pub fn sees(&self, variable: &Variable) -> bool {
        match self.visible(name_at(self.tokens, variable.name)) {
            Some(found) => found.slot == variable.slot,
            None => false,
        }
    }

    /// The globals that no parameter hides.
    pub fn push_globals(&self, told: &mut Vec<Variable>) -> Result<(), NoMemory> {
        for variable in &self.globals {
            if self.sees(variable) {
                told.push(*variable)?;
            }
        }
        Ok(())
    }

    /// A local of the kind with a value that nothing reads once a result is known: of the names, in the order in which
    /// they were declared first, the last that refers to one.
    pub fn holder(&self, kind: Kind) -> Option<Variable> {
        for place in (0..self.locals.len()).rev() {
            let name = name_at(self.tokens, self.locals[place].name);
            let earlier = Part { from: 0, to: place };
            let is_first = !earlier
                .of(self.locals.as_slice())
                .iter()
                .any(|it| name_at(self.tokens, it.name) == name);
            if let Some(found) = self.visible(name)
                && is_first
                && found.kind == kind
            {
                return Some(found);
            }
        }
        None
    }

    /// The variables that these tokens may change, each once.
    pub fn changed(&self, alloc: Global, values: Part) -> Result<Vec<Variable>, NoMemory> {
        let mut found = Vec::new(alloc);
        for at in values.from..values.to {
            if is_changed(self.tokens, values, at)
                && let Some(variable) = self.visible(name_at(self.tokens, at))
            {
                add(&mut found, variable)?;
            }
        }
        Ok(found)
    }
}

/// Adds a variable that isn't there yet.
pub fn add(found: &mut Vec<Variable>, variable: Variable) -> Result<(), NoMemory> {
    if !found.iter().any(|it| it.slot == variable.slot) {
        found.push(variable)?;
    }
    Ok(())
}

/// Whether a name among values is assigned, or stepped.
fn is_changed(tokens: &[Token], values: Part, at: usize) -> bool {
    if !matches!(sort_at(tokens, at), Some(Sort::Name(_))) {
        return false;
    }
    let next = sort_at(tokens, at.saturating_add(1));
    if is_step(next) || is_assignment(next) {
        return true;
    }
    values.from < at && is_step(sort_at(tokens, at.saturating_sub(1)))
}

fn is_step(sort: Option<&Sort>) -> bool {
    matches!(sort, Some(Sort::PlusPlus | Sort::MinusMinus))
}

fn is_assignment(sort: Option<&Sort>) -> bool {
    matches!(
        sort,
        Some(
            Sort::Assign
                | Sort::PlusAssign
                | Sort::MinusAssign
                | Sort::StarAssign
                | Sort::SlashAssign
                | Sort::PercentAssign
        )
    )
}

/// Whether the token at a place is the name of a call.
pub fn is_call(tokens: &[Token], at: usize) -> bool {
    matches!(sort_at(tokens, at), Some(Sort::Name(_)))
        && matches!(sort_at(tokens, at.saturating_add(1)), Some(Sort::ParenOpen))
}

/// Whether a call among these tokens lets a script sleep.
pub fn sleeps_in(tokens: &[Token], values: Part) -> bool {
    (values.from..values.to).any(|at| is_call(tokens, at)
        && name_at(tokens, at) == b"llSleep".as_slice())
}
