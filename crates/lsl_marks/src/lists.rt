//! The lists of a `for` in a copy, where calls without a value are allowed.

use crate::markers::{After, Moment};
use crate::statements::Statement;
use crate::tokens::{Part, depth_after, semicolon_from, sort_at, start_at};
use crate::variables::{Variable, sleeps_in};
use crate::writer::{Place, Sign, Writer};
use lsl_lex::{Sort, Token};
use lsl_text::NoMemory;
use std::alloc::Global;

/// The parts of a `for` in its parentheses.
#[derive(Clone, Copy)]
pub struct Lists {
    pub starts: Part,
    pub condition: Part,
    pub steps: Part,
}

impl Writer<'_, '_> {
    pub fn lists_of(&self, values: Part) -> Lists {
        let first = semicolon_from(self.source.tokens, values.from);
        let middle = first.saturating_add(1);
        let second = semicolon_from(self.source.tokens, middle);
        Lists {
            starts: Part {
                from: values.from,
                to: first,
            },
            condition: Part {
                from: middle,
                to: second,
            },
            steps: Part {
                from: second.saturating_add(1),
                to: values.to,
            },
        }
    }

    pub fn lists(&mut self, statement: &Statement) -> Result<(), NoMemory> {
        let lists = self.lists_of(statement.values);
        self.list(lists.starts, statement.first, After::Nothing)?;
        self.list(lists.steps, statement.first, After::Tick)?;
        let carried = self.scope.changed(self.alloc, lists.condition)?;
        let after = if lists.steps.is_empty() {
            After::Tick
        } else {
            self.before_sleeps(lists.steps)
        };
        self.open(Some(*statement), carried, after)
    }

    /// Markers after each call in a list that sleeps, and at its end where variables may have changed or a tick passes.
    fn list(&mut self, list: Part, at: usize, end: After) -> Result<(), NoMemory> {
        let tokens = self.source.tokens;
        for value in &values_of(self.alloc, tokens, list)? {
            if sleeps_in(tokens, *value) {
                let rest = Part {
                    from: value.to,
                    to: list.to,
                };
                self.copy_to(start_at(tokens, value.to))?;
                self.list_note(at, &[], self.before_sleeps(rest))?;
            }
        }
        let changed = self.scope.changed(self.alloc, list)?;
        if !changed.is_empty() || end == After::Tick && !list.is_empty() {
            self.copy_to(start_at(tokens, list.to))?;
            self.list_note(at, changed.as_slice(), end)?;
        }
        Ok(())
    }

    fn list_note(&mut self, at: usize, says: &[Variable], after: After) -> Result<(), NoMemory> {
        let place = Place {
            moment: Moment::Note,
            first: at,
            last: at,
            after,
        };
        self.mark(place, says, None, Sign::Comma)
    }
}

/// The values of a list, which commas part.
fn values_of(alloc: Global, tokens: &[Token], list: Part) -> Result<Vec<Part>, NoMemory> {
    let mut values = Vec::new(alloc);
    let mut depth = 0;
    let mut from = list.from;
    for at in list.from..list.to {
        let sort = sort_at(tokens, at);
        depth = depth_after(depth, sort);
        if depth == 0 && matches!(sort, Some(Sort::Comma)) {
            values.push(Part { from, to: at })?;
            from = at.saturating_add(1);
        }
    }
    if list.from < list.to {
        values.push(Part { from, to: list.to })?;
    }
    Ok(values)
}
