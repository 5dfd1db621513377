//! What is visible as blocks begin and end.

ghost use Rattle.std.specs.Prelude.{◌≡◌, length, OnOk, IfOk, [], ◌++◌, ◌∷◌};
ghost use Rattle.lsl_tree.specs.Statements.{item_of, items_of};
ghost use Rattle.lsl_bodies.specs.Scope.{frame_of, scope_of, spelled, with_local, with_locals, with_passed, opened};
ghost use Rattle.lsl_bodies.specs.Scope.{entered, labels_with, labels_of};
ghost use Rattle.lsl_bodies.specs.Blocks.{IsOuter, closed};

use crate::frame::{Frame, Scope, Variable};
use crate::names::Names;
use lsl_text::NoMemory;
use lsl_tree::{Item, Name, Param, Place};
use lsl_value::Kind;
use std::alloc::Global;

/// What was visible where a block begins: the numbers of variables, labels and passed labels, and the numbers of the
/// block around.
#[derive(Clone, Copy)]
pub struct Outer {
    names: usize,
    variables: usize,
    labels: usize,
    passed: usize,
    first_variable: usize,
    first_label: usize,
}

impl Frame {
    /// Where no function has begun.
    pub fn new(alloc: Global, scope: Scope) -> Frame
        ensures { frame_of result ≡ entered (scope_of scope) [] }
    {
        Frame {
            scope,
            slots: Vec::new(alloc),
            labels: Names::new(alloc),
            passed: Names::new(alloc),
            first_variable: 0,
            first_label: 0,
        }
    }

    /// Declares a local variable, with the next slot.
    pub(crate) fn declare(&mut self, alloc: Global, name: &Name, kind: Kind) -> Result<(), NoMemory>
        ensures { OnOk result (frame_of self.new ≡ with_local (frame_of self.old) (spelled name.now) kind) }
    {
        let place = Place::Slot(self.slots.len());
        self.scope.declare(alloc, name, Variable { place, kind })?;
        self.slots.push(kind)?;
        Ok(())
    }

    /// Declares the parameters of a function.
    pub(crate) fn declare_all(&mut self, alloc: Global, params: &[Param]) -> Result<(), NoMemory>
        ensures { OnOk result (frame_of self.new ≡ with_locals (frame_of self.old) params.now) }
    {
        for param in params {
            self.declare(alloc, &param.name, param.kind)?;
        }
        Ok(())
    }

    /// Begins a block.
    pub(crate) fn open(&mut self, alloc: Global, items: &[Item]) -> Result<Outer, NoMemory>
        ensures opened { OnOk result (frame_of self.new ≡ opened (frame_of self.old) (items_of items.now)) }
        ensures outer { IfOk result (λ outer. IsOuter outer (frame_of self.old)) }
    {
        let outer = Outer {
            names: self.scope.names.len(),
            variables: self.scope.variables.len(),
            labels: self.labels.len(),
            passed: self.passed.len(),
            first_variable: self.first_variable,
            first_label: self.first_label,
        };
        self.first_variable = self.scope.names.len();
        self.first_label = self.passed.len();
        push_labels(alloc, &mut self.labels, items)?;
        Ok(outer)
    }

    /// Ends a block, and removes what was declared in it.
    pub(crate) fn close(&mut self, outer: Outer)
        ensures { frame_of self.new ≡ closed (frame_of self.old) outer }
    {
        self.scope.names.truncate(outer.names);
        self.scope.variables.truncate(outer.variables);
        self.labels.truncate(outer.labels);
        self.passed.truncate(outer.passed);
        self.first_variable = outer.first_variable;
        self.first_label = outer.first_label;
    }
}

/// The labels directly in a block.
fn push_labels(alloc: Global, labels: &mut Names, items: &[Item]) -> Result<(), NoMemory>
    ensures { OnOk result (labels.new ≡ labels_of (items_of items.now) ++ labels.old) }
{
    for item in items {
        push_label(alloc, labels, item)?;
    }
    Ok(())
}

fn push_label(alloc: Global, labels: &mut Names, item: &Item) -> Result<(), NoMemory>
    ensures { OnOk result (labels.new ≡ labels_with (item_of item.now) labels.old) }
{
    if let Item::Label { name } = item {
        labels.push(alloc, name.text.as_str())?;
    }
    Ok(())
}
