//! Declarations and labels.

ghost use Rattle.std.specs.Prelude.{◌≡◌, not};
ghost use Rattle.lsl_tree.specs.Statements.{value_of};
ghost use Rattle.lsl_tree.specs.Nodes.{node_of};
ghost use Rattle.lsl_tree.specs.Actions.{action_of};
ghost use Rattle.lsl_bodies.specs.Known.{known_of};
ghost use Rattle.lsl_bodies.specs.Scope.{frame_of, spelled, is_since, is_since_number};
ghost use Rattle.lsl_bodies.specs.Judgement.{at};
ghost use Rattle.lsl_bodies.specs.Verdict.{Rules, must_verdict};
ghost use Rattle.lsl_bodies.specs.ActionVerdicts.{label_verdict, initialised_verdict, declared_verdict, labelled_verdict};
ghost use Rattle.lsl_bodies.specs.ActionVerdicts.{is_fresh};

use crate::checker::Checker;
use crate::conversions::{as_kind, empty_node};
use crate::faults::{Refused, TypeKind, fault};
use crate::frame::Frame;
use crate::table::is_reserved;
use lsl_tree::{Action, Expr, Name, Node};
use lsl_value::Kind;
use std::alloc::Global;

impl Checker<'_> {
    /// A declaration: the variable isn't visible in its own value.
    pub(crate) fn declaration(
        &self,
        frame: &mut Frame,
        kind: Kind,
        name: &Name,
        value: &Option<Expr>,
    ) -> Result<Action, Refused>
        ensures { Rules (λ a. (action_of a, frame_of frame.new)) result
            (declared_verdict (known_of self.now.known.now) (frame_of frame.old) kind name.now (value_of value.now)) }
    {
        let value = self.initialised(frame, kind, name, value)?;
        let slot = frame.slots.len();
        frame.declare(self.alloc, name, kind)?;
        Ok(Action::Declare { slot, value })
    }

    fn initialised(
        &self,
        frame: &Frame,
        kind: Kind,
        name: &Name,
        initial: &Option<Expr>,
    ) -> Result<Node, Refused>
        ensures { Rules node_of result
            (initialised_verdict (known_of self.now.known.now)
            (frame_of frame.now) kind name.now (value_of initial.now)) }
    {
        match initial {
            None => {
                frame.fresh(name)?;
                Ok(empty_node(self.alloc, kind)?)
            }
            Some(expr) => {
                let node = self.value(&frame.scope, expr)?;
                frame.fresh(name)?;
                as_kind(self.alloc, kind, node, expr)
            }
        }
    }
}

impl Frame {
    /// The block's next label.
    pub(crate) fn pass_label(&mut self, alloc: Global, name: &Name) -> Result<Action, Refused>
        ensures { Rules (λ a. (action_of a, frame_of self.new)) result
            (labelled_verdict (frame_of self.old) name.now) }
    {
        self.unpassed(name)?;
        let label = self.label(name)?;
        self.passed.push(alloc, name.text.as_str())?;
        Ok(Action::Label { label })
    }

    /// The number of a label in the blocks around.
    pub(crate) fn label(&self, name: &Name) -> Result<usize, Refused>
        ensures { Rules (λ n. n) result (label_verdict (frame_of self.now) name.now) }
    {
        match self.labels.find(name.text.as_str()) {
            Some(number) => Ok(number),
            None => Err(fault(TypeKind::UnknownLabel, name.span)),
        }
    }

    /// A local variable may have this name here.
    fn fresh(&self, name: &Name) -> Result<(), Refused>
        ensures { Rules (λ u. u) result
            (must_verdict (is_fresh (frame_of self.now) name.now) (at TypeKind.DoubleName name.now.span)) }
    {
        let text = name.text.as_str();
        if is_reserved(text) || since(self.scope.names.find(text), self.first_variable) {
            Err(fault(TypeKind::DoubleName, name.span))
        } else {
            Ok(())
        }
    }

    /// The block has no label of this name yet.
    fn unpassed(&self, name: &Name) -> Result<(), Refused>
        ensures { Rules (λ u. u) result
            (must_verdict (not (is_since self.now.passed self.now.first_label (spelled name.now)))
            (at TypeKind.DoubleName name.now.span)) }
    {
        if since(self.passed.find(name.text.as_str()), self.first_label) {
            Err(fault(TypeKind::DoubleName, name.span))
        } else {
            Ok(())
        }
    }
}

fn since(number: Option<usize>, first: usize) -> bool
    ensures { result ≡ is_since_number first number }
{
    match number {
        None => false,
        Some(number) => first <= number,
    }
}
