//! `jump`, `state` and `return`.

ghost use Rattle.std.specs.Prelude.{◌≡◌};
ghost use Rattle.lsl_tree.specs.Expressions.{expr_of};
ghost use Rattle.lsl_tree.specs.Statements.{value_of};
ghost use Rattle.lsl_tree.specs.Nodes.{node_of};
ghost use Rattle.lsl_tree.specs.Actions.{action_of};
ghost use Rattle.lsl_bodies.specs.Known.{known_of};
ghost use Rattle.lsl_bodies.specs.Scope.{scope_of, frame_of};
ghost use Rattle.lsl_bodies.specs.Spans.{first_span};
ghost use Rattle.lsl_bodies.specs.Verdict.{Rules};
ghost use Rattle.lsl_bodies.specs.ActionForms.{home_kind};
ghost use Rattle.lsl_bodies.specs.ActionVerdicts.{jump_verdict, named_state_verdict, change_verdict, returned_verdict};
ghost use Rattle.lsl_bodies.specs.ActionVerdicts.{returned_value_verdict, returned_nothing_verdict};

use crate::checker::Checker;
use crate::conversions::as_kind;
use crate::faults::{Refused, TypeKind, fault};
use crate::frame::{Frame, Home, Scope};
use crate::known::Known;
use lsl_text::Span;
use lsl_tree::{Action, Expr, Name, Node, StateName};
use lsl_value::Kind;

impl Frame {
    /// A jump to a label of the blocks around.
    pub(crate) fn jump(&self, span: Span, label: &Name) -> Result<Action, Refused>
        ensures { Rules action_of result (jump_verdict (frame_of self.now) span label.now) }
    {
        Ok(Action::Jump {
            line: span.line,
            label: self.label(label)?,
        })
    }
}

impl Known {
    /// The number of a state.
    pub(crate) fn state(&self, state: &StateName) -> Result<usize, Refused>
        ensures { Rules (λ n. n) result (named_state_verdict (known_of self.now) state.now) }
    {
        match state {
            StateName::Default => Ok(0),
            StateName::Named(name) => match self.states.find(name.text.as_str()) {
                Some(before) => Ok(before + 1),
                None => Err(fault(TypeKind::UnknownName, name.span)),
            },
        }
    }
}

impl Home {
    /// The kind of the returned value, if there is one.
    pub(crate) fn kind(self) -> Option<Kind>
        ensures { result ≡ home_kind self }
    {
        match self {
            Home::Handler => None,
            Home::Function { kind } => kind,
        }
    }
}

impl Checker<'_> {
    /// A state is left in handlers alone.
    pub(crate) fn change(&self, span: Span, state: &StateName) -> Result<Action, Refused>
        ensures { Rules action_of result (change_verdict (known_of self.now.known.now) self.now.home span state.now) }
    {
        match self.home {
            Home::Handler => Ok(Action::State {
                state: self.known.state(state)?,
            }),
            Home::Function { .. } => Err(fault(TypeKind::StateInFunction, span)),
        }
    }

    /// `return`, with a value or with none.
    pub(crate) fn returned(
        &self,
        scope: &Scope,
        span: Span,
        expr: &Option<Expr>,
    ) -> Result<Action, Refused>
        ensures { Rules action_of result
            (returned_verdict (known_of self.now.known.now) self.now.home
            (scope_of scope.now) span (value_of expr.now)) }
    {
        match expr {
            None => self.return_nothing(span),
            Some(expr) => {
                let node = self.value(scope, expr)?;
                self.return_value(span, node, expr)
            }
        }
    }

    fn return_nothing(&self, span: Span) -> Result<Action, Refused>
        ensures { Rules action_of result (returned_nothing_verdict (home_kind self.now.home) span) }
    {
        match self.home.kind() {
            None => Ok(Action::Return),
            Some(kind) => {
                let wrong = TypeKind::WrongKind {
                    wanted: Some(kind),
                    found: None,
                };
                Err(fault(wrong, span))
            }
        }
    }

    fn return_value(&self, span: Span, node: Node, expr: &Expr) -> Result<Action, Refused>
        ensures { Rules action_of result
            (returned_value_verdict self.now.home span (node_of node) (first_span (expr_of expr.now))) }
    {
        match self.home.kind() {
            None => {
                let wrong = TypeKind::WrongKind {
                    wanted: None,
                    found: Some(node.kind()),
                };
                Err(fault(wrong, span))
            }
            Some(kind) => Ok(Action::ReturnValue {
                value: as_kind(self.alloc, kind, node, expr)?,
            }),
        }
    }
}
