//! Statements and blocks: their meaning, or their first fault.

ghost use Rattle.std.specs.Prelude.{◌≡◌, OnOk};
ghost use Rattle.lsl_tree.specs.Statements as stmt;
ghost use Rattle.lsl_tree.specs.Statements.{stmt_of, item_of, items_of};
ghost use Rattle.lsl_tree.specs.Expressions.{expr_of, exprs_of};
ghost use Rattle.lsl_tree.specs.Actions.{action_of, actions_of};
ghost use Rattle.lsl_bodies.specs.Known.{known_of};
ghost use Rattle.lsl_bodies.specs.Scope.{frame_of, scope_of, with_slots};
ghost use Rattle.lsl_bodies.specs.Verdict.{Rules};
ghost use Rattle.lsl_bodies.specs.ActionVerdicts.{expression_verdict, statement_verdict, items_verdict, item_verdict};

use crate::checker::Checker;
use crate::faults::Refused;
use crate::forms::{branch, branches, done_once, effect_actions, repeated};
use crate::frame::{Frame, Scope};
use lsl_text::Span;
use lsl_tree::{Action, Expr, Item, Stmt};

impl Checker<'_> {
    /// A statement.
    #[cycle(statement)]
    pub(crate) fn statement(&self, frame: &mut Frame, stmt: &Stmt) -> Result<Action, Refused>
        ensures found { Rules (λ a. (action_of a, frame.new.slots.items)) result
            (statement_verdict (known_of self.now.known.now) self.now.home (frame_of frame.old) (stmt_of stmt.now)) }
        ensures unchanged { OnOk result (frame_of frame.new ≡ with_slots (frame_of frame.old) frame.new.slots.items) }
    {
        match stmt {
            Stmt::Block { items } => self.block(frame, items.as_slice()),
            Stmt::Empty => Ok(Action::Block {
                actions: Vec::new(self.alloc),
            }),
            Stmt::Expression { value: expr } => self.expression(&frame.scope, expr),
            Stmt::If { test, then, .. } => {
                let test = self.value(&frame.scope, test)?;
                let then = self.statement(frame, then)?;
                Ok(branch(self.alloc, test, then)?)
            }
            Stmt::IfElse {
                test,
                then,
                otherwise,
                ..
            } => {
                let test = self.value(&frame.scope, test)?;
                let then = self.statement(frame, then)?;
                let otherwise = self.statement(frame, otherwise)?;
                Ok(branches(self.alloc, test, then, otherwise)?)
            }
            Stmt::While { span, test, body } => self.while_loop(frame, *span, body, test),
            Stmt::Do { span, body, test } => self.do_loop(frame, *span, body, test),
            Stmt::For {
                span,
                start,
                test,
                step,
                body,
            } => self.for_loop(frame, *span, body, start.as_slice(), test, step.as_slice()),
            Stmt::Jump { span, label } => frame.jump(*span, label),
            Stmt::Return { span, value } => self.returned(&frame.scope, *span, value),
            Stmt::State { span, state } => self.change(*span, state),
        }
    }

    #[inline(never)]
    fn expression(&self, scope: &Scope, expr: &Expr) -> Result<Action, Refused>
        ensures { Rules action_of result
            (expression_verdict (known_of self.now.known.now) (scope_of scope.now) (expr_of expr.now)) }
    {
        Ok(Action::Effect {
            effect: self.effect(scope, expr)?,
        })
    }

    #[inline(never)]
    #[cycle(statement)]
    fn while_loop(
        &self,
        frame: &mut Frame,
        span: Span,
        body: &Stmt,
        test: &Expr,
    ) -> Result<Action, Refused>
        ensures found { Rules (λ a. (action_of a, frame.new.slots.items)) result
            (statement_verdict (known_of self.now.known.now) self.now.home
            (frame_of frame.old) (stmt.While span (expr_of test.now) (stmt_of body.now))) }
        ensures unchanged { OnOk result (frame_of frame.new ≡ with_slots (frame_of frame.old) frame.new.slots.items) }
    {
        let test = self.value(&frame.scope, test)?;
        let body = self.statement(frame, body)?;
        Ok(repeated(self.alloc, span, test, Vec::new(self.alloc), body)?)
    }

    #[inline(never)]
    #[cycle(statement)]
    fn do_loop(
        &self,
        frame: &mut Frame,
        span: Span,
        body: &Stmt,
        test: &Expr,
    ) -> Result<Action, Refused>
        ensures found { Rules (λ a. (action_of a, frame.new.slots.items)) result
            (statement_verdict (known_of self.now.known.now) self.now.home
            (frame_of frame.old) (stmt.Do span (stmt_of body.now) (expr_of test.now))) }
        ensures unchanged { OnOk result (frame_of frame.new ≡ with_slots (frame_of frame.old) frame.new.slots.items) }
    {
        let body = self.statement(frame, body)?;
        let test = self.value(&frame.scope, test)?;
        Ok(done_once(self.alloc, span, body, test)?)
    }

    #[inline(never)]
    #[cycle(statement)]
    fn for_loop(
        &self,
        frame: &mut Frame,
        span: Span,
        body: &Stmt,
        start: &[Expr],
        test: &Expr,
        step: &[Expr],
    ) -> Result<Action, Refused>
        ensures found { Rules (λ a. (action_of a, frame.new.slots.items)) result
            (statement_verdict (known_of self.now.known.now) self.now.home (frame_of frame.old)
            (stmt.For span (exprs_of start.now) (expr_of test.now) (exprs_of step.now) (stmt_of body.now))) }
        ensures unchanged { OnOk result (frame_of frame.new ≡ with_slots (frame_of frame.old) frame.new.slots.items) }
    {
        let start = self.effects(&frame.scope, start)?;
        let mut actions = effect_actions(self.alloc, start)?;
        let test = self.value(&frame.scope, test)?;
        let steps = self.effects(&frame.scope, step)?;
        let body = self.statement(frame, body)?;
        actions.push(repeated(self.alloc, span, test, steps, body)?)?;
        Ok(Action::Block { actions })
    }

    /// A block, and what is visible after it.
    #[inline(never)]
    #[cycle(statement)]
    fn block(&self, frame: &mut Frame, items: &[Item]) -> Result<Action, Refused>
        ensures found { Rules (λ a. (action_of a, frame.new.slots.items)) result
            (statement_verdict (known_of self.now.known.now) self.now.home
            (frame_of frame.old) (stmt.Block (items_of items.now))) }
        ensures unchanged { OnOk result (frame_of frame.new ≡ with_slots (frame_of frame.old) frame.new.slots.items) }
    {
        let outer = frame.open(self.alloc, items)?;
        let actions = self.actions(frame, items)?;
        frame.close(outer);
        Ok(Action::Block { actions })
    }

    /// The items of a block, in order.
    #[cycle(statement)]
    pub(crate) fn actions(&self, frame: &mut Frame, items: &[Item]) -> Result<Vec<Action>, Refused>
        ensures { Rules (λ v. (actions_of v.items, frame_of frame.new)) result
            (items_verdict (known_of self.now.known.now) self.now.home (frame_of frame.old) (items_of items.now)) }
    {
        let mut actions = Vec::with_capacity(self.alloc, items.len())?;
        for entry in items {
            actions.push(self.item(frame, entry)?)?;
        }
        Ok(actions)
    }

    #[cycle(statement)]
    fn item(&self, frame: &mut Frame, item: &Item) -> Result<Action, Refused>
        ensures { Rules (λ a. (action_of a, frame_of frame.new)) result
            (item_verdict (known_of self.now.known.now) self.now.home (frame_of frame.old) (item_of item.now)) }
    {
        match item {
            Item::Declaration { kind, name, value } => self.declaration(frame, *kind, name, value),
            Item::Label { name } => frame.pass_label(self.alloc, name),
            Item::Statement { statement: stmt } => self.statement(frame, stmt),
        }
    }
}
