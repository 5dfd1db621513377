//! Expressions used as statements: they need not have a value.

ghost use Rattle.std.specs.Prelude.{◌≡◌, map};
ghost use Rattle.lsl_tree.specs.Expressions.{expr_of, exprs_of};
ghost use Rattle.lsl_tree.specs.Effects.{effect_of};
ghost use Rattle.lsl_bodies.specs.Known.{known_of};
ghost use Rattle.lsl_bodies.specs.Scope.{scope_of};
ghost use Rattle.lsl_bodies.specs.Verdict.{Rules};
ghost use Rattle.lsl_bodies.specs.ValueVerdicts.{effect_verdict, effects_verdict};

use crate::checker::Checker;
use crate::faults::Refused;
use crate::frame::Scope;
use lsl_tree::{Effect, Expr};

impl Checker<'_> {
    /// An expression used as a statement.
    pub(crate) fn effect(&self, scope: &Scope, expr: &Expr) -> Result<Effect, Refused>
        ensures { Rules effect_of result
            (effect_verdict (known_of self.now.known.now) (scope_of scope.now) (expr_of expr.now)) }
    {
        match expr {
            Expr::Parens { inner, .. } => self.effect(scope, inner),
            Expr::Call { name, arguments } => {
                let nodes = self.values(scope, arguments.as_slice())?;
                let called = self.known.callable(name)?;
                called.effect(self.alloc, name, arguments.as_slice(), nodes)
            }
            _ => Ok(Effect::Value {
                node: self.value(scope, expr)?,
            }),
        }
    }

    /// Expressions used as statements, from left to right.
    pub(crate) fn effects(&self, scope: &Scope, exprs: &[Expr]) -> Result<Vec<Effect>, Refused>
        ensures { Rules (λ v. map effect_of v.items) result
            (effects_verdict (known_of self.now.known.now) (scope_of scope.now) (exprs_of exprs.now)) }
    {
        let mut effects = Vec::with_capacity(self.alloc, exprs.len())?;
        for expr in exprs {
            effects.push(self.effect(scope, expr)?)?;
        }
        Ok(effects)
    }
}
