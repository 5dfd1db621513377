//! Look-ups of names.

ghost use Rattle.std.specs.Prelude.{◌≡◌, ◌↔◌, IsTrue, OnOk};
ghost use Rattle.lsl_bodies.specs.Scope.{scope_of, frame_of, spelled, variable_of, declared};
ghost use Rattle.lsl_bodies.specs.Verdict.{Rules};
ghost use Rattle.lsl_bodies.specs.VariableVerdicts.{constant_target_verdict, target_verdict, variable_verdict};
ghost use Rattle.lsl_bodies.specs.VariableVerdicts.{counter_verdict};

use crate::faults::{Refused, TypeKind, fault};
use crate::frame::{Scope, Target, Variable};
use crate::table::constant;
use lsl_text::NoMemory;
use lsl_tree::{Name, Place};
use lsl_value::Kind;
use std::alloc::Global;

impl Scope {
    /// The variable that the name refers to.
    pub fn variable(&self, name: &Name) -> Option<Variable>
        ensures { result ≡ variable_of (scope_of self.now) (spelled name.now) }
    {
        let number = self.names.find(name.text.as_str())?;
        self.variables.get(number).copied()
    }

    /// What the name refers to where no call is meant.
    pub(crate) fn target(&self, name: &Name) -> Result<Target, Refused>
        ensures { Rules (λ t. t) result (target_verdict (scope_of self.now) name.now) }
    {
        match self.variable(name) {
            Some(variable) => Ok(Target::Kept(variable)),
            None => constant_target(name),
        }
    }

    /// Adds a variable.
    pub fn declare(
        &mut self,
        alloc: Global,
        name: &Name,
        variable: Variable,
    ) -> Result<(), NoMemory>
        ensures { OnOk result (scope_of self.new ≡ declared (scope_of self.old) (spelled name.now) variable) }
    {
        self.names.push(alloc, name.text.as_str())?;
        self.variables.push(variable)?;
        Ok(())
    }
}

fn constant_target(name: &Name) -> Result<Target, Refused>
    ensures { Rules (λ t. t) result (constant_target_verdict name.now) }
{
    match constant(name.text.as_str()) {
        Some(id) => Ok(Target::Fixed(id)),
        None => Err(fault(TypeKind::UnknownName, name.span)),
    }
}

/// The variable that is assigned: a constant can't be.
pub(crate) fn assignable(target: Target, name: &Name) -> Result<Variable, Refused>
    ensures { Rules (λ v. v) result (variable_verdict target name.now) }
{
    match target {
        Target::Kept(variable) => Ok(variable),
        Target::Fixed(_) => Err(fault(TypeKind::NotVariable, name.span)),
    }
}

/// The place of a variable that is stepped: it is an integer.
pub(crate) fn counter(target: Target, name: &Name) -> Result<Place, Refused>
    ensures { Rules (λ p. p) result (counter_verdict target name.now) }
{
    match target {
        Target::Kept(
            Variable {
                place,
                kind: Kind::Int,
            },
        ) => Ok(place),
        _ => Err(fault(TypeKind::NotVariable, name.span)),
    }
}
