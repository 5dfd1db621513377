//! Variables and constants that must have a value, and `++` and `--`.

ghost use Rattle.std.specs.Prelude.{◌≡◌};
ghost use Rattle.lsl_tree.specs.Nodes.{node_of};
ghost use Rattle.lsl_bodies.specs.Scope.{scope_of};
ghost use Rattle.lsl_bodies.specs.Conversions.{step_operator};
ghost use Rattle.lsl_bodies.specs.Verdict.{Rules};
ghost use Rattle.lsl_bodies.specs.VariableVerdicts.{read_verdict, step_behind_verdict, step_before_verdict};

use crate::faults::Refused;
use crate::frame::{Scope, Target, Variable};
use crate::scope::counter;
use crate::table::constant_kind;
use lsl_tree::{Name, Node, StepOp};
use lsl_value::{BinaryOp, Kind};
use std::alloc::Global;

impl Scope {
    /// The value of a variable or a constant.
    pub(crate) fn read(&self, name: &Name) -> Result<Node, Refused>
        ensures { Rules node_of result (read_verdict (scope_of self.now) name.now) }
    {
        match self.target(name)? {
            Target::Kept(Variable { place, kind }) => Ok(Node::Variable { place, kind }),
            Target::Fixed(id) => Ok(Node::Constant {
                id,
                kind: constant_kind(id),
            }),
        }
    }

    /// `x++` and `x--`.
    pub(crate) fn step_behind(&self, name: &Name, op: StepOp) -> Result<Node, Refused>
        ensures { Rules node_of result (step_behind_verdict (scope_of self.now) name.now op) }
    {
        let target = self.target(name)?;
        let place = counter(target, name)?;
        Ok(Node::StepBehind { place, op })
    }

    /// `++x` is `x = x + 1`.
    pub(crate) fn step_before(
        &self,
        alloc: Global,
        name: &Name,
        op: StepOp,
    ) -> Result<Node, Refused>
        ensures { Rules node_of result (step_before_verdict (scope_of self.now) name.now op) }
    {
        let target = self.target(name)?;
        let place = counter(target, name)?;
        let one = Node::Int { value: 1 };
        let old = Node::Variable {
            place,
            kind: Kind::Int,
        };
        let stepped = Node::Binary {
            op: step_operator(op),
            kind: Kind::Int,
            left: Box::new(alloc, old)?,
            right: Box::new(alloc, one)?,
        };
        Ok(Node::Assign {
            place,
            kind: Kind::Int,
            value: Box::new(alloc, stepped)?,
        })
    }
}

fn step_operator(op: StepOp) -> BinaryOp
    ensures { result ≡ step_operator op }
{
    match op {
        StepOp::Increment => BinaryOp::Add,
        StepOp::Decrement => BinaryOp::Sub,
    }
}
