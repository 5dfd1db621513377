//! Calls: what is called, and its arguments as the kinds of the parameters.

ghost use Rattle.std.specs.Prelude.{◌≡◌, length, slice_get};
ghost use Rattle.std.specs.Option.{option_map, option_and_then};
ghost use Rattle.lsl_tree.specs.Expressions.{expr_of, exprs_of};
ghost use Rattle.lsl_tree.specs.Nodes.{node_of, nodes_of};
ghost use Rattle.lsl_tree.specs.Effects.{effect_of};
ghost use Rattle.lsl_bodies.specs.Names.{nearest};
ghost use Rattle.lsl_bodies.specs.Scope.{spelled};
ghost use Rattle.lsl_bodies.specs.Spans.{first_span};
ghost use Rattle.lsl_bodies.specs.Known.{known_of, function_of};
ghost use Rattle.lsl_bodies.specs.Calling.{calling_of, kinds_in};
ghost use Rattle.lsl_bodies.specs.Verdict.{Rules};
ghost use Rattle.lsl_bodies.specs.CallVerdicts.{callable_verdict, builtin_callable_verdict, counted_verdict};
ghost use Rattle.lsl_bodies.specs.CallVerdicts.{call_value_verdict, call_effect_verdict, arguments_verdict};
ghost use Rattle.lsl_bodies.specs.CallVerdicts.{argument_verdict};

use crate::conversions::as_kind;
use crate::faults::{Refused, TypeKind, fault};
use crate::known::Known;
use crate::table::{builtin, params, result_kind};
use lsl_table::Kinds;
use lsl_tree::{Callee, Effect, Expr, Name, Node};
use lsl_value::Kind;
use std::alloc::Global;

/// The kinds of parameters: of a function of the script, or of a built-in call.
#[derive(Drop)]
pub(crate) enum Params<'a> {
    Function(&'a [Kind]),
    Builtin(Kinds),
}

/// What is called, with the kinds of its parameters and of its result.
#[derive(Drop)]
pub(crate) struct Calling<'a> {
    callee: Callee,
    params: Params<'a>,
    result: Option<Kind>,
}

impl Params<'_> {
    fn kinds(&self) -> &[Kind]
        ensures { result.now ≡ kinds_in self.now }
    {
        match self {
            Params::Function(kinds) => kinds,
            Params::Builtin(kinds) => kinds.as_slice(),
        }
    }
}

impl Known {
    /// What a called name refers to.
    pub(crate) fn callable(&self, name: &Name) -> Result<Calling<'_>, Refused>
        ensures { Rules calling_of result (callable_verdict (known_of self.now) name.now) }
    {
        match self.function(name) {
            Some(calling) => Ok(calling),
            None => builtin_callable(name),
        }
    }

    fn function(&self, name: &Name) -> Option<Calling<'_>>
        ensures { option_map calling_of result
            ≡ option_and_then (function_of (known_of self.now)) (nearest (spelled name.now) self.now.functions) }
    {
        let number = self.functions.find(name.text.as_str())?;
        let signature = self.signatures.get(number)?;
        Some(Calling {
            callee: Callee::Function(number),
            params: Params::Function(signature.params.as_slice()),
            result: signature.result,
        })
    }
}

fn builtin_callable<'a>(name: &Name) -> Result<Calling<'a>, Refused>
    ensures { Rules calling_of result (builtin_callable_verdict name.now) }
{
    match builtin(name.text.as_str()) {
        Some(id) => Ok(Calling {
            callee: Callee::Builtin(id),
            params: Params::Builtin(params(id)),
            result: result_kind(id),
        }),
        None => Err(fault(TypeKind::UnknownName, name.span)),
    }
}

impl Calling<'_> {
    /// There are as many arguments as parameters.
    fn count(&self, name: &Name, nodes: &[Node]) -> Result<(), Refused>
        ensures { Rules (λ u. u) result (counted_verdict (calling_of self.now) (nodes_of nodes.now) name.now) }
    {
        if nodes.len() == self.params.kinds().len() {
            Ok(())
        } else {
            Err(fault(TypeKind::WrongCount, name.span))
        }
    }

    /// The call of a name in a place that needs a value.
    pub(crate) fn value(
        &self,
        alloc: Global,
        name: &Name,
        exprs: &[Expr],
        nodes: Vec<Node>,
    ) -> Result<Node, Refused>
        requires { length exprs.now ≡ length nodes.items }
        ensures { Rules node_of result
            (call_value_verdict (calling_of self.now) name.now (exprs_of exprs.now) (nodes_of nodes.items)) }
    {
        self.count(name, nodes.as_slice())?;
        let Some(kind) = self.result else {
            return Err(fault(TypeKind::VoidUsed, name.span));
        };
        let arguments = arguments(alloc, self.params.kinds(), exprs, nodes)?;
        Ok(Node::Call {
            callee: self.callee,
            kind,
            line: name.span.line,
            arguments,
        })
    }

    /// The call of a name as a statement.
    pub(crate) fn effect(
        &self,
        alloc: Global,
        name: &Name,
        exprs: &[Expr],
        nodes: Vec<Node>,
    ) -> Result<Effect, Refused>
        requires { length exprs.now ≡ length nodes.items }
        ensures { Rules effect_of result
            (call_effect_verdict (calling_of self.now) name.now (exprs_of exprs.now) (nodes_of nodes.items)) }
    {
        self.count(name, nodes.as_slice())?;
        let arguments = arguments(alloc, self.params.kinds(), exprs, nodes)?;
        let line = name.span.line;
        let callee = self.callee;
        match self.result {
            None => Ok(Effect::Call {
                callee,
                line,
                arguments,
            }),
            Some(kind) => Ok(Effect::Value {
                node: Node::Call {
                    callee,
                    kind,
                    line,
                    arguments,
                },
            }),
        }
    }
}

/// The arguments as the kinds of their parameters.
fn arguments(
    alloc: Global,
    params: &[Kind],
    exprs: &[Expr],
    nodes: Vec<Node>,
) -> Result<Vec<Node>, Refused>
    requires { length exprs.now ≡ length nodes.items }
    ensures { Rules (λ v. nodes_of v.items) result
        (arguments_verdict params.now (exprs_of exprs.now) (nodes_of nodes.items)) }
{
    let mut done = Vec::with_capacity(alloc, exprs.len())?;
    let mut rest = nodes.into_iter();
    for (i, expr) in exprs.iter().enumerate() {
        let Some(node) = rest.next() else {
            unreachable!();
        };
        done.push(argument(alloc, kind_at(params, i), node, expr)?)?;
    }
    Ok(done)
}

fn kind_at(params: &[Kind], i: usize) -> Option<Kind>
    ensures { result ≡ slice_get params.now i }
{
    params.get(i).copied()
}

fn argument(alloc: Global, kind: Option<Kind>, node: Node, expr: &Expr) -> Result<Node, Refused>
    ensures { Rules node_of result (argument_verdict kind (node_of node) (first_span (expr_of expr.now))) }
{
    match kind {
        None => Ok(node),
        Some(kind) => as_kind(alloc, kind, node, expr),
    }
}
