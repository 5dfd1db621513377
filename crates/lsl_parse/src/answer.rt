//! Token lists as trees, or their first fault.

ghost use Rattle.std.specs.Prelude.{◌≡◌, ◌<◌, ℕ, [], length, ◌∷◌, Some, IfOk, IfErr, MatchResult, if◌then◌else◌};
ghost use Rattle.lsl_tree.specs.Scripts as tree;
ghost use Rattle.lsl_tree.specs.Scripts.{tree_of};
ghost use Rattle.lsl_parse.specs.declared.fault.ParseKind.{ParseKind};
ghost use Rattle.lsl_signs.specs.Limits.{height_limit, most_constructs, most_tokens};
ghost use Rattle.lsl_read.specs.ScriptReading.{all_r, end_r};
ghost use Rattle.lsl_parse.specs.Faults.{Derives, ParseFirst, IsFirst, IsFaultAt, IfFault, span_at};
ghost use Rattle.lsl_parse.specs.FaultReading.{fault_kind, stop_fault, large_fault};
ghost use Rattle.lsl_read.specs.Parses.{Parses};

use crate::fault::{ParseFault, ParseKind};
use lsl_grammar::Why;
use lsl_lex::{Sort, Token, Tokens};
use lsl_read::script::script;
use lsl_read::stop::Stop;
use lsl_signs::{DEPTH, TOKENS};
use lsl_text::{Refusal, Span};
use lsl_tree::Tree;
use std::alloc::Global;

/// A script with nothing after it.
fn whole<'a>(alloc: Global, tokens: &'a [Token]) -> Result<Tree, Refusal<Stop<'a>>>
    ensures { Parses (λ t. (tree_of t, [])) result (all_r (Some height_limit) most_constructs tokens.now) }
{
    let (tree, rest) = script(alloc, DEPTH, tokens)?;
    ended(tree, rest)
}

/// The tree, if nothing follows it.
fn ended<'a>(tree: Tree, rest: &'a [Token]) -> Result<Tree, Refusal<Stop<'a>>>
    ensures { Parses (λ t. (tree_of t, [])) result (end_r (tree_of tree) rest.now) }
{
    match rest {
        [] => Ok(tree),
        [..] => Err(Refusal::Fault(Stop {
            why: Why::Unexpected,
            rest,
        })),
    }
}

/// The place of the first of these tokens, or the end.
fn first_span(tokens: &[Token], end: Span) -> Span
    ensures { result ≡ span_at tokens.now end 0 }
{
    match tokens {
        [first, ..] => first.span,
        [] => end,
    }
}

/// The fault of a token that can't continue a script.
fn foreign(token: &Token, due: bool) -> ParseKind
    ensures { result ≡ fault_kind (if due then Why.OperandDue else Why.Unexpected) (token.now ∷ []) }
{
    match token.sort {
        Sort::FloatWord | Sort::VectorWord | Sort::RotationWord | Sort::QuaternionWord =>
            ParseKind::FloatType,
        Sort::Less if due => ParseKind::FloatType,
        _ => ParseKind::Unexpected,
    }
}

/// The fault that a stop is.
fn kind_of_stop(stop: Stop) -> ParseKind
    ensures { result ≡ fault_kind stop.entry.why stop.entry.rest.now }
{
    match stop.rest {
        [] => ParseKind::EndOfText,
        [first, ..] => match stop.why {
            Why::TooDeep => ParseKind::TooDeep,
            Why::Unexpected => foreign(first, false),
            Why::OperandDue => foreign(first, true),
        },
    }
}

/// The fault of the first token too many.
fn large_fault_of(tokens: &[Token], end: Span) -> ParseFault
    requires { most_tokens < length tokens.now }
    ensures { result ≡ large_fault tokens.now end }
{
    ParseFault {
        kind: ParseKind::TooLarge,
        span: first_span(&tokens[TOKENS..], end),
    }
}

/// The fault of a stop, or that of the first token too many, which comes before it.
fn fault_of(tokens: &[Token], end: Span, stop: Stop) -> ParseFault
    ensures { result ≡ stop_fault tokens.now end stop.entry.why stop.entry.rest.now }
{
    if TOKENS + stop.rest.len() < tokens.len() {
        return large_fault_of(tokens, end);
    }
    ParseFault {
        span: first_span(stop.rest, end),
        kind: kind_of_stop(stop),
    }
}

/// The tree of a script's tokens, or their first fault.
///
/// Takes memory for the tree: names and strings are copied. Time is linear in the tokens, and no more than 200
/// constructs deep.
pub fn parse(alloc: Global, tokens: &Tokens) -> Result<Tree, Refusal<ParseFault>>
    // What is found is the tree of the tokens.
    ensures found { IfOk result (λ tree. Derives tokens.now.list (tree_of tree)) }
    // Tokens that have a tree are accepted with it, unless memory runs out.
    ensures every { (script : tree.Tree) → Derives tokens.now.list script
        → MatchResult result (λ tree. tree_of tree ≡ script) (λ refusal. refusal ≡ Refusal.NoMemory) }
    // A fault is the first one.
    ensures first { IfErr result (λ refusal. IfFault refusal (IsFirst tokens.now.list tokens.now.end)) }
    // Tokens that have a first fault are refused with it, unless memory runs out.
    ensures only { (place : ℕ) (kind : ParseKind) → ParseFirst tokens.now.list place kind
        → MatchResult result (λ _. ⊥) (λ refusal.
        IfFault refusal (IsFaultAt tokens.now.list tokens.now.end place kind)) }
{
    let list = tokens.list.as_slice();
    match whole(alloc, list) {
        Ok(tree) => {
            if TOKENS < list.len() {
                Err(Refusal::Fault(large_fault_of(list, tokens.end)))
            } else {
                Ok(tree)
            }
        }
        Err(Refusal::NoMemory) => Err(Refusal::NoMemory),
        Err(Refusal::Fault(stop)) => Err(Refusal::Fault(fault_of(list, tokens.end, stop))),
    }
}
