//! Expressions, one function for each rule of the grammar.
//!
//! `room` is the number of constructs that may still be opened here. The next token decides, and before an assignment
//! the next two.

ghost use Rattle.std.specs.Prelude.{◌≡◌, ◌<◌, ℕ, [], ◌∷◌, None, Some, Ok, true, false, IfSome};
ghost use Rattle.lsl_grammar.specs.Reading.{pair_next, begins};
ghost use Rattle.lsl_tree.specs.Expressions.{expr_of, exprs_of, AndExpr, NoExpr};
ghost use Rattle.lsl_signs.specs.Limits.{height_limit};
ghost use Rattle.lsl_signs.specs.Kinds.{Name, codes, token_code};
ghost use Rattle.lsl_signs.specs.Operators.{assign_signs, signs};
ghost use Rattle.lsl_read.specs.ExpressionReading.{sign_of, expr_r, unary_r, level_r, room_r, prefix_r, step_before_r, group_r, list_r, string_r, integer_r, arguments_r, named_r, assignment_r, expressions_r, series_r, next_operand_r};
ghost use Rattle.lsl_read.specs.Parses.{Parses};

use crate::close::Close;
use crate::operand::{Operand, Operands};
use crate::stop::{Found, too_deep_or};
use crate::{names, next, take};
use lsl_grammar::Why;
use lsl_lex::{Sort, Token};
use lsl_signs::{LEVELS, assign_op, binary_op, level_of, prefix_op, step_op, type_kind};
use lsl_text::Refusal;
use lsl_tree::Expr;
use std::alloc::Global;

/// Whether a name and the sign of an assignment are next.
fn assigns(tokens: &[Token]) -> bool
    ensures { result ≡ pair_next token_code (codes (Name ∷ [])) (codes assign_signs) tokens.now }
{
    match tokens {
        [first, rest @ ..] => match first.sort {
            Sort::Name(_) => next::is_assignment(rest),
            _ => false,
        },
        [] => false,
    }
}

/// An expression.
#[cycle(expression)]
pub fn expr(alloc: Global, room: u32, tokens: &[Token]) -> Found<'_, Operand>
    ensures { Parses (λ x. (expr_of x.0.expr, x.1.now)) result (expr_r (Some height_limit) room tokens.now) }
{
    if assigns(tokens) {
        assignment(alloc, room, tokens)
    } else {
        level(alloc, room, LEVELS, tokens)
    }
}

#[cycle(expression)]
fn assignment(alloc: Global, room: u32, tokens: &[Token]) -> Found<'_, Operand>
    ensures { Parses (λ x. (expr_of x.0.expr, x.1.now)) result
        (assignment_r (room_r (Some height_limit) room) tokens.now) }
{
    let (name, rest) = take::name(tokens)?;
    if room == 0 {
        return Err(Refusal::Fault(too_deep_or(rest, next::is_assignment(rest), Why::Unexpected)));
    }
    let (op, rest) = take::assign_sign(rest)?;
    let (value, rest) = expr(alloc, room - 1, rest)?;
    let name = names::name(name)?;
    let operand = Operand::assign(alloc, name, assign_op(&op.sort), op.span, value)?;
    Ok((operand, rest))
}

#[cycle(expression)]
fn unary(alloc: Global, room: u32, tokens: &[Token]) -> Found<'_, Operand>
    ensures { Parses (λ x. (expr_of x.0.expr, x.1.now)) result (unary_r (Some height_limit) room tokens.now) }
{
    let [first, ..] = tokens else {
        return integer(tokens);
    };
    match first.sort {
        Sort::Minus | Sort::Bang | Sort::Tilde => prefix(alloc, room, tokens),
        Sort::PlusPlus | Sort::MinusMinus => step_before(room, tokens),
        Sort::ParenOpen => group(alloc, room, tokens),
        Sort::BracketOpen => list(alloc, room, tokens),
        Sort::Str(_) => string(tokens),
        Sort::Name(_) => named(alloc, room, tokens),
        _ => integer(tokens),
    }
}

#[cycle(expression)]
fn prefix(alloc: Global, room: u32, tokens: &[Token]) -> Found<'_, Operand>
    ensures { Parses (λ x. (expr_of x.0.expr, x.1.now)) result (prefix_r (room_r (Some height_limit) room) tokens.now) }
{
    if room == 0 {
        return Err(Refusal::Fault(too_deep_or(tokens, next::is_prefix(tokens), Why::Unexpected)));
    }
    let (op, rest) = take::prefix_sign(tokens)?;
    let (operand, rest) = unary(alloc, room - 1, rest)?;
    let operand = Operand::unary(alloc, prefix_op(&op.sort), op.span, operand)?;
    Ok((operand, rest))
}

fn step_before(room: u32, tokens: &[Token]) -> Found<'_, Operand>
    ensures { Parses (λ x. (expr_of x.0.expr, x.1.now)) result
        (step_before_r (room_r (Some height_limit) room) tokens.now) }
{
    if room == 0 {
        return Err(Refusal::Fault(too_deep_or(tokens, next::is_step(tokens), Why::Unexpected)));
    }
    let (op, rest) = take::step_sign(tokens)?;
    let (name, rest) = take::name(rest)?;
    let name = names::name(name)?;
    Ok((Operand::step_before(step_op(&op.sort), op.span, name), rest))
}

/// A cast, or an expression in parentheses.
#[cycle(expression)]
fn group(alloc: Global, room: u32, tokens: &[Token]) -> Found<'_, Operand>
    ensures { Parses (λ x. (expr_of x.0.expr, x.1.now)) result (group_r (room_r (Some height_limit) room) tokens.now) }
{
    if room == 0 {
        return Err(Refusal::Fault(too_deep_or(
            tokens,
            next::is_paren_open(tokens),
            Why::Unexpected,
        )));
    }
    let (start, rest) = take::paren_open(tokens)?;
    if next::is_type(rest) {
        let (kind, rest) = take::type_word(rest)?;
        let (_, rest) = take::paren_close(rest)?;
        let (operand, rest) = unary(alloc, room - 1, rest)?;
        let operand = Operand::cast(alloc, start.span, type_kind(&kind.sort), operand)?;
        Ok((operand, rest))
    } else {
        let (inner, rest) = expr(alloc, room - 1, rest)?;
        let (_, rest) = take::paren_close(rest)?;
        let operand = Operand::parens(alloc, start.span, inner)?;
        Ok((operand, rest))
    }
}

#[cycle(expression)]
fn list(alloc: Global, room: u32, tokens: &[Token]) -> Found<'_, Operand>
    ensures { Parses (λ x. (expr_of x.0.expr, x.1.now)) result (list_r (room_r (Some height_limit) room) tokens.now) }
{
    if room == 0 {
        return Err(Refusal::Fault(too_deep_or(
            tokens,
            next::is_bracket_open(tokens),
            Why::Unexpected,
        )));
    }
    let (start, rest) = take::bracket_open(tokens)?;
    let (all, rest) = expressions(alloc, room - 1, Close::Bracket, rest)?;
    Ok((Operand::list(start.span, all), rest))
}

fn string(tokens: &[Token]) -> Found<'_, Operand>
    ensures { Parses (λ x. (expr_of x.0.expr, x.1.now)) result (string_r tokens.now) }
{
    let (token, rest) = take::string(tokens)?;
    let text = names::text(&token.sort)?;
    Ok((Operand::string(text, token.span), rest))
}

/// The last of the operands: if it isn't there either, an operand was due.
fn integer(tokens: &[Token]) -> Found<'_, Operand>
    ensures { Parses (λ x. (expr_of x.0.expr, x.1.now)) result (integer_r tokens.now) }
{
    let (token, rest) = take::int(tokens)?;
    Ok((
        Operand::integer(names::integer(&token.sort), token.span),
        rest,
    ))
}

/// A name with `++`, `--` or arguments after it, or alone.
#[cycle(expression)]
fn named(alloc: Global, room: u32, tokens: &[Token]) -> Found<'_, Operand>
    ensures { Parses (λ x. (expr_of x.0.expr, x.1.now)) result (named_r (room_r (Some height_limit) room) tokens.now) }
{
    let (name, rest) = take::name(tokens)?;
    if next::is_step(rest) {
        let (op, rest) = take::step_sign(rest)?;
        let name = names::name(name)?;
        Ok((Operand::step_behind(name, step_op(&op.sort)), rest))
    } else if next::is_paren_open(rest) {
        let (all, rest) = arguments(alloc, room, rest)?;
        let name = names::name(name)?;
        Ok((Operand::call(name, all), rest))
    } else {
        let name = names::name(name)?;
        Ok((Operand::variable(name), rest))
    }
}

#[cycle(expression)]
fn arguments(alloc: Global, room: u32, tokens: &[Token]) -> Found<'_, Operands>
    ensures { Parses (λ x. (exprs_of x.0.exprs.items, x.1.now)) result
        (arguments_r (room_r (Some height_limit) room) tokens.now) }
{
    if room == 0 {
        return Err(Refusal::Fault(too_deep_or(
            tokens,
            next::is_paren_open(tokens),
            Why::Unexpected,
        )));
    }
    let (_, rest) = take::paren_open(tokens)?;
    expressions(alloc, room - 1, Close::Parenthesis, rest)
}

/// Expressions, if any, and the closing sign.
#[cycle(expression)]
pub fn expressions(alloc: Global, room: u32, close: Close, tokens: &[Token]) -> Found<'_, Operands>
    ensures { Parses (λ x. (exprs_of x.0.exprs.items, x.1.now)) result
        (expressions_r (sign_of close) (expr_r (Some height_limit) room) tokens.now) }
{
    if close.is_next(tokens) {
        let (_, rest) = close.take(tokens)?;
        Ok((Operands::new(alloc), rest))
    } else {
        let (all, rest) = series(alloc, room, tokens)?;
        let (_, rest) = close.take(rest)?;
        Ok((all, rest))
    }
}

/// Expressions between commas.
#[cycle(expression)]
fn series(alloc: Global, room: u32, tokens: &[Token]) -> Found<'_, Operands>
    ensures { Parses (λ x. (exprs_of x.0.exprs.items, x.1.now)) result
        (series_r AndExpr NoExpr (expr_r (Some height_limit) room) tokens.now) }
{
    let (first, mut rest) = expr(alloc, room, tokens)?;
    let mut all = Operands::new(alloc);
    all.push(first)?;
    'more: while next::is_comma(rest) {
        let (_, after) = take::comma(rest)?;
        let (next, after) = expr(alloc, room, after)?;
        all.push(next)?;
        rest = after;
    }
    Ok((all, rest))
}

/// An operator of the level, which is next, and its right operand.
#[cycle(expression)]
fn operation(
    alloc: Global,
    room: u32,
    n: u32,
    left: Operand,
    tokens: &[Token],
) -> Found<'_, Operand>
    requires { begins token_code (codes (signs n)) tokens.now ≡ true }
    ensures { Parses (λ x. (expr_of x.0.expr, x.1.now)) result
        (next_operand_r (Some height_limit) (level_r (Some height_limit) room n) (signs n) (expr_of left.expr)
        tokens.now) }
{
    let [op, rest @ ..] = tokens else {
        return Err(Refusal::Fault(too_deep_or(tokens, false, Why::Unexpected)));
    };
    if !left.may_be_left() {
        return Err(Refusal::Fault(too_deep_or(tokens, true, Why::Unexpected)));
    }
    let (right, rest) = level(alloc, room, n, rest)?;
    let operand = Operand::binary(alloc, binary_op(&op.sort), op.span, left, right)?;
    Ok((operand, rest))
}

/// Operands with the operators of the tightest `n` levels between them.
#[cycle(expression)]
fn level(alloc: Global, room: u32, n: u32, tokens: &[Token]) -> Found<'_, Operand>
    ensures { Parses (λ x. (expr_of x.0.expr, x.1.now)) result (level_r (Some height_limit) room n tokens.now) }
{
    let (mut left, mut rest) = unary(alloc, room, tokens)?;
    'operations: while let Some(k) = next_level(rest, n) {
        let (joined, after) = operation(alloc, room, k, left, rest)?;
        left = joined;
        rest = after;
    }
    Ok((left, rest))
}

/// The level of the next operator, if it is one of the tightest `n`.
fn next_level(tokens: &[Token], n: u32) -> Option<u32>
    ensures some { IfSome result (λ k. (k < n) × (begins token_code (codes (signs k)) tokens.now ≡ true)) }
    ensures none { result ≡ None → (k : ℕ) → k < n → begins token_code (codes (signs k)) tokens.now ≡ false }
{
    let [first, ..] = tokens else {
        return None;
    };
    match level_of(&first.sort) {
        Some(k) if k < n => Some(k),
        _ => None,
    }
}

/// An expression, where its height doesn't matter.
pub fn value(alloc: Global, room: u32, tokens: &[Token]) -> Found<'_, Expr>
    ensures { Parses (λ x. (expr_of x.0, x.1.now)) result (expr_r (Some height_limit) room tokens.now) }
{
    let (operand, rest) = expr(alloc, room, tokens)?;
    Ok((operand.expr, rest))
}

/// Expressions, if any, and the closing sign, where their heights don't matter.
pub fn values(alloc: Global, room: u32, close: Close, tokens: &[Token]) -> Found<'_, Vec<Expr>>
    ensures { Parses (λ x. (exprs_of x.0.items, x.1.now)) result
        (expressions_r (sign_of close) (expr_r (Some height_limit) room) tokens.now) }
{
    let (operands, rest) = expressions(alloc, room, close, tokens)?;
    Ok((operands.exprs, rest))
}
