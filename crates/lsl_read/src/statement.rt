//! Statements and blocks, one function for each rule of the grammar.
//!
//! `room` is the number of constructs that may still be opened here.

ghost use Rattle.std.specs.Prelude.{◌≡◌, [], ◌∷◌, Some, Ok};
ghost use Rattle.lsl_grammar.specs.Language.{among};
ghost use Rattle.lsl_grammar.specs.Reading.{begins};
ghost use Rattle.lsl_tree.specs.Statements.{stmt_of, item_of, items_of};
ghost use Rattle.lsl_signs.specs.Limits.{height_limit};
ghost use Rattle.lsl_signs.specs.Kinds.{codes, token_code};
ghost use Rattle.lsl_read.specs.ExpressionReading.{expr_r};
ghost use Rattle.lsl_read.specs.StatementReading.{stmt_room_r, statement_r, item_r, items_r, block_r, body_r, braces_r, if_r, while_rule_r, do_r, for_r, jump_r, return_r, state_name_r, state_rule_r, simple_r, declaration_r, label_r};
ghost use Rattle.lsl_read.specs.Parses.{Parses};

use crate::close::Close;
use crate::expression::{value, values};
use crate::stop::{Found, too_deep_or};
use crate::{names, next, take};
use lsl_grammar::Why;
use lsl_lex::{Sort, Token};
use lsl_signs::type_kind;
use lsl_text::Refusal;
use lsl_tree::{Item, StateName, Stmt};
use std::alloc::Global;

/// A statement.
#[cycle(statement)]
fn statement(alloc: Global, room: u32, tokens: &[Token]) -> Found<'_, Stmt>
    ensures { Parses (λ x. (stmt_of x.0, x.1.now)) result (statement_r (Some height_limit) room tokens.now) }
{
    let [first, ..] = tokens else {
        return simple(alloc, room, tokens);
    };
    match first.sort {
        Sort::BraceOpen => braces(alloc, room, tokens),
        Sort::IfWord => if_statement(alloc, room, tokens),
        Sort::WhileWord => while_statement(alloc, room, tokens),
        Sort::DoWord => do_statement(alloc, room, tokens),
        Sort::ForWord => for_statement(alloc, room, tokens),
        Sort::JumpWord => jump(tokens),
        Sort::ReturnWord => return_statement(alloc, room, tokens),
        Sort::StateWord => state_change(tokens),
        _ => simple(alloc, room, tokens),
    }
}

#[cycle(statement)]
fn braces(alloc: Global, room: u32, tokens: &[Token]) -> Found<'_, Stmt>
    ensures { Parses (λ x. (stmt_of x.0, x.1.now)) result (braces_r (stmt_room_r (Some height_limit) room) tokens.now) }
{
    let (items, rest) = block(alloc, room, tokens)?;
    Ok((Stmt::Block { items }, rest))
}

/// A block: what is between its braces.
#[cycle(statement)]
pub fn block(alloc: Global, room: u32, tokens: &[Token]) -> Found<'_, Vec<Item>>
    ensures { Parses (λ x. (items_of x.0.items, x.1.now)) result
        (block_r (stmt_room_r (Some height_limit) room) tokens.now) }
{
    if room == 0 {
        return Err(Refusal::Fault(too_deep_or(
            tokens,
            next::is_brace_open(tokens),
            Why::Unexpected,
        )));
    }
    let (_, rest) = take::brace_open(tokens)?;
    let (all, rest) = items(alloc, room - 1, rest)?;
    let (_, rest) = take::brace_close(rest)?;
    Ok((all, rest))
}

/// The items of a block up to its end.
#[cycle(statement)]
fn items(alloc: Global, room: u32, tokens: &[Token]) -> Found<'_, Vec<Item>>
    ensures { Parses (λ x. (items_of x.0.items, x.1.now)) result
        (items_r (item_r (Some height_limit) room) tokens.now) }
{
    let mut all = Vec::new(alloc);
    let mut rest = tokens;
    'all: while next::block_goes_on(rest) {
        let (next, after) = item(alloc, room, rest)?;
        all.push(next)?;
        rest = after;
    }
    Ok((all, rest))
}

/// A declaration, a label or a statement.
#[cycle(statement)]
fn item(alloc: Global, room: u32, tokens: &[Token]) -> Found<'_, Item>
    ensures { Parses (λ x. (item_of x.0, x.1.now)) result (item_r (Some height_limit) room tokens.now) }
{
    if next::is_type(tokens) {
        declaration(alloc, room, tokens)
    } else if next::is_at(tokens) {
        label(tokens)
    } else {
        let (statement, rest) = statement(alloc, room, tokens)?;
        Ok((Item::Statement { statement }, rest))
    }
}

fn declaration(alloc: Global, room: u32, tokens: &[Token]) -> Found<'_, Item>
    ensures { Parses (λ x. (item_of x.0, x.1.now)) result (declaration_r (expr_r (Some height_limit) room) tokens.now) }
{
    let (kind, rest) = take::type_word(tokens)?;
    let (name, rest) = take::name(rest)?;
    let kind = type_kind(&kind.sort);
    if next::is_equals(rest) {
        let (_, rest) = take::equals(rest)?;
        let (value, rest) = value(alloc, room, rest)?;
        let (_, rest) = take::semicolon(rest)?;
        let name = names::name(name)?;
        let value = Some(value);
        Ok((Item::Declaration { kind, name, value }, rest))
    } else {
        let (_, rest) = take::semicolon(rest)?;
        let name = names::name(name)?;
        let value = None;
        Ok((Item::Declaration { kind, name, value }, rest))
    }
}

fn label(tokens: &[Token]) -> Found<'_, Item>
    ensures { Parses (λ x. (item_of x.0, x.1.now)) result (label_r tokens.now) }
{
    let (_, rest) = take::at(tokens)?;
    let (name, rest) = take::name(rest)?;
    let (_, rest) = take::semicolon(rest)?;
    let name = names::name(name)?;
    Ok((Item::Label { name }, rest))
}

/// The body of an `if`, `else`, `while`, `do` or `for`.
#[cycle(statement)]
fn body(alloc: Global, room: u32, tokens: &[Token]) -> Found<'_, Stmt>
    ensures { Parses (λ x. (stmt_of x.0, x.1.now)) result (body_r (stmt_room_r (Some height_limit) room) tokens.now) }
{
    if room == 0 {
        return Err(Refusal::Fault(too_deep_or(
            tokens,
            next::is_statement(tokens),
            Why::OperandDue,
        )));
    }
    statement(alloc, room - 1, tokens)
}

#[cycle(statement)]
fn if_statement(alloc: Global, room: u32, tokens: &[Token]) -> Found<'_, Stmt>
    ensures { Parses (λ x. (stmt_of x.0, x.1.now)) result
        (if_r (expr_r (Some height_limit) room) (stmt_room_r (Some height_limit) room) tokens.now) }
{
    let (start, rest) = take::if_word(tokens)?;
    let (_, rest) = take::paren_open(rest)?;
    let (test, rest) = value(alloc, room, rest)?;
    let (_, rest) = take::paren_close(rest)?;
    let (then, rest) = body(alloc, room, rest)?;
    let span = start.span;
    let then = Box::new(alloc, then)?;
    if next::is_else(rest) {
        let (_, rest) = take::else_word(rest)?;
        let (otherwise, rest) = body(alloc, room, rest)?;
        let otherwise = Box::new(alloc, otherwise)?;
        Ok((
            Stmt::IfElse {
                span,
                test,
                then,
                otherwise,
            },
            rest,
        ))
    } else {
        Ok((Stmt::If { span, test, then }, rest))
    }
}

#[cycle(statement)]
fn while_statement(alloc: Global, room: u32, tokens: &[Token]) -> Found<'_, Stmt>
    ensures { Parses (λ x. (stmt_of x.0, x.1.now)) result
        (while_rule_r (expr_r (Some height_limit) room) (stmt_room_r (Some height_limit) room) tokens.now) }
{
    let (start, rest) = take::while_word(tokens)?;
    let (_, rest) = take::paren_open(rest)?;
    let (test, rest) = value(alloc, room, rest)?;
    let (_, rest) = take::paren_close(rest)?;
    let (inner, rest) = body(alloc, room, rest)?;
    let span = start.span;
    let body = Box::new(alloc, inner)?;
    Ok((Stmt::While { span, test, body }, rest))
}

#[cycle(statement)]
fn do_statement(alloc: Global, room: u32, tokens: &[Token]) -> Found<'_, Stmt>
    ensures { Parses (λ x. (stmt_of x.0, x.1.now)) result
        (do_r (expr_r (Some height_limit) room) (stmt_room_r (Some height_limit) room) tokens.now) }
{
    let (start, rest) = take::do_word(tokens)?;
    let (inner, rest) = body(alloc, room, rest)?;
    let (_, rest) = take::while_word(rest)?;
    let (_, rest) = take::paren_open(rest)?;
    let (test, rest) = value(alloc, room, rest)?;
    let (_, rest) = take::paren_close(rest)?;
    let (_, rest) = take::semicolon(rest)?;
    let span = start.span;
    let body = Box::new(alloc, inner)?;
    Ok((Stmt::Do { span, body, test }, rest))
}

#[cycle(statement)]
fn for_statement(alloc: Global, room: u32, tokens: &[Token]) -> Found<'_, Stmt>
    ensures { Parses (λ x. (stmt_of x.0, x.1.now)) result
        (for_r (expr_r (Some height_limit) room) (stmt_room_r (Some height_limit) room) tokens.now) }
{
    let (word, rest) = take::for_word(tokens)?;
    let (_, rest) = take::paren_open(rest)?;
    let (start, rest) = values(alloc, room, Close::Semicolon, rest)?;
    let (test, rest) = value(alloc, room, rest)?;
    let (_, rest) = take::semicolon(rest)?;
    let (step, rest) = values(alloc, room, Close::Parenthesis, rest)?;
    let (inner, rest) = body(alloc, room, rest)?;
    let span = word.span;
    let body = Box::new(alloc, inner)?;
    Ok((
        Stmt::For {
            span,
            start,
            test,
            step,
            body,
        },
        rest,
    ))
}

fn jump(tokens: &[Token]) -> Found<'_, Stmt>
    ensures { Parses (λ x. (stmt_of x.0, x.1.now)) result (jump_r tokens.now) }
{
    let (start, rest) = take::jump_word(tokens)?;
    let (name, rest) = take::name(rest)?;
    let (_, rest) = take::semicolon(rest)?;
    let span = start.span;
    let label = names::name(name)?;
    Ok((Stmt::Jump { span, label }, rest))
}

fn return_statement(alloc: Global, room: u32, tokens: &[Token]) -> Found<'_, Stmt>
    ensures { Parses (λ x. (stmt_of x.0, x.1.now)) result (return_r (expr_r (Some height_limit) room) tokens.now) }
{
    let (start, rest) = take::return_word(tokens)?;
    let span = start.span;
    if next::is_semicolon(rest) {
        let (_, rest) = take::semicolon(rest)?;
        let value = None;
        Ok((Stmt::Return { span, value }, rest))
    } else {
        let (value, rest) = value(alloc, room, rest)?;
        let (_, rest) = take::semicolon(rest)?;
        let value = Some(value);
        Ok((Stmt::Return { span, value }, rest))
    }
}

/// The state that a script goes to.
fn state_name(tokens: &[Token]) -> Found<'_, StateName>
    ensures { Parses (λ x. (x.0, x.1.now)) result (state_name_r tokens.now) }
{
    if next::is_name(tokens) {
        let (name, rest) = take::name(tokens)?;
        let name = names::name(name)?;
        Ok((StateName::Named(name), rest))
    } else {
        let (_, rest) = take::default_word(tokens)?;
        Ok((StateName::Default, rest))
    }
}

fn state_change(tokens: &[Token]) -> Found<'_, Stmt>
    ensures { Parses (λ x. (stmt_of x.0, x.1.now)) result (state_rule_r tokens.now) }
{
    let (start, rest) = take::state_word(tokens)?;
    let (state, rest) = state_name(rest)?;
    let (_, rest) = take::semicolon(rest)?;
    let span = start.span;
    Ok((Stmt::State { span, state }, rest))
}

/// An expression, if any, and `;`.
fn simple(alloc: Global, room: u32, tokens: &[Token]) -> Found<'_, Stmt>
    ensures { Parses (λ x. (stmt_of x.0, x.1.now)) result (simple_r (expr_r (Some height_limit) room) tokens.now) }
{
    if next::is_semicolon(tokens) {
        let (_, rest) = take::semicolon(tokens)?;
        Ok((Stmt::Empty, rest))
    } else {
        let (value, rest) = value(alloc, room, tokens)?;
        let (_, rest) = take::semicolon(rest)?;
        Ok((Stmt::Expression { value }, rest))
    }
}
