//! Whole scripts, one function for each rule of the grammar.

ghost use Rattle.std.specs.Prelude.{◌≡◌, [], ◌∷◌, Some, None, Ok, map};
ghost use Rattle.lsl_value.specs.declared.tagged.Kind.{Kind};
ghost use Rattle.lsl_tree.specs.declared.script.Atom.{Atom};
ghost use Rattle.lsl_tree.specs.declared.script.Param.{Param};
ghost use Rattle.lsl_tree.specs.Scripts.{simple_of, header_of, handler_of, state_of, tree_of};
ghost use Rattle.lsl_signs.specs.Limits.{height_limit};
ghost use Rattle.lsl_lex.specs.declared.token_types.Sort.TheVariants.{StateWord, BracketClose};
ghost use Rattle.lsl_signs.specs.Kinds.{Name, name_of};
ghost use Rattle.lsl_read.specs.ScriptGrammar.{added};
ghost use Rattle.lsl_read.specs.ExpressionReading.{series_r, listing_r};
ghost use Rattle.lsl_read.specs.StatementReading.{stmt_room_r};
ghost use Rattle.lsl_read.specs.ScriptReading.{atom_r, initial_r, param_r, params_r, global_behind_r, function_behind_r, header_r, handler_r, handlers_r, state_r, many_r, header_heads, script_r};
ghost use Rattle.lsl_read.specs.Parses.{Parses};

use crate::statement::block;
use crate::stop::Found;
use crate::{names, next, take};
use lsl_lex::Token;
use lsl_signs::type_kind;
use lsl_tree::{Atom, Function, Global, Handler, Header, Param, Simple, State, Tree};
use lsl_value::Kind;
use std::alloc::Global as Memory;

/// A part of a global's initial value.
fn atom(tokens: &[Token]) -> Found<'_, Atom>
    ensures { Parses (λ x. (x.0, x.1.now)) result (atom_r tokens.now) }
{
    if next::is_minus(tokens) {
        let (minus, rest) = take::minus(tokens)?;
        let (token, rest) = take::int(rest)?;
        let value = names::integer(&token.sort);
        let span = minus.span;
        Ok((Atom::Negative { value, span }, rest))
    } else if next::is_string(tokens) {
        let (token, rest) = take::string(tokens)?;
        let text = names::text(&token.sort)?;
        let span = token.span;
        Ok((Atom::Str { text, span }, rest))
    } else if next::is_name(tokens) {
        let (name, rest) = take::name(tokens)?;
        let name = names::name(name)?;
        Ok((Atom::Constant { name }, rest))
    } else {
        let (token, rest) = take::int(tokens)?;
        let value = names::integer(&token.sort);
        let span = token.span;
        Ok((Atom::Int { value, span }, rest))
    }
}

/// Parts between commas.
fn atom_series(alloc: Memory, tokens: &[Token]) -> Found<'_, Vec<Atom>>
    ensures { Parses (λ x. (x.0.items, x.1.now)) result (series_r added [] atom_r tokens.now) }
{
    let (first, mut rest) = atom(tokens)?;
    let mut all = Vec::new(alloc);
    all.push(first)?;
    'more: while next::is_comma(rest) {
        let (_, after) = take::comma(rest)?;
        let (next, after) = atom(after)?;
        all.push(next)?;
        rest = after;
    }
    Ok((all, rest))
}

/// Parts, if any, and the closing bracket.
fn atoms(alloc: Memory, tokens: &[Token]) -> Found<'_, Vec<Atom>>
    ensures { Parses (λ x. (x.0.items, x.1.now)) result (listing_r BracketClose added [] atom_r tokens.now) }
{
    if next::is_bracket_close(tokens) {
        let (_, rest) = take::bracket_close(tokens)?;
        Ok((Vec::new(alloc), rest))
    } else {
        let (all, rest) = atom_series(alloc, tokens)?;
        let (_, rest) = take::bracket_close(rest)?;
        Ok((all, rest))
    }
}

/// A global's initial value.
fn initial(alloc: Memory, tokens: &[Token]) -> Found<'_, Simple>
    ensures { Parses (λ x. (simple_of x.0, x.1.now)) result (initial_r tokens.now) }
{
    if next::is_bracket_open(tokens) {
        let (start, rest) = take::bracket_open(tokens)?;
        let (atoms, rest) = atoms(alloc, rest)?;
        let span = start.span;
        Ok((Simple::List { span, atoms }, rest))
    } else {
        let (atom, rest) = atom(tokens)?;
        Ok((Simple::Atom { atom }, rest))
    }
}

fn param(tokens: &[Token]) -> Found<'_, Param>
    ensures { Parses (λ x. (x.0, x.1.now)) result (param_r tokens.now) }
{
    let (kind, rest) = take::type_word(tokens)?;
    let (name, rest) = take::name(rest)?;
    let kind = type_kind(&kind.sort);
    let name = names::name(name)?;
    Ok((Param { kind, name }, rest))
}

/// Parameters between commas.
fn param_series(alloc: Memory, tokens: &[Token]) -> Found<'_, Vec<Param>>
    ensures { Parses (λ x. (x.0.items, x.1.now)) result (series_r added [] param_r tokens.now) }
{
    let (first, mut rest) = param(tokens)?;
    let mut all = Vec::new(alloc);
    all.push(first)?;
    'more: while next::is_comma(rest) {
        let (_, after) = take::comma(rest)?;
        let (next, after) = param(after)?;
        all.push(next)?;
        rest = after;
    }
    Ok((all, rest))
}

/// Parameters in parentheses.
fn params(alloc: Memory, tokens: &[Token]) -> Found<'_, Vec<Param>>
    ensures { Parses (λ x. (x.0.items, x.1.now)) result (params_r tokens.now) }
{
    let (_, rest) = take::paren_open(tokens)?;
    if next::is_paren_close(rest) {
        let (_, rest) = take::paren_close(rest)?;
        Ok((Vec::new(alloc), rest))
    } else {
        let (all, rest) = param_series(alloc, rest)?;
        let (_, rest) = take::paren_close(rest)?;
        Ok((all, rest))
    }
}

/// What follows the name of a global.
fn global_behind<'a>(
    alloc: Memory,
    kind: Kind,
    token: &'a Token,
    tokens: &'a [Token],
) -> Found<'a, Header>
    ensures { Parses (λ x. (header_of x.0, x.1.now)) result (global_behind_r kind (name_of token.now) tokens.now) }
{
    if next::is_equals(tokens) {
        let (_, rest) = take::equals(tokens)?;
        let (value, rest) = initial(alloc, rest)?;
        let (_, rest) = take::semicolon(rest)?;
        let name = names::name(token)?;
        let value = Some(value);
        let global = Global { kind, name, value };
        Ok((Header::Global { global }, rest))
    } else {
        let (_, rest) = take::semicolon(tokens)?;
        let name = names::name(token)?;
        let value = None;
        let global = Global { kind, name, value };
        Ok((Header::Global { global }, rest))
    }
}

/// What follows the name of a function.
fn function_behind<'a>(
    alloc: Memory,
    room: u32,
    kind: Option<Kind>,
    token: &'a Token,
    tokens: &'a [Token],
) -> Found<'a, Header>
    ensures { Parses (λ x. (header_of x.0, x.1.now)) result
        (function_behind_r (stmt_room_r (Some height_limit) room) kind (name_of token.now) tokens.now) }
{
    let (params, rest) = params(alloc, tokens)?;
    let (body, rest) = block(alloc, room, rest)?;
    let name = names::name(token)?;
    let function = Function {
        kind,
        name,
        params,
        body,
    };
    Ok((Header::Function { function }, rest))
}

/// A global or a function.
fn header(alloc: Memory, room: u32, tokens: &[Token]) -> Found<'_, Header>
    ensures { Parses (λ x. (header_of x.0, x.1.now)) result
        (header_r (stmt_room_r (Some height_limit) room) tokens.now) }
{
    if next::is_type(tokens) {
        let (kind, rest) = take::type_word(tokens)?;
        let (name, rest) = take::name(rest)?;
        let kind = type_kind(&kind.sort);
        if next::is_paren_open(rest) {
            function_behind(alloc, room, Some(kind), name, rest)
        } else {
            global_behind(alloc, kind, name, rest)
        }
    } else {
        let (name, rest) = take::name(tokens)?;
        function_behind(alloc, room, None, name, rest)
    }
}

/// Globals and functions, as many as there are.
fn headers(alloc: Memory, room: u32, tokens: &[Token]) -> Found<'_, Vec<Header>>
    ensures { Parses (λ x. (map header_of x.0.items, x.1.now)) result
        (many_r header_heads (header_r (stmt_room_r (Some height_limit) room)) [] tokens.now) }
{
    let mut all = Vec::new(alloc);
    let mut rest = tokens;
    'all: while next::is_header(rest) {
        let (next, after) = header(alloc, room, rest)?;
        all.push(next)?;
        rest = after;
    }
    Ok((all, rest))
}

fn handler(alloc: Memory, room: u32, tokens: &[Token]) -> Found<'_, Handler>
    ensures { Parses (λ x. (handler_of x.0, x.1.now)) result
        (handler_r (stmt_room_r (Some height_limit) room) tokens.now) }
{
    let (token, rest) = take::name(tokens)?;
    let (params, rest) = params(alloc, rest)?;
    let (body, rest) = block(alloc, room, rest)?;
    let name = names::name(token)?;
    Ok((Handler { name, params, body }, rest))
}

/// More handlers after the first, as many as there are.
fn more_handlers(
    alloc: Memory,
    room: u32,
    first: Handler,
    tokens: &[Token],
) -> Found<'_, Vec<Handler>>
    ensures { Parses (λ x. (map handler_of x.0.items, x.1.now)) result
        (many_r (Name ∷ []) (handler_r (stmt_room_r (Some height_limit) room)) (handler_of first ∷ [])
        tokens.now) }
{
    let mut all = Vec::new(alloc);
    all.push(first)?;
    let mut rest = tokens;
    'all: while next::is_name(rest) {
        let (next, after) = handler(alloc, room, rest)?;
        all.push(next)?;
        rest = after;
    }
    Ok((all, rest))
}

/// The handlers of a state, in its braces.
fn handlers(alloc: Memory, room: u32, tokens: &[Token]) -> Found<'_, Vec<Handler>>
    ensures { Parses (λ x. (map handler_of x.0.items, x.1.now)) result
        (handlers_r (stmt_room_r (Some height_limit) room) tokens.now) }
{
    let (_, rest) = take::brace_open(tokens)?;
    let (first, rest) = handler(alloc, room, rest)?;
    let (all, rest) = more_handlers(alloc, room, first, rest)?;
    let (_, rest) = take::brace_close(rest)?;
    Ok((all, rest))
}

/// A state other than `default`.
fn state(alloc: Memory, room: u32, tokens: &[Token]) -> Found<'_, State>
    ensures { Parses (λ x. (state_of x.0, x.1.now)) result (state_r (stmt_room_r (Some height_limit) room) tokens.now) }
{
    let (_, rest) = take::state_word(tokens)?;
    let (token, rest) = take::name(rest)?;
    let (handlers, rest) = handlers(alloc, room, rest)?;
    let name = names::name(token)?;
    Ok((State { name, handlers }, rest))
}

/// States, as many as there are.
fn states(alloc: Memory, room: u32, tokens: &[Token]) -> Found<'_, Vec<State>>
    ensures { Parses (λ x. (map state_of x.0.items, x.1.now)) result
        (many_r (StateWord ∷ []) (state_r (stmt_room_r (Some height_limit) room)) [] tokens.now) }
{
    let mut all = Vec::new(alloc);
    let mut rest = tokens;
    'all: while next::is_state(rest) {
        let (next, after) = state(alloc, room, rest)?;
        all.push(next)?;
        rest = after;
    }
    Ok((all, rest))
}

/// A script, and what follows it.
pub fn script(alloc: Memory, room: u32, tokens: &[Token]) -> Found<'_, Tree>
    ensures { Parses (λ x. (tree_of x.0, x.1.now)) result (script_r (Some height_limit) room tokens.now) }
{
    let (headers, rest) = headers(alloc, room, tokens)?;
    let (_, rest) = take::default_word(rest)?;
    let (default, rest) = handlers(alloc, room, rest)?;
    let (states, rest) = states(alloc, room, rest)?;
    Ok((
        Tree {
            headers,
            default,
            states,
        },
        rest,
    ))
}
