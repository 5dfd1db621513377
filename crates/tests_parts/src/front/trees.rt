//! Trees in a compact form: an operator before its operands, in parentheses.

use crate::front::signs::{assign_sign, binary_sign, kind_word, step_sign, unary_sign};
use crate::shown::Shown;
use lsl_tree::{Atom, Expr, Handler, Header, Item, Name, Param, Simple, StateName, Stmt, Tree};
use lsl_value::{Kind, Text};

fn quoted(out: &mut Shown, text: &Text) {
    out.add("\"");
    out.add(text.as_str());
    out.add("\"");
}

fn name_of(name: &Name) -> &str {
    name.text.as_str()
}

/// Opens a parenthesis before a word.
fn open(out: &mut Shown, word: &str) {
    out.add("(");
    out.add(word);
    out.add(" ");
}

/// Two words in parentheses.
fn pair(out: &mut Shown, first: &str, second: &str) {
    open(out, first);
    out.add(second);
    out.add(")");
}

/// Opens a parenthesis before a declaration's kind and name.
fn declared(out: &mut Shown, kind: Kind, name: &Name) {
    open(out, kind_word(kind));
    out.add(name_of(name));
}

#[cycle(show_expression)]
fn expr(out: &mut Shown, shown: &Expr) {
    match shown {
        Expr::Int { value, .. } => out.put(value),
        Expr::Str { text, .. } => quoted(out, text),
        Expr::Variable { name } => out.add(name_of(name)),
        Expr::StepBehind { name, op } => pair(out, name_of(name), step_sign(*op)),
        Expr::StepBefore { op, name, .. } => pair(out, step_sign(*op), name_of(name)),
        Expr::Call { name, arguments } => {
            open(out, name_of(name));
            row(out, arguments.as_slice());
            out.add(")");
        }
        Expr::List { elements, .. } => {
            out.add("[ ");
            row(out, elements.as_slice());
            out.add("]");
        }
        Expr::Parens { inner, .. } => {
            out.add("(paren ");
            expr(out, inner);
            out.add(")");
        }
        Expr::Cast { kind, operand, .. } => {
            open(out, kind_word(*kind));
            expr(out, operand);
            out.add(")");
        }
        Expr::Unary { op, operand, .. } => {
            open(out, unary_sign(*op));
            expr(out, operand);
            out.add(")");
        }
        Expr::Binary {
            op,
            left,
            right,
            ..
        } => {
            open(out, binary_sign(*op));
            expr(out, left);
            out.add(" ");
            expr(out, right);
            out.add(")");
        }
        Expr::Assign {
            name,
            op,
            value,
            ..
        } => {
            open(out, assign_sign(*op));
            out.add(name_of(name));
            out.add(" ");
            expr(out, value);
            out.add(")");
        }
    }
}

/// Expressions, each with a blank after it.
#[cycle(show_expression)]
fn row(out: &mut Shown, all: &[Expr]) {
    for one in all {
        expr(out, one);
        out.add(" ");
    }
}

fn exprs(out: &mut Shown, all: &[Expr]) {
    out.add("[ ");
    row(out, all);
    out.add("] ");
}

/// A test with a blank before and after it.
fn test_of(out: &mut Shown, word: &str, test: &Expr) {
    open(out, word);
    expr(out, test);
    out.add(" ");
}

fn state_name(state: &StateName) -> &str {
    match state {
        StateName::Default => "default",
        StateName::Named(name) => name_of(name),
    }
}

fn returned(out: &mut Shown, value: &Option<Expr>) {
    match value {
        Some(value) => {
            out.add("(return ");
            expr(out, value);
            out.add(")");
        }
        None => out.add("(return)"),
    }
}

#[cycle(show_statement)]
fn stmt(out: &mut Shown, shown: &Stmt) {
    match shown {
        Stmt::Block { items } => block(out, items.as_slice()),
        Stmt::Empty => out.add("(;)"),
        Stmt::Expression { value } => expr(out, value),
        Stmt::If { test, then, .. } => {
            test_of(out, "if", test);
            stmt(out, then);
            out.add(")");
        }
        Stmt::IfElse {
            test,
            then,
            otherwise,
            ..
        } => {
            test_of(out, "if", test);
            stmt(out, then);
            out.add(" ");
            stmt(out, otherwise);
            out.add(")");
        }
        Stmt::While { test, body, .. } => {
            test_of(out, "while", test);
            stmt(out, body);
            out.add(")");
        }
        Stmt::Do { body, test, .. } => {
            out.add("(do ");
            stmt(out, body);
            out.add(" ");
            expr(out, test);
            out.add(")");
        }
        Stmt::For {
            start,
            test,
            step,
            body,
            ..
        } => {
            out.add("(for ");
            exprs(out, start.as_slice());
            expr(out, test);
            out.add(" ");
            exprs(out, step.as_slice());
            stmt(out, body);
            out.add(")");
        }
        Stmt::Jump { label, .. } => pair(out, "jump", name_of(label)),
        Stmt::Return { value, .. } => returned(out, value),
        Stmt::State { state, .. } => pair(out, "state", state_name(state)),
    }
}

#[cycle(show_statement)]
fn item(out: &mut Shown, shown: &Item) {
    match shown {
        Item::Declaration { kind, name, value } => {
            declared(out, *kind, name);
            if let Some(value) = value {
                out.add(" ");
                expr(out, value);
            }
            out.add(")");
        }
        Item::Label { name } => pair(out, "@", name_of(name)),
        Item::Statement { statement } => stmt(out, statement),
    }
}

#[cycle(show_statement)]
fn block(out: &mut Shown, items: &[Item]) {
    out.add("{ ");
    for one in items {
        item(out, one);
        out.add(" ");
    }
    out.add("}");
}

fn params(out: &mut Shown, all: &[Param]) {
    out.add("( ");
    for param in all {
        out.add(kind_word(param.kind));
        out.add(" ");
        out.add(name_of(&param.name));
        out.add(" ");
    }
    out.add(") ");
}

fn atom(out: &mut Shown, shown: &Atom) {
    match shown {
        Atom::Int { value, .. } => out.put(value),
        Atom::Negative { value, .. } => {
            out.add("-");
            out.put(value);
        }
        Atom::Str { text, .. } => quoted(out, text),
        Atom::Constant { name } => out.add(name_of(name)),
    }
}

fn simple(out: &mut Shown, shown: &Simple) {
    match shown {
        Simple::Atom { atom: one } => atom(out, one),
        Simple::List { atoms, .. } => {
            out.add("[ ");
            for one in atoms {
                atom(out, one);
                out.add(" ");
            }
            out.add("]");
        }
    }
}

fn header(out: &mut Shown, shown: &Header) {
    match shown {
        Header::Global { global } => {
            declared(out, global.kind, &global.name);
            if let Some(value) = &global.value {
                out.add(" ");
                simple(out, value);
            }
        }
        Header::Function { function } => {
            out.add("(");
            if let Some(kind) = function.kind {
                out.add(kind_word(kind));
                out.add(" ");
            }
            out.add(name_of(&function.name));
            out.add(" ");
            params(out, function.params.as_slice());
            block(out, function.body.as_slice());
        }
    }
    out.add(") ");
}

fn handlers(out: &mut Shown, all: &[Handler]) {
    for handler in all {
        out.add(" ");
        open(out, name_of(&handler.name));
        params(out, handler.params.as_slice());
        block(out, handler.body.as_slice());
        out.add(")");
    }
}

/// A whole script.
pub fn print_tree(out: &mut Shown, tree: &Tree) {
    for one in &tree.headers {
        header(out, one);
    }
    out.add("default");
    handlers(out, tree.default.as_slice());
    for state in &tree.states {
        out.add(" (state ");
        out.add(name_of(&state.name));
        handlers(out, state.handlers.as_slice());
        out.add(")");
    }
    out.add("\n");
}
