//! Checked programs in a compact form: kinds as letters, variables as `g0` and `s0`, lines after `@`.

use crate::front::signs::{binary_sign, step_sign, unary_sign};
use crate::shown::Shown;
use lsl_table::{BuiltinRow, constant_name, event_name};
use lsl_text::push_quoted;
use lsl_tree::{
    Action, Callee, Effect, Initial, Node, Part, Place, Program, ProgramState, Routine,
};
use lsl_value::{ConstantId, Kind, Text};

/// The whole program, a line for each global, function and handler.
pub fn print_program(out: &mut Shown, program: &Program) {
    for (number, initial) in program.globals.as_slice().iter().enumerate() {
        numbered(out, "g", number);
        out.add(" = ");
        print_initial(out, initial);
        out.add("\n");
    }
    for (number, function) in program.functions.as_slice().iter().enumerate() {
        numbered(out, "f", number);
        out.add(" ");
        out.add(function.name.as_str());
        print_routine(out, &function.routine);
    }
    for state in &program.states {
        print_state(out, state);
    }
}

fn print_state(out: &mut Shown, state: &ProgramState) {
    for handler in &state.handlers {
        out.add(state.name.as_str());
        out.add(" ");
        out.add(event_name(handler.event));
        print_routine(out, &handler.routine);
    }
}

fn print_routine(out: &mut Shown, routine: &Routine) {
    print_line(out, routine.line);
    if let Some(kind) = routine.kind {
        print_kind(out, kind);
    }
    out.add(" ");
    out.put(&routine.params);
    out.add("/");
    for kind in &routine.slots {
        out.add(letter(*kind));
    }
    out.add(" {");
    print_actions(out, routine.body.as_slice());
    out.add(" }\n");
}

fn letter(kind: Kind) -> &'static str {
    match kind {
        Kind::Int => "i",
        Kind::Str => "s",
        Kind::Key => "k",
        Kind::List => "l",
    }
}

fn numbered(out: &mut Shown, letter: &str, number: usize) {
    out.add(letter);
    out.put(&number);
}

fn print_line(out: &mut Shown, line: u32) {
    out.add("@");
    out.put(&line);
}

fn print_kind(out: &mut Shown, kind: Kind) {
    out.add(":");
    out.add(letter(kind));
}

fn print_cast(out: &mut Shown, kind: Kind) {
    out.add("(");
    out.add(letter(kind));
    out.add(")");
}

fn print_text(out: &mut Shown, text: &Text) {
    let mut bytes = Vec::new(out.alloc());
    let pushed = push_quoted(&mut bytes, text.bytes());
    out.note(pushed);
    out.add(std::str::from_utf8(&bytes).unwrap_or("no text"));
}

fn print_constant(out: &mut Shown, id: ConstantId, kind: Kind) {
    out.add(constant_name(id));
    print_kind(out, kind);
}

fn print_initial(out: &mut Shown, initial: &Initial) {
    match initial {
        Initial::Part { part } => print_part(out, part),
        Initial::Cast { kind, part } => {
            print_cast(out, *kind);
            print_part(out, part);
        }
        Initial::List { parts } => {
            out.add("[");
            for part in parts {
                print_part(out, part);
                out.add(" ");
            }
            out.add("]");
        }
    }
}

fn print_part(out: &mut Shown, part: &Part) {
    match part {
        Part::Int { value } => out.put(value),
        Part::Negative { value } => {
            out.add("-");
            out.put(value);
        }
        Part::Str { text } => print_text(out, text),
        Part::Constant { id, kind } => print_constant(out, *id, *kind),
        Part::Global { number, kind } => print_variable(out, Place::Global(*number), *kind),
    }
}

fn print_place(out: &mut Shown, place: Place) {
    match place {
        Place::Global(number) => numbered(out, "g", number),
        Place::Slot(number) => numbered(out, "s", number),
    }
}

fn print_variable(out: &mut Shown, place: Place, kind: Kind) {
    print_place(out, place);
    print_kind(out, kind);
}

fn print_callee(out: &mut Shown, callee: Callee, line: u32) {
    match callee {
        Callee::Function(number) => numbered(out, "f", number),
        Callee::Builtin(id) => out.add(id.row().name),
    }
    print_line(out, line);
}

/// An expression.
#[cycle(node)]
fn print_node(out: &mut Shown, node: &Node) {
    match node {
        Node::Int { value } => out.put(value),
        Node::Str { text } => print_text(out, text),
        Node::Constant { id, kind } => print_constant(out, *id, *kind),
        Node::Variable { place, kind } => print_variable(out, *place, *kind),
        Node::Call {
            callee,
            kind,
            line,
            arguments,
        } => {
            print_callee(out, *callee, *line);
            print_nodes(out, "(", arguments.as_slice(), ")");
            print_kind(out, *kind);
        }
        Node::List { elements } => print_nodes(out, "[", elements.as_slice(), "]"),
        Node::Cast { kind, operand } => {
            print_cast(out, *kind);
            print_node(out, operand);
        }
        Node::Unary { op, operand } => {
            out.add(unary_sign(*op));
            print_node(out, operand);
        }
        Node::Binary {
            op,
            kind,
            left,
            right,
        } => {
            out.add("(");
            print_node(out, left);
            out.add(binary_sign(*op));
            print_node(out, right);
            out.add(")");
            print_kind(out, *kind);
        }
        Node::Assign { place, kind, value } => {
            out.add("(");
            print_variable(out, *place, *kind);
            out.add("=");
            print_node(out, value);
            out.add(")");
        }
        Node::StepBehind { place, op } => {
            print_place(out, *place);
            out.add(step_sign(*op));
        }
    }
}

/// Expressions between signs, each with a blank after it.
#[cycle(node)]
fn print_nodes(out: &mut Shown, open: &str, nodes: &[Node], close: &str) {
    out.add(open);
    for node in nodes {
        print_node(out, node);
        out.add(" ");
    }
    out.add(close);
}

fn print_effect(out: &mut Shown, effect: &Effect) {
    match effect {
        Effect::Value { node } => print_node(out, node),
        Effect::Call {
            callee,
            line,
            arguments,
        } => {
            print_callee(out, *callee, *line);
            print_nodes(out, "(", arguments.as_slice(), ")");
        }
    }
}

/// The steps of a loop, each with a blank before it.
fn print_steps(out: &mut Shown, steps: &[Effect]) {
    for step in steps {
        out.add(" ");
        print_effect(out, step);
    }
}

/// A word with a line, and a blank.
fn print_head(out: &mut Shown, word: &str, line: u32) {
    out.add(word);
    print_line(out, line);
    out.add(" ");
}

/// A word, a test and a blank.
fn print_test(out: &mut Shown, word: &str, test: &Node) {
    out.add(word);
    print_node(out, test);
    out.add(" ");
}

/// A statement.
#[cycle(action)]
fn print_action(out: &mut Shown, action: &Action) {
    match action {
        Action::Block { actions } => {
            out.add("{");
            print_actions(out, actions.as_slice());
            out.add(" }");
        }
        Action::Effect { effect } => print_effect(out, effect),
        Action::Declare { slot, value } => {
            numbered(out, "s", *slot);
            out.add(":=");
            print_node(out, value);
        }
        Action::Label { label } => numbered(out, "#", *label),
        Action::If { test, then } => {
            print_test(out, "if ", test);
            print_action(out, then);
        }
        Action::IfElse {
            test,
            then,
            otherwise,
        } => {
            print_test(out, "if ", test);
            print_action(out, then);
            out.add(" else ");
            print_action(out, otherwise);
        }
        Action::Loop {
            line,
            test,
            steps,
            body,
        } => {
            print_head(out, "loop", *line);
            print_node(out, test);
            print_steps(out, steps.as_slice());
            out.add(" ");
            print_action(out, body);
        }
        Action::Do { line, body, test } => {
            print_head(out, "do", *line);
            print_action(out, body);
            out.add(" ");
            print_node(out, test);
        }
        Action::Jump { line, label } => {
            print_head(out, "jump", *line);
            numbered(out, "#", *label);
        }
        Action::Return => out.add("return"),
        Action::ReturnValue { value } => {
            out.add("return ");
            print_node(out, value);
        }
        Action::State { state } => numbered(out, "state ", *state),
    }
}

/// Statements, each with a blank before it and a semicolon after it.
#[cycle(action)]
fn print_actions(out: &mut Shown, actions: &[Action]) {
    for action in actions {
        out.add(" ");
        print_action(out, action);
        out.add(";");
    }
}
