//! Statements of a checked program.

use crate::program_node::{Callee, Node};
use lsl_value::Kind;

/// An expression used as a statement: its value is dropped, or there is none.
pub enum Effect {
    Value {
        node: Node,
    },
    /// A call without a result, on this line of the text.
    Call {
        callee: Callee,
        line: u32,
        arguments: Vec<Node>,
    },
}

/// A statement. Lines are those of the text, at which a script may wait.
pub enum Action {
    /// Statements of one block. The labels directly in it are visible in all of it.
    Block {
        actions: Vec<Action>,
    },
    Effect {
        effect: Effect,
    },
    /// A declaration, which stores the value in its slot.
    Declare {
        slot: usize,
        value: Node,
    },
    /// The place of the label of this number: none of an enclosing block has the same number.
    Label {
        label: usize,
    },
    If {
        test: Node,
        then: Box<Action>,
    },
    IfElse {
        test: Node,
        then: Box<Action>,
        otherwise: Box<Action>,
    },
    /// `while` and `for`: the steps are done between two rounds.
    Loop {
        line: u32,
        test: Node,
        steps: Vec<Effect>,
        body: Box<Action>,
    },
    /// `do`: the body comes before its first test.
    Do {
        line: u32,
        body: Box<Action>,
        test: Node,
    },
    /// Continues after the label of this number.
    Jump {
        line: u32,
        label: usize,
    },
    Return,
    ReturnValue {
        value: Node,
    },
    /// Goes to the state of this number.
    State {
        state: usize,
    },
}

/// A function, or the handler of an event.
#[derive(Drop)]
pub struct Routine {
    /// The line of its name in the text.
    pub line: u32,
    /// The kind of its result, if it has one.
    pub kind: Option<Kind>,
    /// How many of the slots are parameters: they are the first.
    pub params: usize,
    /// The kinds of parameters and local variables, in the order of declaration.
    pub slots: Vec<Kind>,
    pub body: Vec<Action>,
}

impl Drop for Effect {
    fn drop(self) {
        match self {
            Effect::Value { node: _ } => {}
            Effect::Call {
                callee: _,
                line: _,
                arguments: _,
            } => {}
        }
    }
}

impl Drop for Action {
    fn drop(self) {
        match self {
            Action::Block { actions: _ } => {}
            Action::Effect { effect: _ } => {}
            Action::Declare { slot: _, value: _ } => {}
            Action::Label { label: _ } => {}
            Action::If { test: _, then: _ } => {}
            Action::IfElse {
                test: _,
                then: _,
                otherwise: _,
            } => {}
            Action::Loop {
                line: _,
                test: _,
                steps: _,
                body: _,
            } => {}
            Action::Do {
                line: _,
                body: _,
                test: _,
            } => {}
            Action::Jump { line: _, label: _ } => {}
            Action::Return => {}
            Action::ReturnValue { value: _ } => {}
            Action::State { state: _ } => {}
        }
    }
}
