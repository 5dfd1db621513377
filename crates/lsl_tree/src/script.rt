//! Whole scripts: globals, functions and states.

use crate::expression::Name;
use crate::statement::Item;
use lsl_text::Span;
use lsl_value::{Kind, Text};

/// A part of a global's initial value.
#[derive(Drop)]
pub enum Atom {
    /// INT
    Int { value: i32, span: Span },
    /// `-` INT, with the place of the `-`
    Negative { value: i32, span: Span },
    /// STRING
    Str { text: Text, span: Span },
    /// NAME
    Constant { name: Name },
}

/// A global's initial value.
#[derive(Drop)]
pub enum Simple {
    Atom { atom: Atom },
    /// `[` ... `]`
    List { span: Span, atoms: Vec<Atom> },
}

/// A global variable.
#[derive(Drop)]
pub struct Global {
    pub kind: Kind,
    pub name: Name,
    pub value: Option<Simple>,
}

/// A parameter.
#[derive(Drop)]
pub struct Param {
    pub kind: Kind,
    pub name: Name,
}

/// A function; its kind is none where it gives no value.
#[derive(Drop)]
pub struct Function {
    pub kind: Option<Kind>,
    pub name: Name,
    pub params: Vec<Param>,
    pub body: Vec<Item>,
}

/// What comes before the states.
#[derive(Drop)]
pub enum Header {
    Global { global: Global },
    Function { function: Function },
}

/// The handler of an event.
#[derive(Drop)]
pub struct Handler {
    pub name: Name,
    pub params: Vec<Param>,
    pub body: Vec<Item>,
}

/// A state other than `default`.
#[derive(Drop)]
pub struct State {
    pub name: Name,
    pub handlers: Vec<Handler>,
}

/// A script: globals and functions in text order, the handlers of `default`, and the other states.
#[derive(Drop)]
pub struct Tree {
    pub headers: Vec<Header>,
    pub default: Vec<Handler>,
    pub states: Vec<State>,
}
