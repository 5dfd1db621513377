//! Syntax trees of scripts: one variant for each alternative of the grammar, with the places that later faults
//! and line numbers need. They hold no meaning, and nothing here reads or checks them.
#![tactic(auto)]

mod expression;
mod program;
mod program_action;
mod program_node;
mod script;
mod statement;

pub use crate::expression::{AssignOp, Expr, Name, StepOp};
pub use crate::program::{EventRoutine, Initial, NamedRoutine, Part, Program, ProgramState};
pub use crate::program_action::{Action, Effect, Routine};
pub use crate::program_node::{Callee, Node, Place};
pub use crate::script::{Atom, Function, Global, Handler, Header, Param, Simple, State, Tree};
pub use crate::statement::{Item, StateName, Stmt};
