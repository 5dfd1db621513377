//! Readers of a script's tokens, one function for each rule of the grammar.
//!
//! [`script::script`] is a recursive descent with one token ahead, before an assignment two: it goes back to no token,
//! and copies no list of tokens. It never checks what names mean.
#![tactic(auto)]

mod close;
mod expression;
mod names;
mod next;
mod operand;
pub mod script;
mod statement;
pub mod stop;
mod take;
