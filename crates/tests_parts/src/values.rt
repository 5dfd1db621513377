//! Texts, values, their bytes, operators, tables, pure calls, and the outside in memory.

pub mod bytes;
pub mod calls;
pub mod kinds;
pub mod lists;
pub mod made;
pub mod numbers;
pub mod operators;
pub mod ports;
pub mod tables;
pub mod texts;
pub mod words;
