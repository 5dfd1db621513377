//! What the front end does with a text, in compact forms.

mod printed;
mod signs;
mod tokens;
mod trees;

use crate::front::printed::print_program;
pub use crate::front::tokens::show_tokens;
use crate::front::trees::print_tree;
use crate::shown::Shown;
use lsl_lex::lex;
use lsl_parse::parse;
use lsl_text::Refusal;
use lsl_tree::{Program, Tree};
use lsl_type::check;
use std::alloc::{AllocError, Global};

/// The tree of a text; nothing if it is refused.
fn tree_of(alloc: Global, text: &[u8]) -> Result<Option<Tree>, AllocError> {
    match accepted(lex(alloc, text))? {
        Some(tokens) => accepted(parse(alloc, &tokens)),
        None => Ok(None),
    }
}

fn program_of(alloc: Global, text: &[u8]) -> Result<Option<Program>, AllocError> {
    match tree_of(alloc, text)? {
        Some(tree) => accepted(check(alloc, &tree)),
        None => Ok(None),
    }
}

/// Shows the tree of a text; false if it is refused.
pub fn show_tree(shown: &mut Shown, text: &[u8]) -> Result<bool, AllocError> {
    match tree_of(shown.alloc(), text)? {
        Some(tree) => {
            print_tree(shown, &tree);
            Ok(true)
        }
        None => Ok(false),
    }
}

/// Shows the checked program of a text; false if it is refused.
pub fn show_program(shown: &mut Shown, text: &[u8]) -> Result<bool, AllocError> {
    match program_of(shown.alloc(), text)? {
        Some(program) => {
            print_program(shown, &program);
            Ok(true)
        }
        None => Ok(false),
    }
}

/// What a phase made, or nothing where it found a fault.
fn accepted<T: Drop, F: Drop>(answer: Result<T, Refusal<F>>) -> Result<Option<T>, AllocError> {
    match answer {
        Ok(made) => Ok(Some(made)),
        Err(Refusal::Fault(_)) => Ok(None),
        Err(Refusal::NoMemory) => Err(AllocError),
    }
}
