//! Notecards, and the stores of objects.

pub mod cards;
pub mod commands;

use crate::shown::Shown;
use lsl_value::Text;
use std::alloc::{AllocError, Global};

/// A text `count` times, one after the other.
fn repeated(alloc: Global, part: &str, count: u32) -> Result<String, AllocError> {
    let mut text = Shown::new(alloc);
    for _ in 0..count {
        text.add(part);
    }
    text.into_text()
}

/// A short text; an empty one where it is too long.
fn text(alloc: Global, word: &str) -> Result<Text, AllocError> {
    Ok(Text::from_utf8(alloc, word.as_bytes())?.unwrap_or(Text::new()))
}
