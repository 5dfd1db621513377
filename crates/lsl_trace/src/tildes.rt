//! Tildes, which begin what markers say and the name of the touched object's script.

use lsl_lines::WorldFile;
use lsl_marks::{Part, told_by_owner};
use lsl_text::NoMemory;
use std::alloc::Global;

/// One tilde more than `count`.
pub fn tildes(alloc: Global, count: usize) -> Result<Vec<u8>, NoMemory> {
    let mut text = Vec::new(alloc);
    for _ in 0..count {
        text.push(b'~')?;
    }
    text.push(b'~')?;
    Ok(text)
}

fn leading_tildes(text: &[u8]) -> usize {
    text.iter().position(|b| *b != b'~').unwrap_or(text.len())
}

/// The most tildes with which the name of a file begins.
pub fn tildes_of_files(file: &WorldFile) -> usize {
    let mut most = 0;
    for name in file.files.as_slice() {
        most = leading_tildes(name.bytes()).max(most);
    }
    for name in file.cards.as_slice() {
        most = leading_tildes(name.bytes()).max(most);
    }
    most
}

/// The most tildes at the start of a text that is said to an owner.
pub fn tildes_told(plain: &[u8]) -> usize {
    let mut most = 0;
    let mut from = 0;
    for (at, byte) in plain.iter().enumerate() {
        if *byte == b'\n' {
            let line = Part { from, to: at }.of(plain);
            most = leading_tildes(told_by_owner(line)).max(most);
            from = at.saturating_add(1);
        }
    }
    most
}
