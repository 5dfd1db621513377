//! What each command shows of the bytes of its file.

use crate::rows::show_rows;
use crate::shown::Shown;
use crate::{front, lines};
use lsl_cases::{Case, Ending, Player, bytes_of};
use std::alloc::{AllocError, Global};
use std::io;
use std::rt::Files;

/// Plays the commands of the parts.
#[derive(Clone, Copy)]
pub struct Parts;

impl<R: Files + AllocGlobal> Player<R> for Parts {
    fn ending(&self, rt: &R, case: Case<'_>) -> io::Result<Ending> {
        let (_, lines) = case.files.split_once('\n').unwrap_or((case.files, ""));
        let bytes = bytes_of(rt, lines)?;
        Ok(ended(rt.alloc(), case.command, bytes.as_slice())?)
    }
}

fn ended(alloc: Global, command: &str, bytes: &[u8]) -> Result<Ending, AllocError> {
    let mut shown = Shown::new(alloc);
    let good = show(&mut shown, command, bytes)?;
    let text = shown.into_text()?;
    let status = String::from_str(alloc, if good { "0" } else { "3" })?;
    Ok(Ending {
        status,
        written: text.into_bytes(),
    })
}

/// Shows what a command asks of the bytes; false if they are refused.
fn show(shown: &mut Shown, command: &str, bytes: &[u8]) -> Result<bool, AllocError> {
    match command {
        "tokens s.lsl" => front::show_tokens(shown, bytes, false),
        "places s.lsl" => front::show_tokens(shown, bytes, true),
        "tree s.lsl" => front::show_tree(shown, bytes),
        "program s.lsl" => front::show_program(shown, bytes),
        "world" => lines::worlds::show(shown, bytes),
        "journal" => lines::entries::show_all(shown, text_of(bytes)),
        topic => show_topic(shown, topic, text_of(bytes)),
    }
}

fn show_topic(shown: &mut Shown, topic: &str, rows: &str) -> Result<bool, AllocError> {
    show_rows(shown, topic, rows)?;
    Ok(true)
}

fn text_of(bytes: &[u8]) -> &str {
    std::str::from_utf8(bytes).unwrap_or("no text")
}
