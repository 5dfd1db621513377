//! Plays files of cases.

use crate::bytes::bytes_of;
use crate::case::{Case, Ending, case_of};
use crate::telling::tell;
use std::rt::{Env, Files};
use std::{env, fs, io};

/// Runs the command of a case.
pub trait Player<R> {
    /// How the command of a case ends. It fails if a line isn't one of bytes, or a file that it names can't be read.
    fn ending(&self, rt: &R, case: Case<'_>) -> io::Result<Ending>;
}

/// Plays the files of cases that the words of this process name, and prints how many cases of each hold. Before that it
/// prints each case that doesn't.
pub fn play_named<R: Env + Files + Print + AllocGlobal, P: Player<R>>(
    rt: &R,
    player: &P,
) -> io::Result<()> {
    for name in env::args(rt)?.skip(1) {
        play_file(rt, player, name.as_str())?;
    }
    Ok(())
}

/// Plays the cases of a file, and prints how many hold.
fn play_file<R: Files + Print + AllocGlobal, P: Player<R>>(
    rt: &R,
    player: &P,
    name: &str,
) -> io::Result<()> {
    let text = fs::read_to_string(rt, name)?;
    let held = play_all(rt, player, without_feed(text.as_str()))?;
    println!(rt; "{name}: {held} cases hold")
}

fn without_feed(text: &str) -> &str {
    text.strip_suffix('\n').unwrap_or(text)
}

/// Plays cases with an empty line between, and counts those that hold.
fn play_all<R: Files + Print + AllocGlobal, P: Player<R>>(
    rt: &R,
    player: &P,
    texts: &str,
) -> io::Result<u64> {
    let mut held = 0u64;
    for text in texts.split("\n\n") {
        if holds(rt, player, text)? {
            held = held.saturating_add(1);
        }
    }
    Ok(held)
}

/// Whether a text is a case, and its command ends as it must. Prints it if it doesn't.
fn holds<R: Files + Print + AllocGlobal, P: Player<R>>(
    rt: &R,
    player: &P,
    text: &str,
) -> io::Result<bool> {
    let Some(case) = case_of(text) else {
        println!(rt; "not in the form of a case:\n{text}\n")?;
        return Ok(false);
    };
    match bytes_of(rt, case.lines) {
        Ok(wanted) => ends_so(rt, player, case, wanted.as_slice()),
        Err(error) => tell_error(rt, case.name, error),
    }
}

/// Whether the command of a case ends as it must, with these bytes.
fn ends_so<R: Files + Print + AllocGlobal, P: Player<R>>(
    rt: &R,
    player: &P,
    case: Case<'_>,
    wanted: &[u8],
) -> io::Result<bool> {
    match player.ending(rt, case) {
        Ok(ending) => tell(rt, case, &ending, wanted),
        Err(error) => tell_error(rt, case.name, error),
    }
}

/// Prints why a case isn't played; it doesn't hold then.
fn tell_error<R: Print + AllocGlobal>(rt: &R, name: &str, error: io::Error) -> io::Result<bool> {
    println!(rt; "{name}: not played: {error}")?;
    Ok(false)
}
