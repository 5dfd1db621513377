//! Rows: what is asked, ` -> `, the answer, and after ` # ` what the row shows.

use crate::shown::Shown;
use crate::words::parted;
use crate::{handoff, lines, stores, values};
use std::alloc::AllocError;

/// Shows each row that isn't answered as it says, and how many rows hold. A line that begins with `#` is a remark.
pub fn show_rows(shown: &mut Shown, topic: &str, rows: &str) -> Result<(), AllocError> {
    let mut held = 0u32;
    for row in rows.lines() {
        if !row.starts_with('#') && holds(shown, topic, row)? {
            held = held.saturating_add(1);
        }
    }
    shown.put(&held);
    shown.add(" rows hold\n");
    Ok(())
}

/// Whether a row is answered as it says. Shows it if it isn't.
fn holds(shown: &mut Shown, topic: &str, row: &str) -> Result<bool, AllocError> {
    let (asked, answer) = row.split_once(" -> ").unwrap_or((row, "an answer"));
    let (want, _shows) = parted(answer, " # ");
    let said = told(shown, topic, asked)?;
    if said.as_str() == want {
        return Ok(true);
    }
    shown.add(row);
    shown.add(", and not: ");
    shown.add(said.as_str());
    shown.add("\n");
    Ok(false)
}

fn told(shown: &Shown, topic: &str, asked: &str) -> Result<String, AllocError> {
    let mut told = Shown::new(shown.alloc());
    tell(&mut told, topic, asked)?;
    told.into_text()
}

/// The answer to what is asked, by the topic's reader of rows.
fn tell(told: &mut Shown, topic: &str, asked: &str) -> Result<(), AllocError> {
    let (word, rest) = parted(asked, " ");
    match topic {
        "numbers" => values::numbers::tell(told, word, rest),
        "values" => values::kinds::tell(told, word, rest),
        "texts" => values::texts::tell(told, word, rest),
        "lists" => values::lists::tell(told, word, rest),
        "operators" => values::operators::tell(told, word, rest),
        "calls" => values::calls::tell(told, word, rest),
        "tables" => values::tables::tell(told, word, rest),
        "bytes" => values::bytes::tell(told, word, rest),
        "ports" => values::ports::tell(told, word, rest),
        "made" => values::made::tell(told, word, rest),
        "cards" => stores::cards::tell(told, word, rest),
        "stores" => stores::commands::tell(told, asked),
        "entries" => lines::entries::tell(told, asked),
        "frozen" => lines::frozen::tell(told, word, rest),
        "due" => lines::due::tell(told, asked),
        "notes" => handoff::notes::tell(told, word, rest),
        "schedules" => handoff::schedules::tell(told, asked),
        _ => {
            told.add("no such topic");
            Ok(())
        }
    }
}
