//! The lines of entries. In rows `~` separates an entry's parts, `^` is a line feed, `$` a carriage return and `%` a
//! tab.

use crate::shown::Shown;
use crate::words::{long, number, parted, signed};
use lsl_lines::{push_line, push_lines};
use lsl_post::{Entries, Entry, Event, Voice};
use lsl_running::Fault;
use lsl_value::{EventId, Text, Value, Values};
use std::alloc::{AllocError, Global};

/// A text with the signs for line feeds, carriage returns and tabs.
pub fn spelled(alloc: Global, text: &str) -> Result<String, AllocError> {
    let mut spelled = Shown::new(alloc);
    for character in text.chars() {
        spelled.put(&meant(character));
    }
    spelled.into_text()
}

fn meant(sign: char) -> char {
    match sign {
        '^' => '\n',
        '$' => '\r',
        '%' => '\t',
        other => other,
    }
}

/// The sign of a character.
fn sign(meant: char) -> char {
    match meant {
        '\n' => '^',
        '\r' => '$',
        '\t' => '%',
        other => other,
    }
}

/// The line of an entry, without the line feed at its end.
pub fn tell(told: &mut Shown, asked: &str) -> Result<(), AllocError> {
    let mut line = Vec::new(told.alloc());
    push_owned(&mut line, entry(told.alloc(), asked)?)?;
    let line = std::str::from_utf8(&line).unwrap_or("no text");
    tell_signs(told, line.strip_suffix('\n').unwrap_or("no line"));
    Ok(())
}

pub fn tell_signs(told: &mut Shown, line: &str) {
    for character in line.chars() {
        told.put(&sign(character));
    }
}

/// Adds the line of an entry, which is dropped here and nowhere else.
fn push_owned(line: &mut Vec<u8>, entry: Entry) -> Result<(), AllocError> {
    push_line(line, &entry)
}

/// Shows the lines of all rows' entries after a line; false where no entries add one.
pub fn show_all(shown: &mut Shown, rows: &str) -> Result<bool, AllocError> {
    let mut entries = Entries::new(shown.alloc());
    add_rows(shown.alloc(), &mut entries, rows)?;
    show_lines(shown, entries)
}

fn add_rows(alloc: Global, entries: &mut Entries, rows: &str) -> Result<(), AllocError> {
    for row in rows.lines() {
        add_row(alloc, entries, row)?;
    }
    Ok(())
}

/// Adds the entry of a row.
fn add_row(alloc: Global, entries: &mut Entries, row: &str) -> Result<(), AllocError> {
    let (asked, _want) = parted(row, " -> ");
    entries.push(entry(alloc, asked)?)
}

fn show_lines(shown: &mut Shown, entries: Entries) -> Result<bool, AllocError> {
    let mut out = Vec::from_slice(shown.alloc(), b"before\n")?;
    push_lines(&mut out, entries.as_slice())?;
    let length = out.len();
    push_lines(&mut out, &[])?;
    shown.add(std::str::from_utf8(&out).unwrap_or("no text"));
    Ok(out.len() == length)
}

fn text(alloc: Global, signs: &str) -> Result<Text, AllocError> {
    let characters = spelled(alloc, signs)?;
    Ok(Text::from_utf8(alloc, characters.as_bytes())?.unwrap_or(Text::new()))
}

fn entry(alloc: Global, row: &str) -> Result<Entry, AllocError> {
    let (word, rest) = parted(row, "~");
    let (script, rest) = parted(rest, "~");
    let script = number(script);
    Ok(match word {
        "took" => Entry::Took(script, event(alloc, rest)?),
        "drop" => Entry::Drop(script, event(alloc, rest)?),
        "clear" => Entry::Clear(script, number(rest)),
        "chat" => chat(alloc, script, rest)?,
        "owner" => Entry::Owner(script, text(alloc, rest)?),
        "fault" => Entry::Stopped(script, fault(rest)),
        "done" => Entry::Done(script, long(rest)),
        _ => Entry::Home(script, text(alloc, rest)?),
    })
}

fn chat(alloc: Global, script: u32, row: &str) -> Result<Entry, AllocError> {
    let (voice, rest) = parted(row, "~");
    let (channel, said) = parted(rest, "~");
    let said = text(alloc, said)?;
    Ok(Entry::Chat(script, voice_of(voice), signed(channel), said))
}

fn voice_of(word: &str) -> Voice {
    match word {
        "say" => Voice::Say,
        "whisper" => Voice::Whisper,
        "shout" => Voice::Shout,
        _ => Voice::Region,
    }
}

fn fault(word: &str) -> Fault {
    match word {
        "Math" => Fault::MathError,
        "Stack" => Fault::StackHeap,
        _ => Fault::TooManyListens,
    }
}

/// An event: its name, and its arguments.
fn event(alloc: Global, row: &str) -> Result<Event, AllocError> {
    let (word, rest) = parted(row, "~");
    match word {
        "touch_start" => touch_start(alloc, signed(rest)),
        "listen" => listen(alloc, rest),
        "link_message" => link_message(alloc, rest),
        _ => Ok(Event {
            id: EventId::StateEntry,
            args: Values::new(alloc),
            toucher: None,
        }),
    }
}

fn touch_start(alloc: Global, count: i32) -> Result<Event, AllocError> {
    Ok(Event {
        id: EventId::TouchStart,
        args: Values::from_vec(vec![in alloc; Value::Int(count)]?),
        toucher: None,
    })
}

fn listen(alloc: Global, row: &str) -> Result<Event, AllocError> {
    let (channel, rest) = parted(row, "~");
    let (name, rest) = parted(rest, "~");
    let (key, said) = parted(rest, "~");
    let name = Value::Str(text(alloc, name)?);
    let key = Value::Key(text(alloc, key)?);
    let said = Value::Str(text(alloc, said)?);
    Ok(Event {
        id: EventId::Listen,
        args: Values::from_vec(vec![in alloc; Value::Int(signed(channel)), name, key, said]?),
        toucher: None,
    })
}

fn link_message(alloc: Global, row: &str) -> Result<Event, AllocError> {
    let (from, rest) = parted(row, "~");
    let (sent, rest) = parted(rest, "~");
    let (said, key) = parted(rest, "~");
    let said = Value::Str(text(alloc, said)?);
    let key = Value::Key(text(alloc, key)?);
    Ok(Event {
        id: EventId::LinkMessage,
        args: Values::from_vec(vec![in alloc;
            Value::Int(signed(from)),
            Value::Int(signed(sent)),
            said,
            key,
        ]?),
        toucher: None,
    })
}
