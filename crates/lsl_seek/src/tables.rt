//! The tables of a trace.

ghost use Rattle.std.specs.Prelude.{◌≡◌};
ghost use Rattle.lsl_seek.specs.Bytes.{Sees};
ghost use Rattle.lsl_seek.specs.Rows.{file_of, long_word_of, row, row_after, row_of, script_of, word_of};
ghost use Rattle.lsl_seek.specs.Tables.{mark_of, name_of, place, variable};

use crate::bytes::{cut, is_word, number, take_number, take_word};
use crate::entry::{Slot, Sort, parse_at, parse_said, parse_set_words, parse_slot};

/// A variable of a file or of a mark, as its line has it.
#[derive(Clone, Copy)]
pub struct Name<'a> {
    /// The number of the file or the mark.
    pub of: u32,
    pub slot: Slot,
    pub kind: &'a [u8],
    pub name: &'a [u8],
}

/// A place of a script's text.
#[derive(Clone, Copy)]
pub struct Mark<'a> {
    pub unit: u32,
    pub routine: &'a [u8],
    pub sort: Sort,
    pub line: u32,
}

/// What a line of a trace is.
pub enum Row<'a> {
    Entry,
    /// A value of the entry before it.
    Value,
    /// The file's name, in quotes.
    File(&'a [u8]),
    /// The unit that a script runs.
    Script(u32),
    Global(Name<'a>),
    Mark(Mark<'a>),
    Name(Name<'a>),
}

/// The first word of a line of a trace.
#[derive(Clone, Copy)]
enum Word {
    Set,
    At,
    Said,
    File,
    Script,
    Global,
    Mark,
    Name,
}

impl Word {
    fn of(text: &[u8]) -> Option<Word>
        ensures { result ≡ word_of text.now }
    {
        match text {
            b"set" => Some(Word::Set),
            b"at" => Some(Word::At),
            b"said" => Some(Word::Said),
            b"file" => Some(Word::File),
            b"mark" => Some(Word::Mark),
            b"name" => Some(Word::Name),
            _ => Word::of_long(text),
        }
    }

    fn of_long(text: &[u8]) -> Option<Word>
        ensures { result ≡ long_word_of text.now }
    {
        if text == b"script".as_slice() {
            return Some(Word::Script);
        }
        if text == b"global".as_slice() {
            return Some(Word::Global);
        }
        None
    }
}

/// What a line is, if it is one of a trace.
pub fn parse_row(line: &[u8]) -> Option<Row>
    ensures { Sees row result (row_of line.now) }
{
    let (first, after) = cut(line, b' ');
    parse_after(Word::of(first)?, after)
}

// What a line is with this first word.
fn parse_after(first: Word, rest: &[u8]) -> Option<Row>
    ensures { Sees row result (row_after first rest.now) }
{
    match first {
        Word::Set => {
            let _ = parse_set_words(rest)?;
            Some(Row::Value)
        }
        Word::At => {
            let _ = parse_at(rest)?;
            Some(Row::Entry)
        }
        Word::Said => {
            let _ = parse_said(rest)?;
            Some(Row::Entry)
        }
        Word::File => Some(Row::File(parse_file(rest)?)),
        Word::Script => Some(Row::Script(parse_script(rest)?)),
        Word::Global => Some(Row::Global(parse_name(rest)?)),
        Word::Mark => Some(Row::Mark(parse_mark(rest)?)),
        Word::Name => Some(Row::Name(parse_name(rest)?)),
    }
}

// The quoted name before the last word, a number.
#[tactic(auto, unfolding(crate::specs::Rows::file_of))]
fn parse_file(text: &[u8]) -> Option<&[u8]>
    ensures { Sees (λ name. name.now) result (file_of text.now) }
{
    let (_, text) = take_number(text)?;
    match text {
        [b'"', .., b' ', b'0'..=b'4'] => Some(&text[..text.len() - 2]),
        _ => None,
    }
}

#[tactic(auto, unfolding(crate::specs::Rows::script_of))]
fn parse_script(text: &[u8]) -> Option<u32>
    ensures { result ≡ script_of text.now }
{
    let (_, text) = take_number(text)?;
    let (unit, text) = take_number(text)?;
    match text {
        [b'"', .., b'"'] => Some(unit),
        _ => None,
    }
}

#[tactic(auto, unfolding(crate::specs::Tables::name_of))]
fn parse_name(text: &[u8]) -> Option<Name>
    ensures { Sees variable result (name_of text.now) }
{
    let (of, text) = take_number(text)?;
    let (slot, text) = take_word(text)?;
    let (kind, text) = take_word(text)?;
    let slot = parse_slot(slot)?;
    if !is_word(text) {
        return None;
    }
    Some(Name {
        of,
        slot,
        kind,
        name: text,
    })
}

#[tactic(auto, unfolding(crate::specs::Tables::mark_of))]
fn parse_mark(text: &[u8]) -> Option<Mark>
    ensures { Sees place result (mark_of text.now) }
{
    let (_, text) = take_number(text)?;
    let (unit, text) = take_number(text)?;
    let (routine, text) = take_word(text)?;
    let (sort, text) = take_word(text)?;
    let (line, text) = take_number(text)?;
    let _ = number(text)?;
    let sort = Sort::of_mark(sort)?;
    Some(Mark {
        unit,
        routine,
        sort,
        line,
    })
}
