//! The lines of a journal.

use crate::tokens::Part;

/// The first word of a line.
#[derive(Clone, Copy, Debug, PartialEq, Eq)]
pub enum Word {
    Took,
    Drop,
    Owner,
    Done,
    Fault,
    Home,
    Other,
}

impl Word {
    pub fn of(word: &[u8]) -> Word {
        match word {
            b"took" => Word::Took,
            b"drop" => Word::Drop,
            b"owner" => Word::Owner,
            b"done" => Word::Done,
            b"fault" => Word::Fault,
            b"home" => Word::Home,
            _ => Word::Other,
        }
    }
}

/// A line of a journal: its first word, the number after it, and what follows.
#[derive(Clone, Copy)]
pub struct Line<'a> {
    pub whole: &'a [u8],
    pub word: Word,
    pub number: usize,
    pub rest: &'a [u8],
}

impl<'a> Line<'a> {
    pub fn of(whole: &'a [u8]) -> Line<'a> {
        let (word, after) = cut(whole);
        let (number, rest) = cut(after);
        Line {
            whole,
            word: Word::of(word),
            number: number_of(number).unwrap_or(0),
            rest,
        }
    }
}

/// What is before the first space, and after it.
fn cut(text: &[u8]) -> (&[u8], &[u8]) {
    let place = text.iter().position(|b| *b == b' ').unwrap_or(text.len());
    let after = Part {
        from: place.saturating_add(1),
        to: text.len(),
    };
    (Part { from: 0, to: place }.of(text), after.of(text))
}

/// What a line says to an owner, after its quote; nothing where it says nothing to one.
pub fn told_by_owner(line: &[u8]) -> &[u8] {
    let line = Line::of(line);
    match line.rest {
        [b'"', told @ ..] if line.word == Word::Owner => told,
        _ => b"",
    }
}

pub fn number_of(digits: &[u8]) -> Option<usize> {
    match std::str::from_utf8(digits) {
        Ok(text) => text.parse::<usize>().ok(),
        Err(_) => None,
    }
}
