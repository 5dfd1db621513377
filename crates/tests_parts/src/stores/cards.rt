//! Notecards: lines, faults, cut lines, numbers and queries.

use crate::shown::Shown;
use crate::stores::{repeated, text};
use crate::words::{number, parted};
use lsl_notes::{Card, CardFault, Cards, query, read_card};
use lsl_text::Refusal;
use lsl_value::Text;
use std::alloc::{AllocError, Global};

type ReadCard = Result<Card, Refusal<CardFault>>;

pub fn tell(told: &mut Shown, word: &str, rest: &str) -> Result<(), AllocError> {
    match word {
        "card" => lines(told, rest)?,
        "long" => long(told, rest)?,
        "cut" => cut(told, rest)?,
        "find" => found(told, rest)?,
        "query" => asked(told, rest)?,
        _ => told.add("no such row"),
    }
    Ok(())
}

/// The bytes of a word: `\n` is a line feed, `\r` a carriage return, `\f` the byte 255.
fn bytes_of(alloc: Global, word: &str) -> Result<Vec<u8>, AllocError> {
    let mut bytes = Vec::new(alloc);
    let mut escaped = false;
    for b in word.as_bytes() {
        if escaped || *b != b'\\' {
            bytes.push(if escaped { meant(*b) } else { *b })?;
        }
        escaped = !escaped && *b == b'\\';
    }
    Ok(bytes)
}

/// The byte that a letter after a backslash means.
fn meant(letter: u8) -> u8 {
    match letter {
        b'n' => b'\n',
        b'r' => b'\r',
        _ => 255,
    }
}

/// The lines of a notecard of these bytes.
fn lines(told: &mut Shown, word: &str) -> Result<(), AllocError> {
    let bytes = bytes_of(told.alloc(), word)?;
    let read = read_card(told.alloc(), bytes.as_slice());
    match card_of(told, read) {
        Some(card) => tell_lines(told, card),
        None => Ok(()),
    }
}

/// A notecard that was read. If none was, that is shown.
fn card_of(told: &mut Shown, read: ReadCard) -> Option<Card> {
    match read {
        Ok(card) => Some(card),
        Err(Refusal::Fault(fault)) => {
            tell_fault(told, fault);
            None
        }
        Err(Refusal::NoMemory) => {
            told.note(Err(AllocError));
            None
        }
    }
}

fn tell_fault(told: &mut Shown, fault: CardFault) {
    told.add("fault ");
    told.put(&fault.number());
    told.add(" line ");
    told.put(&fault.line());
}

/// The notecard alone among those of a prim, under the name `n`.
fn cards_of(alloc: Global, card: Card) -> Result<Cards, AllocError> {
    let mut cards = Cards::new(alloc);
    cards.add(1, text(alloc, "n")?, card)?;
    Ok(cards)
}

/// What a script receives of each line, from 0 to the first after the last, with `/` between, and `end` for its three
/// feeds.
fn tell_lines(told: &mut Shown, card: Card) -> Result<(), AllocError> {
    let cards = cards_of(told.alloc(), card)?;
    let name = text(told.alloc(), "n")?;
    tell_each_line(told, &cards, &name)
}

fn tell_each_line(told: &mut Shown, cards: &Cards, name: &Text) -> Result<(), AllocError> {
    if let Some(card) = cards.find(1, name) {
        told.put(&cards.count(card));
        told.add(": ");
        for line in 0..=cards.count(card) {
            tell_line(told, cards.line(card, line)?);
        }
    }
    Ok(())
}

fn tell_line(told: &mut Shown, line: Text) {
    told.add(match line.as_str() {
        "\n\n\n" => "end",
        line => line,
    });
    told.add("/");
}

/// The number of lines of a notecard of this many bytes.
fn long(told: &mut Shown, word: &str) -> Result<(), AllocError> {
    let bytes = repeated(told.alloc(), "a", number(word))?;
    let read = read_card(told.alloc(), bytes.as_bytes());
    if let Some(card) = card_of(told, read) {
        told.put(&card.count());
        told.add(" lines");
    }
    Ok(())
}

/// The number of bytes that a script receives of a line of characters: `COUNT CHARACTER`.
fn cut(told: &mut Shown, asked: &str) -> Result<(), AllocError> {
    let (count, character) = parted(asked, " ");
    let line = repeated(told.alloc(), character, number(count))?;
    let read = read_card(told.alloc(), line.as_bytes());
    match card_of(told, read) {
        Some(card) => tell_length(told, card),
        None => Ok(()),
    }
}

fn tell_length(told: &mut Shown, card: Card) -> Result<(), AllocError> {
    let cards = cards_of(told.alloc(), card)?;
    let name = text(told.alloc(), "n")?;
    tell_first_length(told, &cards, &name)
}

fn tell_first_length(told: &mut Shown, cards: &Cards, name: &Text) -> Result<(), AllocError> {
    if let Some(card) = cards.find(1, name) {
        let line = cards.line(card, 0)?;
        told.put(&line.bytes().len());
    }
    Ok(())
}

/// The numbers of cards that are sought among those that there are: `PRIM NAME, ... : PRIM NAME, ...`.
fn found(told: &mut Shown, asked: &str) -> Result<(), AllocError> {
    let (there, sought) = parted(asked, " : ");
    let cards = named_cards(told.alloc(), there)?;
    tell_numbers(told, &cards, sought)
}

fn tell_numbers(told: &mut Shown, cards: &Cards, sought: &str) -> Result<(), AllocError> {
    for note in sought.split(", ") {
        let (prim, name) = parted(note, " ");
        let name = text(told.alloc(), name)?;
        tell_number(told, cards, number(prim), &name);
    }
    Ok(())
}

fn tell_number(told: &mut Shown, cards: &Cards, prim: u32, name: &Text) {
    match cards.find(prim, name) {
        Some(number) => told.put(&number),
        None => told.add("none"),
    }
    told.add(" ");
}

fn named_cards(alloc: Global, notes: &str) -> Result<Cards, AllocError> {
    let mut cards = Cards::new(alloc);
    add_all(alloc, &mut cards, notes)?;
    Ok(cards)
}

fn add_all(alloc: Global, cards: &mut Cards, notes: &str) -> Result<(), AllocError> {
    for note in notes.split(", ") {
        let (prim, name) = parted(note, " ");
        add(alloc, cards, number(prim), text(alloc, name)?)?;
    }
    Ok(())
}

/// Adds a notecard, if there is room.
fn add(alloc: Global, cards: &mut Cards, prim: u32, name: Text) -> Result<(), AllocError> {
    match read_card(alloc, b"x") {
        Ok(card) if cards.len() < 256 => cards.add(prim, name, card),
        _ => Ok(()),
    }
}

/// The key of a query: `SCRIPT CARD LINE`, a line that isn't a number asks for the count.
fn asked(told: &mut Shown, asked: &str) -> Result<(), AllocError> {
    let (script, rest) = parted(asked, " ");
    let (card, line) = parted(rest, " ");
    let card = u32::from(card.parse::<u16>().unwrap_or(0));
    let key = query(told.alloc(), number(script), card, line.parse::<u32>().ok())?;
    told.add(key.as_str());
    Ok(())
}
