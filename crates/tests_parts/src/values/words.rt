//! Values as words. A letter gives the kind, and the value follows it: `I` an integer, `S` a string, `K` a key, `L` a
//! list. A slash separates a list's elements: `n` an integer, `t` a string, `y` a key.

use crate::shown::Shown;
use crate::words::{parted, short, signed};
use lsl_value::{Atom, Items, Kind, MAX_ITEMS, Text, Value, Values};
use std::alloc::{AllocError, Global};

/// A control character for its picture, since a row is a line.
fn meant(shown: char) -> char {
    match shown {
        '␉' => '\t',
        '␊' => '\n',
        '␋' => '\x0b',
        '␌' => '\x0c',
        '␍' => '\r',
        other => other,
    }
}

/// Its picture for a control character.
fn pictured(meant: char) -> char {
    match meant {
        '\t' => '␉',
        '\n' => '␊',
        other => other,
    }
}

/// The characters that a word means. One that begins with `%` has that many letters `a`, and what is after a blank.
pub fn characters(alloc: Global, word: &str) -> Result<String, AllocError> {
    match word.strip_prefix('%') {
        Some(letters) => repeated(alloc, letters),
        None => unpictured(alloc, word),
    }
}

fn repeated(alloc: Global, letters: &str) -> Result<String, AllocError> {
    let (count, end) = parted(letters, " ");
    let mut characters = Shown::new(alloc);
    for _ in 0..short(count) {
        characters.add("a");
    }
    characters.add(end);
    characters.into_text()
}

fn unpictured(alloc: Global, word: &str) -> Result<String, AllocError> {
    let mut characters = Shown::new(alloc);
    for character in word.chars() {
        characters.put(&meant(character));
    }
    characters.into_text()
}

/// Characters as they are written in a row.
pub fn tell_characters(told: &mut Shown, characters: &str) {
    for character in characters.chars() {
        told.put(&pictured(character));
    }
}

pub fn text(alloc: Global, word: &str) -> Result<Text, AllocError> {
    let characters = characters(alloc, word)?;
    Ok(Text::from_utf8(alloc, characters.as_bytes())?.unwrap_or(Text::new()))
}

/// A letter and what is after it.
pub fn headed(word: &str) -> (&str, &str) {
    word.split_at_checked(1).unwrap_or(("", word))
}

pub fn atom(alloc: Global, word: &str) -> Result<Atom, AllocError> {
    let (kind, rest) = headed(word);
    if kind == "n" {
        return Ok(Atom::Int(signed(rest)));
    }
    let text = text(alloc, rest)?;
    Ok(if kind == "t" {
        Atom::Str(text)
    } else {
        Atom::Key(text)
    })
}

pub fn items(alloc: Global, words: &str) -> Result<Items, AllocError> {
    let mut items = Items::new(alloc);
    if !words.is_empty() {
        add_atoms(alloc, &mut items, words)?;
    }
    Ok(items)
}

fn add_atoms(alloc: Global, items: &mut Items, words: &str) -> Result<(), AllocError> {
    for word in words.split('/') {
        add(items, atom(alloc, word)?)?;
    }
    Ok(())
}

/// Adds an element where there is room for it.
fn add(items: &mut Items, atom: Atom) -> Result<(), AllocError> {
    if items.len() < MAX_ITEMS {
        return items.push(atom);
    }
    Ok(())
}

pub fn value(alloc: Global, word: &str) -> Result<Value, AllocError> {
    let (kind, rest) = headed(word);
    match kind {
        "I" => Ok(Value::Int(signed(rest))),
        "S" => Ok(Value::Str(text(alloc, rest)?)),
        "K" => Ok(Value::Key(text(alloc, rest)?)),
        _ => Ok(Value::List(items(alloc, rest)?)),
    }
}

/// Values with a bar between them.
pub fn values(alloc: Global, words: &str) -> Result<Values, AllocError> {
    let mut values = Values::new(alloc);
    add_values(alloc, &mut values, words)?;
    Ok(values)
}

fn add_values(alloc: Global, values: &mut Values, words: &str) -> Result<(), AllocError> {
    for word in words.split('|') {
        values.push(value(alloc, word)?)?;
    }
    Ok(())
}

fn tell_atom(told: &mut Shown, atom: &Atom) {
    match atom {
        Atom::Int(n) => tell_number(told, "n", *n),
        Atom::Str(text) => tell_text(told, "t", text),
        Atom::Key(text) => tell_text(told, "y", text),
    }
}

fn tell_number(told: &mut Shown, kind: &str, number: i32) {
    told.add(kind);
    told.put(&number);
}

fn tell_text(told: &mut Shown, kind: &str, text: &Text) {
    told.add(kind);
    tell_characters(told, text.as_str());
}

pub fn tell_atoms(told: &mut Shown, atoms: &[Atom]) {
    let mut before = "L";
    for atom in atoms {
        told.add(before);
        tell_atom(told, atom);
        before = "/";
    }
    if atoms.is_empty() {
        told.add("L");
    }
}

pub fn tell_value(told: &mut Shown, value: &Value) {
    match value {
        Value::Int(n) => tell_number(told, "I", *n),
        Value::Str(text) => tell_text(told, "S", text),
        Value::Key(text) => tell_text(told, "K", text),
        Value::List(items) => tell_atoms(told, items.as_slice()),
    }
}

/// Shows a value that nothing else needs, or notes that memory ran out.
pub fn tell_made(told: &mut Shown, made: Result<Value, AllocError>) {
    match made {
        Ok(value) => tell_value(told, &value),
        Err(lack) => told.note(Err(lack)),
    }
}

/// Shows a value that nothing else needs, or why there is none.
pub fn tell_answer<F: std::fmt::Debug + Drop>(told: &mut Shown, answer: Result<Value, F>) {
    match answer {
        Ok(value) => tell_value(told, &value),
        Err(fault) => told.debug(&fault),
    }
}

/// The kind of a letter.
pub fn kind(letter: &str) -> Kind {
    match letter {
        "i" => Kind::Int,
        "s" => Kind::Str,
        "k" => Kind::Key,
        _ => Kind::List,
    }
}

/// The letter of a kind.
pub fn letter(kind: Kind) -> &'static str {
    match kind {
        Kind::Int => "i",
        Kind::Str => "s",
        Kind::Key => "k",
        Kind::List => "l",
    }
}

/// The letter of a kind, and a dash if there is none.
pub fn letter_or_dash(kind: Option<Kind>) -> &'static str {
    match kind {
        Some(kind) => letter(kind),
        None => "-",
    }
}
