//! Texts that grow, alone and shared, and texts of bytes and numbers.

use crate::shown::Shown;
use crate::values::words::{atom, text};
use crate::words::{parted, signed};
use lsl_value::Text;
use std::alloc::AllocError;

pub fn tell(told: &mut Shown, word: &str, rest: &str) -> Result<(), AllocError> {
    match word {
        "text" => grown(told, rest)?,
        "joined" => joined(told)?,
        "byte" => byte(told, rest)?,
        "decimal" => decimal(told, rest)?,
        "atom" => atom_text(told, rest)?,
        _ => told.add("no such row"),
    }
    Ok(())
}

/// An empty text grows by another one, and is copied: the text, its last copy, and the other.
fn grown(told: &mut Shown, asked: &str) -> Result<(), AllocError> {
    let (tail, steps) = parted(asked, " ");
    let tail = text(told.alloc(), tail)?;
    let mut grown = Text::new();
    let mut copied = Text::new();
    told.note(take_steps(&mut grown, &mut copied, &tail, steps));
    told.add(grown.as_str());
    told.add(" ");
    told.add(copied.as_str());
    told.add(" ");
    told.add(tail.as_str());
    Ok(())
}

fn take_steps(
    grown: &mut Text,
    copied: &mut Text,
    tail: &Text,
    steps: &str,
) -> Result<(), AllocError> {
    for step in steps.split(' ') {
        match step {
            "copy" => copy_to(copied, grown)?,
            _ => grow(grown, tail)?,
        }
    }
    Ok(())
}

fn copy_to(copied: &mut Text, grown: &Text) -> Result<(), AllocError> {
    *copied = grown.copy()?;
    Ok(())
}

fn grow(grown: &mut Text, tail: &Text) -> Result<(), AllocError> {
    if grown.charge() + tail.charge() < 1_000 {
        return grown.push_text(tail);
    }
    Ok(())
}

/// A text and one of ASCII: the charges of both, both joined, and whether that is the text of these characters.
fn joined(told: &mut Shown) -> Result<(), AllocError> {
    let alloc = told.alloc();
    let mut joined = text(alloc, "né")?;
    let tail = Text::from_ascii(b"e".to_vec(alloc)?)?;
    told.put(&joined.charge());
    told.add(" ");
    told.put(&tail.charge());
    told.add(" ");
    grow(&mut joined, &tail)?;
    told.add(joined.as_str());
    told.add(" ");
    let whole = Text::from_string(String::from_str(alloc, "née")?)?;
    told.put(&(joined == whole));
    Ok(())
}

/// Whether a byte is a text.
fn byte(told: &mut Shown, number: &str) -> Result<(), AllocError> {
    let made = Text::from_utf8(told.alloc(), &[crate::words::byte(number)])?;
    told.put(&made.is_some());
    Ok(())
}

fn decimal(told: &mut Shown, number: &str) -> Result<(), AllocError> {
    let decimal = Text::decimal(told.alloc(), signed(number))?;
    told.add(decimal.as_str());
    Ok(())
}

/// The text of an element.
fn atom_text(told: &mut Shown, word: &str) -> Result<(), AllocError> {
    let text = atom(told.alloc(), word)?.text(told.alloc())?;
    told.add(text.as_str());
    Ok(())
}
