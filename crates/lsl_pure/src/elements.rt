//! Elements of a list as integers, texts, keys and types, and the absolute value.

ghost use Rattle.std.specs.Prelude.{◌≡◌, IfOk};
ghost use Rattle.lsl_pure.specs.Elements.{element_at, integer_of, string_of, key_of, type_of};
ghost use Rattle.std.specs.Option.{option_copied};

use crate::ranges::place;
use lsl_text::NoMemory;
use lsl_value::{Atom, Items, Text};
use std::alloc::Global;

/// The type of an integer, of a string and of a key, and of no element.
const TYPE_INTEGER: i32 = 1;

const TYPE_STRING: i32 = 3;

const TYPE_KEY: i32 = 4;

const TYPE_INVALID: i32 = 0;

/// The element at a place that counts from the end where it is negative.
fn element(items: &Items, at: i32) -> Option<&Atom>
    ensures { option_copied result ≡ element_at items.now at }
{
    match usize::try_from(place(items.len(), at)) {
        Ok(at) => items.as_slice().get(at),
        Err(_) => None,
    }
}

/// The integer of an element: what a string begins with, 0 for a key or no element. Takes no memory. See
/// <https://wiki.secondlife.com/wiki/LlList2Integer>.
pub fn list_to_integer(items: &Items, at: i32) -> i32
    ensures { result ≡ integer_of (element_at items.now at) }
{
    match element(items, at) {
        Some(atom) => atom.integer(),
        None => 0,
    }
}

/// The text of an element, empty for no element. See <https://wiki.secondlife.com/wiki/LlList2String>.
pub fn list_to_string(alloc: Global, items: &Items, at: i32) -> Result<Text, NoMemory>
    ensures { IfOk result (λ text. text ≡ string_of (element_at items.now at)) }
{
    match element(items, at) {
        Some(atom) => atom.text(alloc),
        None => Ok(Text::new()),
    }
}

/// The key of a key's or string's text, of the empty text for an integer or no element. See
/// <https://wiki.secondlife.com/wiki/LlList2Key>.
pub fn list_to_key(items: &Items, at: i32) -> Result<Text, NoMemory>
    ensures { IfOk result (λ text. text ≡ key_of (element_at items.now at)) }
{
    match element(items, at) {
        Some(Atom::Str(text) | Atom::Key(text)) => text.copy(),
        Some(Atom::Int(_)) | None => Ok(Text::new()),
    }
}

/// The type of an element: 1, 3 or 4, and 0 for no element. Takes no memory. See
/// <https://wiki.secondlife.com/wiki/LlGetListEntryType>.
pub fn entry_type(items: &Items, at: i32) -> i32
    ensures { result ≡ type_of (element_at items.now at) }
{
    match element(items, at) {
        Some(Atom::Int(_)) => TYPE_INTEGER,
        Some(Atom::Str(_)) => TYPE_STRING,
        Some(Atom::Key(_)) => TYPE_KEY,
        None => TYPE_INVALID,
    }
}
