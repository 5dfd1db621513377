//! A notecard's text, and where its lines begin.

ghost use Rattle.std.specs.Prelude.{◌≡◌, ◌≤◌, ◌<◌, length, slice_get, IfOk};
ghost use Rattle.std.specs.Option.{option_map};
ghost use Rattle.std.specs.Str.Lines.{lines};

use crate::places::{Places, places_of};
use lsl_text::NoMemory;
use std::alloc::Global;
use std::marker::Model;

/// A text of at most 65,536 bytes, and where its lines begin.
#[derive(Drop)]
pub(crate) struct Page {
    text: String,
    places: Places,
}

impl Model for Page {
    ghost use Rattle.std.specs.Prelude.{List, ℕ, ◌≤◌, length};
    ghost use Rattle.std.specs.String.{string_bytes};
    ghost use Rattle.lsl_notes.specs.Places.{ArePlaces};

    ghost Value = { List ℕ };

    ghost view = { λ p. string_bytes p.text };

    ghost invariant = { λ p. ArePlaces (string_bytes p.text) p.places.eighths.items p.places.count };
}

impl Page {
    /// This text. Takes memory for a copy, and for the places.
    pub(crate) fn new(alloc: Global, text: &str) -> Result<Page, NoMemory>
        requires { length text.now ≤ 65536 }
        ensures { IfOk result (λ page. page ≡ text.now) }
    {
        let places = places_of(alloc, text)?;
        let text = String::from_str(alloc, text)?;
        Ok(Page { text, places })
    }

    /// How many lines there are. Takes no memory, and no walk.
    pub(crate) fn count(&self) -> u32
        ensures value { result ≡ length (lines self.now) }
        ensures within { result ≤ 65537 }
    {
        self.places.count
    }

    /// The line of this number, counted from 0. Takes no memory, and walks that line and at most seven before it.
    pub(crate) fn line(&self, number: u32) -> Option<&str>
        ensures { option_map (λ line. line.now) result ≡ slice_get (lines self.now) number }
    {
        if number >= self.places.count {
            return None;
        }
        let place = self.places.eighths[number as usize / 8] as usize;
        nth_line(&self.text.as_str()[place..], number as usize % 8)
    }
}

// The line of this number of a text.
fn nth_line(text: &str, number: usize) -> Option<&str>
    ensures { option_map (λ line. line.now) result ≡ slice_get (lines text.now) number }
{
    text.lines().nth(number)
}
