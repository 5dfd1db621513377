//! A notecard's text.

ghost use Rattle.std.specs.Prelude.{◌≡◌, ◌≤◌, length, map, slice_get, IfOk};
ghost use Rattle.std.specs.Option.{option_map};
ghost use Rattle.std.specs.Str.{chars};
ghost use Rattle.std.specs.Str.Lines.{lines};

use crate::page::Page;
use lsl_text::NoMemory;
use std::alloc::Global;
use std::marker::Model;
use std::rc::Rc;

/// The lines of a notecard: one more than 65,536 at most. The text is kept once, with a quarter of a byte for each
/// line, and copies share it.
#[derive(Drop)]
pub struct Card {
    page: Rc<Page>,
}

impl Model for Card {
    ghost use Rattle.std.specs.Prelude.{List, ℕ, map};
    ghost use Rattle.std.specs.Rc.{rc_value};
    ghost use Rattle.std.specs.Str.{chars};
    ghost use Rattle.std.specs.Str.Lines.{lines};

    ghost Value = { List (List ℕ) };

    ghost view = { λ c. map chars (lines (rc_value c.page)) };
}

impl Card {
    /// The lines of a text that isn't too long.
    pub(crate) fn of(alloc: Global, text: &str) -> Result<Card, NoMemory>
        requires { length text.now ≤ 65536 }
        ensures { IfOk result (λ card. card ≡ map chars (lines text.now)) }
    {
        let page = Rc::new(alloc, Page::new(alloc, text)?)?;
        Ok(Card { page })
    }

    /// The same notecard, which shares the text of this one. Takes no memory.
    pub fn copy(&self) -> Result<Card, NoMemory>
        ensures { IfOk result (λ card. card ≡ self.now) }
    {
        let page = self.page.clone()?;
        Ok(Card { page })
    }

    /// The line of this number, counted from 0. Takes no memory, and walks that line and at most seven before it.
    pub fn line(&self, number: u32) -> Option<&str>
        ensures { option_map (λ line. chars line.now) result ≡ slice_get self.now number }
    {
        let page: &Page = &self.page;
        page.line(number)
    }

    /// How many lines there are. Takes no memory, and no walk.
    pub fn count(&self) -> u32
        ensures value { result ≡ length self.now }
        ensures within { result ≤ 65537 }
    {
        let page: &Page = &self.page;
        page.count()
    }
}
