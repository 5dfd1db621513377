//! The notecards of a world, each in its prim.

ghost use Rattle.std.specs.Prelude.{◌≡◌, ◌==◌, ◌++◌, ◌∷◌, [], ◌≤◌, ◌<◌, length, IfOk, IfSome, OnOk, OnErr};
ghost use Rattle.lsl_notes.specs.Notecards.{card_at, data_of, end_of_card, lies_at, most_cards, number_of, IsListed};

use crate::card::Card;
use crate::cutting::cut_line;
use lsl_text::NoMemory;
use lsl_value::Text;
use std::alloc::Global;
use std::marker::Model;

/// A notecard: the number of its prim among all prims of the world, its name, and its lines.
#[derive(Drop)]
pub struct Notecard {
    pub prim: u32,
    pub name: Text,
    pub card: Card,
}

impl Notecard {
    /// Whether it lies in this prim, under this name. Takes no memory.
    pub fn lies_at(&self, prim: u32, name: &Text) -> bool
        ensures { result ≡ lies_at prim name.now self.now }
    {
        self.prim == prim && self.name == *name
    }
}

/// At most 256 notecards, numbered from 1 on in the order in which they were added. Each is held once.
#[derive(Drop)]
pub struct Cards {
    list: Vec<Notecard>,
}

impl Model for Cards {
    ghost use Rattle.std.specs.Prelude.{List, ◌≤◌, length};
    ghost use Rattle.lsl_notes.specs.declared.cards.Notecard.{Notecard};

    ghost Value = { List Notecard };

    ghost view = { λ c. c.list.items };

    ghost invariant = { λ c. length c.list.items ≤ 256 };
}

impl Cards {
    /// No notecard. Takes no memory.
    pub fn new(alloc: Global) -> Cards
        ensures { result ≡ [] }
    {
        Cards {
            list: Vec::new(alloc),
        }
    }

    /// How many notecards there are.
    pub fn len(&self) -> usize
        ensures value { result ≡ length self.now }
        ensures within { result ≤ most_cards }
    {
        self.list.len()
    }

    /// Whether there is none.
    pub fn is_empty(&self) -> bool
        ensures { result ≡ (length self.now == 0) }
    {
        self.list.is_empty()
    }

    /// Adds a notecard, which gets the next number.
    pub fn add(&mut self, prim: u32, name: Text, card: Card) -> Result<(), NoMemory>
        requires { length self.old < most_cards }
        ensures ok { OnOk result
            (self.new ≡ self.old ++ (record { prim = prim; name = name; card = card }) ∷ []) }
        ensures unchanged { OnErr result (self.new ≡ self.old) }
    {
        self.list.push(Notecard { prim, name, card })?;
        Ok(())
    }

    /// The number of the first notecard of this prim with this name: none exactly where the prim has none.
    /// Walks the list of notecards, and takes no memory.
    pub fn find(&self, prim: u32, name: &Text) -> Option<u32>
        ensures number { result ≡ number_of self.now prim name.now }
        ensures listed { IfSome result (IsListed self.now) }
        ensures within { IfSome result (λ number. number ≤ most_cards) }
    {
        match self.list.iter().position(|card| card.lies_at(prim, name)) {
            Some(place) => Some(place as u32 + 1),
            None => None,
        }
    }

    /// What a script receives that asks for this line, counted from 0: the line's first 1,024 bytes, without a
    /// character that would be split, or three line feeds where the notecard has no such line.
    ///
    /// Takes memory for a copy, and walks that line and at most seven before it.
    pub fn line(&self, card: u32, line: u32) -> Result<Text, NoMemory>
        requires { IsListed self.now card }
        ensures { IfOk result (λ text. text ≡ data_of (card_at self.now card) line) }
    {
        let alloc = *self.list.allocator();
        match self.card(card).line(line) {
            Some(text) => cut_line(alloc, text),
            None => end_of_card(alloc),
        }
    }

    /// How many lines the notecard has. Takes no memory, and no walk.
    pub fn count(&self, card: u32) -> u32
        requires { IsListed self.now card }
        ensures value { result ≡ length (card_at self.now card) }
        ensures within { result ≤ 65537 }
    {
        self.card(card).count()
    }

    // The notecard of this number.
    fn card(&self, number: u32) -> &Card
        requires { IsListed self.now number }
        ensures { result.now ≡ card_at self.now number }
    {
        &self.list[number as usize - 1].card
    }
}

// Three line feeds, the answer for a line after the last.
fn end_of_card(alloc: Global) -> Result<Text, NoMemory>
    ensures { IfOk result (λ text. text ≡ end_of_card) }
{
    Text::from_string(String::from_str(alloc, "\n\n\n")?)
}
