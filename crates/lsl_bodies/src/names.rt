//! Names in the order in which they were declared, with a table that finds the latest of a name.

ghost use Rattle.std.specs.Prelude.{◌≡◌, ◌<◌, ◌-◌, ◌∷◌, [], length, drop, OnOk, OnErr, IfSome};
ghost use Rattle.lsl_bodies.specs.Names.{nearest};

use crate::places::{note, set};
use indexmap::IndexMap;
use lsl_text::NoMemory;
use std::alloc::Global;
use std::marker::Model;

/// The place of a name in the table, and the number of the earlier one that it hides.
#[derive(Drop)]
struct Entry {
    place: usize,
    hidden: Option<usize>,
}

/// Names, each with a number: how many were there before it.
#[derive(Drop)]
pub struct Names {
    table: IndexMap<String, Option<usize>>,
    entries: Vec<Entry>,
}

impl Model for Names {
    ghost use Rattle.std.specs.Prelude.{List, ℕ};

    ghost Value = { List (List ℕ) };

    ghost use Rattle.lsl_bodies.specs.NameTable.{names_of, IsTable};
    ghost use Rattle.lsl_bodies.specs.Places.{texts_of};

    ghost view = { λ n. names_of (texts_of n.table) n.entries.items };

    ghost invariant = { λ n. IsTable n.table n.entries.items };
}

impl Names {
    /// No name. Takes no memory.
    pub fn new(alloc: Global) -> Names
        ensures { result ≡ [] }
    {
        Names {
            table: IndexMap::new(alloc),
            entries: Vec::new(alloc),
        }
    }

    /// How many names there are.
    pub fn len(&self) -> usize
        ensures { result ≡ length self.now }
    {
        self.entries.len()
    }

    /// The number of the latest entry of this name. Takes no memory, and walks no list.
    pub fn find(&self, name: &str) -> Option<usize>
        ensures found { result ≡ nearest name.now self.now }
        ensures within { IfSome result (λ number. number < usize.MAX) }
    {
        self.table.get(name).copied().flatten()
    }

    /// Declares a name.
    pub fn push(&mut self, alloc: Global, name: &str) -> Result<(), NoMemory>
        ensures ok { OnOk result (self.new ≡ name.now ∷ self.old) }
        ensures unchanged { OnErr result (self.new ≡ self.old) }
    {
        self.entries.reserve(1)?;
        let number = self.entries.len();
        let (place, hidden) = note(&mut self.table, alloc, name, number)?;
        match self.entries.push(Entry { place, hidden }) {
            Ok(()) => Ok(()),
            Err(_) => unreachable!(),
        }
    }

    /// Removes the latest name, if there is one. Takes no memory.
    pub fn pop(&mut self)
        ensures { self.new ≡ drop 1 self.old }
    {
        if let Some(Entry { place, hidden }) = self.entries.pop() {
            set(&mut self.table, place, hidden);
        }
    }

    /// Removes all names. Takes no memory, and keeps its buffers for those to come.
    pub fn clear(&mut self)
        ensures { self.new ≡ [] }
    {
        self.truncate(0);
    }

    /// Removes all names but the first `len`. Takes no memory.
    pub fn truncate(&mut self, len: usize)
        ensures { self.new ≡ drop (length self.old - len) self.old }
    {
        while self.len() > len {
            self.pop();
        }
    }
}
