//! The journal's entries.

ghost use Rattle.std.specs.Prelude.{◌≡◌, ◌<◌, [], ◌∷◌, ◌++◌, length, slice_set, take, OnOk, OnErr};

use crate::events::Event;
use lsl_running::Fault;
use lsl_text::NoMemory;
use lsl_value::Text;
use std::alloc::Global;
use std::marker::Model;
use std::mem;

/// How text is spoken.
#[derive(Clone, Copy, PartialEq, Eq)]
pub enum Voice {
    Say,
    Whisper,
    Shout,
    Region,
}

/// What happened. The first number is the script's, and in `Home` the object's.
#[derive(Drop)]
pub enum Entry {
    /// a handler of this event began
    Took(u32, Event),
    /// the event found the queue full
    Drop(u32, Event),
    /// this many waiting events went, at a change of state or a reset
    Clear(u32, u32),
    /// the text was said on this channel
    Chat(u32, Voice, i32, Text),
    /// the text was said to the owner
    Owner(u32, Text),
    /// the script stopped for good
    Stopped(u32, Fault),
    /// a handler ended, with the script's charge then
    Done(u32, u64),
    /// the object ended in this region
    Home(u32, Text),
}

/// A list of entries.
#[derive(Drop)]
pub struct Entries {
    list: Vec<Entry>,
}

impl Model for Entries {
    ghost use Rattle.std.specs.Prelude.{List};
    ghost use Rattle.lsl_post.specs.declared.entries.Entry.{Entry};

    ghost Value = { List Entry };

    ghost view = { λ e. e.list.items };
}

impl Entries {
    /// No entry. Takes no memory.
    pub fn new(alloc: Global) -> Entries
        ensures { result ≡ [] }
    {
        Entries {
            list: Vec::new(alloc),
        }
    }

    /// The entries. Takes no memory.
    pub fn as_slice(&self) -> &[Entry]
        ensures { result.now ≡ self.now }
    {
        self.list.as_slice()
    }

    /// How many entries there are.
    pub fn len(&self) -> usize
        ensures { result ≡ length self.now }
    {
        self.list.len()
    }

    /// Adds an entry at the end.
    #[inline(always)]
    pub fn push(&mut self, entry: Entry) -> Result<(), NoMemory>
        ensures ok { OnOk result (self.new ≡ self.old ++ entry ∷ []) }
        ensures unchanged { OnErr result (self.new ≡ self.old) }
    {
        self.list.push(entry)?;
        Ok(())
    }

    /// Replaces the entry at this place. Takes no memory.
    pub fn replace(&mut self, place: usize, entry: Entry)
        requires { place < length self.old }
        ensures { self.new ≡ slice_set self.old place entry }
    {
        drop_entry(mem::replace(&mut self.list[place], entry));
    }

    /// Drops the entries after the first `count`. Takes no memory.
    pub fn truncate(&mut self, count: usize)
        ensures { self.new ≡ take count self.old }
    {
        'entries: while self.list.len() > count {
            match self.list.pop() {
                Some(Entry::Owner(_, _text)) => {}
                None => {}
                Some(entry) => drop_entry(entry),
            }
        }
    }
}

// Drops an entry of any kind: a caller that drops one is proved without a look at the kinds.
fn drop_entry(_entry: Entry) {}
