//! Listens in a table, in which they are found by what they ask.

ghost use Rattle.std.specs.Prelude.{◌≡◌, ◌<◌, ◌∷◌, [], ◌++◌, length, Some, None, true, remove, slice_get, IfOk, OnOk, OnErr};
ghost use Rattle.std.specs.Option.{option_map};
ghost use Rattle.lsl_post.specs.Adding.{AddsListen, GivesListen};
ghost use Rattle.lsl_post.specs.Filters.{filter};
ghost use Rattle.lsl_post.specs.Listens.{closed, controlled, hears, is_number, no_listens, number_of, place_of_filter, standing, with_active_at, IsStanding};

use crate::filters::Filter;
use crate::listen::{Listen, ListenFault};
use crate::numbers::number_after;
use indexmap::IndexMap;
use lsl_text::NoMemory;
use lsl_value::Text;
use std::alloc::Global;
use std::marker::Model;

/// The greatest number of listens.
const MOST_LISTENS: usize = 65;

/// At most 65 listens, in the order in which they were asked for, with the number of the next. They are found
/// by what they ask in one look-up.
#[derive(Drop)]
pub(crate) struct ListenTable {
    next: i32,
    table: IndexMap<Filter, Listen>,
}

impl Model for ListenTable {
    ghost use Rattle.lsl_post.specs.Listens.{Standing, standing};
    ghost use Rattle.lsl_post.specs.Tables.{listens_of, IsTable};

    ghost Value = { Standing };

    ghost view = { λ l. standing l.next (listens_of l.table.entries) };

    ghost invariant = { λ l. IsTable l.next l.table.entries };
}

impl ListenTable {
    /// No listens, and the next number is 1. Takes no memory.
    pub(crate) fn new(alloc: Global) -> ListenTable
        ensures { result ≡ no_listens }
    {
        ListenTable::empty(alloc, 1)
    }

    /// These listens. Takes memory to find them by.
    pub(crate) fn from_list(
        alloc: Global,
        next: i32,
        list: Vec<Listen>,
    ) -> Result<ListenTable, NoMemory>
        requires { IsStanding (standing next list.items) }
        ensures { IfOk result (λ listens. listens ≡ standing next list.items) }
    {
        let mut listens = ListenTable::empty(alloc, next);
        for listen in list {
            listens.push(listen)?;
        }
        Ok(listens)
    }

    /// Where the search for the next listen's number begins. Takes no memory.
    pub(crate) fn next(&self) -> i32
        ensures { result ≡ self.now.next }
    {
        self.next
    }

    /// The number of listens. Takes no memory.
    pub(crate) fn count(&self) -> u32
        ensures value { result ≡ length self.now.list }
        ensures standing { IsStanding self.now }
    {
        self.table.len() as u32
    }

    /// The listen at this place, from 0. Takes no memory.
    pub(crate) fn listen(&self, place: u32) -> &Listen
        requires { place < length self.now.list }
        ensures { Some result.now ≡ slice_get self.now.list place }
    {
        match self.table.get_index(place as usize) {
            Some((_, listen)) => listen,
            None => unreachable!(),
        }
    }

    /// Asks for a listen, and returns its number. A listen with these values is reused and becomes active; otherwise a
    /// new one gets the first free number. Walks the listens for that number.
    pub(crate) fn add(
        &mut self,
        channel: i32,
        name: Text,
        id: Text,
        message: Text,
    ) -> Result<i32, ListenFault>
        ensures { GivesListen (filter channel name id message) self.old self.new result }
    {
        let filter = Filter {
            channel,
            name,
            id,
            message,
        };
        match self.table.get_index_of(&filter) {
            Some(place) => Ok(self.set_active(place, true)),
            None => self.add_new(filter),
        }
    }

    /// Removes the listen of this number, if there is one. Takes no memory; walks the listens.
    pub(crate) fn close(&mut self, number: i32)
        ensures { self.new ≡ closed number self.old }
    {
        if let Some(place) = self.place_of(number) {
            self.remove_at(place as usize);
        }
    }

    /// Makes the listen of this number active or not, if there is one. Takes no memory; walks the listens.
    pub(crate) fn control(&mut self, number: i32, active: bool)
        ensures { self.new ≡ controlled number active self.old }
    {
        if let Some(place) = self.place_of(number) {
            let _number = self.set_active(place as usize, active);
        }
    }

    /// Whether an active listen hears this text, said on this channel under this name and key. Takes no memory; walks
    /// the listens.
    pub(crate) fn hears(&self, channel: i32, name: &Text, id: &Text, message: &Text) -> bool
        ensures { result ≡ hears (filter channel name.now id.now message.now) self.now }
    {
        for place in 0..self.count() {
            if self.listen(place).hears(channel, name, id, message) {
                return true;
            }
        }
        false
    }

    /// Removes all listens; the numbering continues. Takes no memory.
    pub(crate) fn clear(&mut self)
        ensures { self.new ≡ standing self.old.next [] }
    {
        self.table.clear();
    }

    /// Equal listens.
    pub(crate) fn copy(&self, alloc: Global) -> Result<ListenTable, NoMemory>
        ensures { IfOk result (λ listens. listens ≡ self.now) }
    {
        let mut copied = ListenTable::empty(alloc, self.next);
        for place in 0..self.count() {
            copied.push(self.listen(place).copy()?)?;
        }
        Ok(copied)
    }
}

impl ListenTable {
    // No listens, and this is the next number.
    fn empty(alloc: Global, next: i32) -> ListenTable
        requires { is_number next ≡ true }
        ensures { result ≡ standing next [] }
    {
        ListenTable {
            next,
            table: IndexMap::new(alloc),
        }
    }

    // Makes the listen at this place active or not. Returns its number.
    fn set_active(&mut self, place: usize, active: bool) -> i32
        requires { place < length self.old.list }
        ensures number { Some result ≡ option_map number_of (slice_get self.old.list place) }
        ensures listens { self.new ≡ standing self.old.next (with_active_at active place self.old.list) }
    {
        let listen = &mut self.table[place];
        listen.active = active;
        listen.number
    }

    // Removes the listen at this place.
    fn remove_at(&mut self, place: usize)
        ensures { self.new ≡ standing self.old.next (remove self.old.list place) }
    {
        drop(self.table.shift_remove_index(place));
    }

    // Adds a listen that asks what no other does.
    fn add_new(&mut self, filter: Filter) -> Result<i32, ListenFault>
        requires { place_of_filter filter self.old.list ≡ None }
        ensures { AddsListen filter self.old self.new result }
    {
        if self.table.len() >= MOST_LISTENS {
            return Err(ListenFault::TooMany);
        }
        let number = self.free_number();
        self.push(Listen::new(number, filter))?;
        self.next = number_after(number);
        Ok(number)
    }

    // Adds a listen with a number and values that no other has.
    fn push(&mut self, listen: Listen) -> Result<(), NoMemory>
        requires { IsStanding (standing self.old.next (self.old.list ++ listen ∷ [])) }
        ensures ok { OnOk result (self.new ≡ standing self.old.next (self.old.list ++ listen ∷ [])) }
        ensures unchanged { OnErr result (self.new ≡ self.old) }
    {
        let filter = listen.filter()?;
        drop(self.table.insert(filter, listen)?);
        Ok(())
    }
}
