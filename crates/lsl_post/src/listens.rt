//! The listens of a script.

ghost use Rattle.std.specs.Prelude.{◌≡◌, ◌<◌, [], length, Some, slice_get, IfOk};
ghost use Rattle.lsl_post.specs.Adding.{GivesListen};
ghost use Rattle.lsl_post.specs.Filters.{filter};
ghost use Rattle.lsl_post.specs.Listens.{closed, controlled, hears, no_listens, standing, IsStanding};

use crate::listen::{Listen, ListenFault};
use crate::listen_table::ListenTable;
use lsl_text::NoMemory;
use lsl_value::Text;
use std::alloc::Global;
use std::marker::Model;

/// At most 65 listens, in the order in which they were asked for, with the number of the next. Without any listen ever
/// there is no table.
#[derive(Drop)]
pub struct Listens {
    alloc: Global,
    table: Option<Box<ListenTable>>,
}

impl Model for Listens {
    ghost use Rattle.lsl_post.specs.Listens.{Standing};
    ghost use Rattle.lsl_post.specs.Tables.{listens_in};

    ghost Value = { Standing };

    ghost view = { λ l. listens_in l.table };
}

impl Listens {
    /// No listens, and the next number is 1. Takes no memory.
    pub fn new(alloc: Global) -> Listens
        ensures { result ≡ no_listens }
    {
        Listens { alloc, table: None }
    }

    /// These listens. Takes memory to find them by.
    pub fn from_list(alloc: Global, next: i32, list: Vec<Listen>) -> Result<Listens, NoMemory>
        requires { IsStanding (standing next list.items) }
        ensures { IfOk result (λ listens. listens ≡ standing next list.items) }
    {
        let table = ListenTable::from_list(alloc, next, list)?;
        Listens::of(alloc, table)
    }

    /// Where the search for the next listen's number begins. Takes no memory.
    pub fn next(&self) -> i32
        ensures { result ≡ self.now.next }
    {
        match &self.table {
            Some(table) => table.next(),
            None => 1,
        }
    }

    /// The number of listens. Takes no memory.
    pub fn count(&self) -> u32
        ensures value { result ≡ length self.now.list }
        ensures standing { IsStanding self.now }
    {
        match &self.table {
            Some(table) => table.count(),
            None => 0,
        }
    }

    /// The listen at this place, from 0. Takes no memory.
    pub fn listen(&self, place: u32) -> &Listen
        requires { place < length self.now.list }
        ensures { Some result.now ≡ slice_get self.now.list place }
    {
        match &self.table {
            Some(table) => table.listen(place),
            None => unreachable!(),
        }
    }

    /// Asks for a listen, and returns its number. A listen with these values is reused and becomes active; otherwise a
    /// new one gets the first free number. Walks the listens for that number.
    pub fn add(
        &mut self,
        channel: i32,
        name: Text,
        id: Text,
        message: Text,
    ) -> Result<i32, ListenFault>
        ensures { GivesListen (filter channel name id message) self.old self.new result }
    {
        let Some(table) = &mut self.table else {
            return self.add_first(channel, name, id, message);
        };
        table.add(channel, name, id, message)
    }

    /// Removes the listen of this number, if there is one. Takes no memory; walks the listens.
    pub fn close(&mut self, number: i32)
        ensures { self.new ≡ closed number self.old }
    {
        if let Some(table) = &mut self.table {
            table.close(number);
        }
    }

    /// Makes the listen of this number active or not, if there is one. Takes no memory; walks the listens.
    pub fn control(&mut self, number: i32, active: bool)
        ensures { self.new ≡ controlled number active self.old }
    {
        if let Some(table) = &mut self.table {
            table.control(number, active);
        }
    }

    /// Whether an active listen hears this text, said on this channel under this name and key. Takes no memory; walks
    /// the listens.
    pub fn hears(&self, channel: i32, name: &Text, id: &Text, message: &Text) -> bool
        ensures { result ≡ hears (filter channel name.now id.now message.now) self.now }
    {
        match &self.table {
            Some(table) => table.hears(channel, name, id, message),
            None => false,
        }
    }

    /// Removes all listens; the numbering continues. Takes no memory.
    pub fn clear(&mut self)
        ensures { self.new ≡ standing self.old.next [] }
    {
        if let Some(table) = &mut self.table {
            table.clear();
        }
    }

    /// Equal listens.
    pub fn copy(&self, alloc: Global) -> Result<Listens, NoMemory>
        ensures { IfOk result (λ listens. listens ≡ self.now) }
    {
        match &self.table {
            Some(table) => Listens::of(alloc, table.copy(alloc)?),
            None => Ok(Listens::new(alloc)),
        }
    }

    // Asks for the first listen ever.
    fn add_first(
        &mut self,
        channel: i32,
        name: Text,
        id: Text,
        message: Text,
    ) -> Result<i32, ListenFault>
        requires { self.old ≡ no_listens }
        ensures { GivesListen (filter channel name id message) self.old self.new result }
    {
        let mut table = ListenTable::new(self.alloc);
        let added = table.add(channel, name, id, message);
        *self = Listens::of(self.alloc, table)?;
        added
    }

    // Those of a table.
    fn of(alloc: Global, table: ListenTable) -> Result<Listens, NoMemory>
        ensures { IfOk result (λ listens. listens ≡ table) }
    {
        Ok(Listens {
            alloc,
            table: Some(Box::new(alloc, table)?),
        })
    }
}
