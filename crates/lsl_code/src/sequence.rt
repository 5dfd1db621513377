//! The lists that code and world files consist of.

ghost use Rattle.std.specs.Prelude.{◌≡◌, ◌==◌, ◌<◌, ◌↔◌, [], ◌∷◌, ◌++◌, length, take, slice_get, option_copied, option_to_list, IfOk, IsSome, OnOk, OnErr};

use lsl_text::NoMemory;
use std::alloc::Global;
use std::marker::Model;

/// A list that contracts see as a list.
#[derive(Drop)]
pub struct Sequence<T> {
    list: Vec<T>,
}

impl<T> Model for Sequence<T> {
    ghost use Rattle.std.specs.Prelude.{List};

    ghost Value = { List T };

    ghost view = { λ s. s.list.items };
}

impl<T> Sequence<T> {
    /// No element. Takes no memory.
    pub fn new(alloc: Global) -> Sequence<T>
        ensures { result ≡ [] }
    {
        Sequence {
            list: Vec::new(alloc),
        }
    }

    /// These elements. Takes no memory.
    pub fn from_vec(list: Vec<T>) -> Sequence<T>
        ensures { result ≡ list.items }
    {
        Sequence { list }
    }

    /// The elements as a vector. Takes no memory.
    pub fn into_vec(self) -> Vec<T>
        ensures { result.items ≡ self }
    {
        let Sequence { list } = self;
        list
    }

    /// The elements. Takes no memory.
    pub fn as_slice(&self) -> &[T]
        ensures { result.now ≡ self.now }
    {
        self.list.as_slice()
    }

    /// How many elements there are.
    pub fn len(&self) -> usize
        ensures { result ≡ length self.now }
    {
        self.list.len()
    }

    /// Whether there is no element.
    pub fn is_empty(&self) -> bool
        ensures { result ≡ (length self.now == 0) }
    {
        self.list.is_empty()
    }

    /// The element at this place, if there is one. Takes no memory.
    pub fn get(&self, place: usize) -> Option<&T>
        ensures { option_copied result ≡ slice_get self.now place }
    {
        self.list.get(place)
    }

    /// Takes the last element off, if there is one. Takes no memory.
    pub fn pop(&mut self) -> Option<T>
        ensures items { self.old ≡ self.new ++ option_to_list result }
        ensures some { IsSome result ↔ (0 < length self.old) }
    {
        self.list.pop()
    }
}

impl<T: Drop> Sequence<T> {
    /// Adds an element at the end.
    pub fn push(&mut self, element: T) -> Result<(), NoMemory>
        ensures ok { OnOk result (self.new ≡ self.old ++ element ∷ []) }
        ensures unchanged { OnErr result (self.new ≡ self.old) }
    {
        self.list.push(element)?;
        Ok(())
    }
}

impl<T: Copy> Sequence<T> {
    /// The first `count` elements, or all if there are fewer.
    pub fn first(&self, alloc: Global, count: usize) -> Result<Sequence<T>, NoMemory>
        ensures { IfOk result (λ s. s ≡ take count self.now) }
    {
        let end = count.min(self.list.len());
        let mut list = Vec::new(alloc);
        list.extend_from_slice(&self.list[..end])?;
        Ok(Sequence { list })
    }
}
