//! The store of an object.

ghost use Rattle.std.specs.Prelude.{◌≡◌, ◌+◌, ◌++◌, ◌≤◌, ◌∷◌, [], length, IfOk, OnOk, OnErr};
ghost use Rattle.std.specs.Option.{option_copied};
ghost use Rattle.lsl_image.specs.Valid.{IsPair, IsStore};
ghost use Rattle.lsl_data.specs.Answers.{delete_answer, deleted, write_answer, written};
ghost use Rattle.lsl_data.specs.Listing.{names_listed};
ghost use Rattle.lsl_data.specs.Pairs.{bytes_of, value_at};

use crate::answers::Wrote;
use crate::listing;
use crate::pairs::{Named, length_of, pair_at, put, take, used_with};
use lsl_image::Pairs;
use lsl_post::Pair;
use lsl_text::NoMemory;
use lsl_value::{Items, Text};
use std::alloc::Global;
use std::collections::BTreeMap;
use std::marker::Model;

/// How many bytes the names and values of a store have at most, all together.
const MOST_BYTES: u32 = 65_536;

/// The store of an object: values by name, seen as the list of its pairs in rising order of the names' bytes. No name
/// and no value is empty, and all together have at most 65,536 bytes; their number is kept, not counted anew.
#[derive(Drop)]
pub struct Store {
    alloc: Global,
    pairs: Named,
    used: u32,
}

impl Model for Store {
    ghost use Rattle.std.specs.Prelude.{List};
    ghost use Rattle.std.specs.Map.{values_of};
    ghost use Rattle.lsl_post.specs.declared.parts.Pair.{Pair};
    ghost use Rattle.lsl_data.specs.Kept.{IsKept};

    ghost Value = { List Pair };

    ghost view = { λ s. values_of s.pairs.entries };

    ghost invariant = { λ s. IsKept s.pairs.entries s.used };
}

impl Store {
    /// No pair. Takes no memory.
    pub fn new(alloc: Global) -> Store
        ensures { result ≡ [] }
    {
        Store {
            alloc,
            pairs: BTreeMap::new(alloc),
            used: 0,
        }
    }

    /// The store of these pairs, which an image may hold. Takes memory for the map; texts are shared.
    pub fn from_pairs(alloc: Global, pairs: Pairs) -> Result<Store, NoMemory>
        requires { IsStore pairs }
        ensures { IfOk result (λ store. store ≡ pairs) }
    {
        let mut store = Store::new(alloc);
        for pair in pairs.into_vec() {
            store.push(pair)?;
        }
        Ok(store)
    }

    /// Gives the name the value, or takes the name out if the value is empty.
    ///
    /// The result is the first case of [`Wrote`] that holds, of an empty name, an empty value, the value that it has
    /// already, no room. Takes logarithmic time and memory for one entry; when memory runs out the store is unchanged.
    pub fn write(&mut self, name: Text, value: Text) -> Result<Wrote, NoMemory>
        ensures answer { IfOk result (λ wrote. wrote ≡ write_answer self.old name value) }
        ensures after { OnOk result (self.new ≡ written self.old name value) }
        ensures unchanged { OnErr result (self.new ≡ self.old) }
    {
        if name.bytes().is_empty() {
            return Ok(Wrote::NoKey);
        }
        if value.bytes().is_empty() {
            return Ok(self.delete(&name));
        }
        self.put(Pair { name, value })
    }

    // A write of texts that aren't empty.
    fn put(&mut self, pair: Pair) -> Result<Wrote, NoMemory>
        requires { IsPair pair }
        ensures answer { IfOk result (λ wrote. wrote ≡ write_answer self.old pair.name pair.value) }
        ensures after { OnOk result (self.new ≡ written self.old pair.name pair.value) }
        ensures unchanged { OnErr result (self.new ≡ self.old) }
    {
        match used_with(&self.pairs, self.used, &pair) {
            None => Ok(Wrote::Same),
            Some(used) if used > MOST_BYTES => Ok(Wrote::Full),
            Some(used) => {
                put(self.alloc, &mut self.pairs, pair)?;
                self.used = used;
                Ok(Wrote::Stored)
            }
        }
    }

    // Adds a pair after all others.
    fn push(&mut self, pair: Pair) -> Result<(), NoMemory>
        requires { IsStore (self.old ++ pair ∷ []) }
        ensures { OnOk result (self.new ≡ self.old ++ pair ∷ []) }
    {
        let used = self.used + length_of(&pair);
        put(self.alloc, &mut self.pairs, pair)?;
        self.used = used;
        Ok(())
    }

    /// Takes the name out: `NoKey` where it is empty, `NotFound` where there is no such name. Takes
    /// logarithmic time and no memory.
    pub fn delete(&mut self, name: &Text) -> Wrote
        ensures answer { result ≡ delete_answer self.old name.now }
        ensures after { self.new ≡ deleted self.old name.now }
    {
        if name.bytes().is_empty() {
            return Wrote::NoKey;
        }
        match take(&mut self.pairs, name) {
            Some(gone) => {
                self.used -= gone;
                Wrote::Deleted
            }
            None => Wrote::NotFound,
        }
    }

    /// The value of the name: none exactly where there is no such name. Takes logarithmic time and no memory.
    pub fn read(&self, name: &Text) -> Option<&Text>
        ensures { option_copied result ≡ value_at self.now name.now }
    {
        match pair_at(&self.pairs, name) {
            Some(pair) => Some(&pair.value),
            None => None,
        }
    }

    /// Takes out all names. Takes no memory.
    pub fn reset(&mut self)
        ensures { self.new ≡ [] }
    {
        self.pairs.clear();
        self.used = 0;
    }

    /// How many names there are. Takes no memory, and no walk.
    pub fn count(&self) -> u32
        ensures value { result ≡ length self.now }
        ensures within { result ≤ 65535 }
    {
        self.pairs.len() as u32
    }

    /// How many bytes may be added. Takes no memory, and no walk.
    pub fn free(&self) -> u32
        ensures { result + bytes_of self.now ≡ 65536 }
    {
        MOST_BYTES - self.used
    }

    /// The names as strings, in rising order of their bytes: from this place on, below 0 from the first, and `count` of
    /// them, all where that is below 1.
    ///
    /// Steps over the names before the first, and takes memory for those that are listed; they are shared.
    pub fn keys(&self, first: i32, count: i32) -> Result<Items, NoMemory>
        ensures { IfOk result (λ names. names ≡ names_listed self.now first count) }
    {
        listing::names(self.alloc, &self.pairs, first, count)
    }

    /// The pairs, which an image may hold. Takes memory for the list; texts are shared.
    pub fn pairs(&self) -> Result<Pairs, NoMemory>
        ensures value { IfOk result (λ pairs. pairs ≡ self.now) }
        ensures store { IsStore self.now }
    {
        listing::pairs(self.alloc, &self.pairs)
    }
}
