//! The keys that objects and prims have so far, in a table.

ghost use Rattle.std.specs.Prelude.{◌≡◌, ◌++◌, ◌∷◌, [], false, length, OnOk};
ghost use Rattle.std.specs.Str.{encode_utf8_all};
ghost use Rattle.lsl_lines.specs.Keys.{has_key};

use indexmap::IndexSet;
use lsl_text::NoMemory;
use lsl_value::Text;
use std::alloc::Global;
use std::marker::Model;

/// Keys, each once.
#[derive(Drop)]
pub struct Keys {
    table: IndexSet<String>,
}

impl Model for Keys {
    ghost use Rattle.std.specs.Prelude.{List, ℕ, map};
    ghost use Rattle.std.specs.String.{string_bytes};

    ghost Value = { List (List ℕ) };

    ghost view = { λ k. map string_bytes k.table.keys };
}

impl Keys {
    /// No key. Takes no memory.
    pub fn new(alloc: Global) -> Keys
        ensures { result ≡ [] }
    {
        Keys {
            table: IndexSet::new(alloc),
        }
    }

    /// How many there are. Takes no memory.
    pub fn len(&self) -> usize
        ensures { result ≡ length self.now }
    {
        self.table.len()
    }

    /// Whether the key is in the table. Takes no memory, and walks no list.
    pub fn has(&self, key: &Text) -> bool
        ensures { result ≡ has_key self.now key.now }
    {
        self.table.contains(key.as_str())
    }

    /// Adds a key that isn't in the table.
    pub fn push(&mut self, alloc: Global, key: &Text) -> Result<(), NoMemory>
        requires { has_key self.old key.now ≡ false }
        ensures { OnOk result (self.new ≡ self.old ++ encode_utf8_all key.now ∷ []) }
    {
        self.table.insert(String::from_str(alloc, key.as_str())?)?;
        Ok(())
    }
}
