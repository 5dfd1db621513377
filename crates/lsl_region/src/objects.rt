//! Objects: prims with their keys and names, in a region.

ghost use Rattle.std.specs.Prelude.{◌≡◌, ◌<◌, [], ◌∷◌, ◌++◌, length, IfOk, IfSome, OnOk};
ghost use Rattle.lsl_value.specs.Key.{null_key};
ghost use Rattle.lsl_region.specs.Answers.{key_of_prim, name_of_prim, with_name};
ghost use Rattle.lsl_region.specs.Worlds.{prim_at};

use lsl_data::Store;
use lsl_text::NoMemory;
use lsl_value::Text;
use std::alloc::Global;
use std::marker::Model;

/// The key of zeros.
const NULL_KEY: &str = "00000000-0000-0000-0000-000000000000";

/// A prim: its key and its name.
#[derive(Drop)]
pub struct Primitive {
    pub key: Text,
    pub name: Text,
}

/// The prims of an object, the root first.
#[derive(Drop)]
pub struct Prims {
    list: Vec<Primitive>,
}

impl Model for Prims {
    ghost use Rattle.std.specs.Prelude.{List};
    ghost use Rattle.lsl_region.specs.declared.objects.Primitive.{Primitive};

    ghost Value = { List Primitive };

    ghost view = { λ p. p.list.items };
}

/// An object: its owner's key, the region in which it is, its prims, and its store.
#[derive(Drop)]
pub struct Linkset {
    pub owner: Text,
    pub region: Text,
    pub prims: Prims,
    pub store: Store,
}

impl Prims {
    /// No prim. Takes no memory.
    pub fn new(alloc: Global) -> Prims
        ensures { result ≡ [] }
    {
        Prims {
            list: Vec::new(alloc),
        }
    }

    /// Appends a prim of this key and name.
    pub fn push(&mut self, key: Text, name: Text) -> Result<(), NoMemory>
        ensures { OnOk result (self.new ≡ self.old ++ record { key = key; name = name } ∷ []) }
    {
        self.list.push(Primitive { key, name })?;
        Ok(())
    }

    /// These prims. Takes no memory.
    pub fn from_vec(list: Vec<Primitive>) -> Prims
        ensures { result ≡ list.items }
    {
        Prims { list }
    }

    /// How many prims there are.
    pub fn len(&self) -> usize
        ensures { result ≡ length self.now }
    {
        self.list.len()
    }

    /// The prims. Takes no memory.
    pub fn as_slice(&self) -> &[Primitive]
        ensures { result.now ≡ self.now }
    {
        self.list.as_slice()
    }

    /// The prim at this place. Takes no memory.
    pub fn prim(&self, place: usize) -> &Primitive
        requires { place < length self.now }
        ensures { result.now ≡ prim_at self.now place }
    {
        &self.list[place]
    }

    /// Names the prim at this place. Takes no memory.
    pub fn rename(&mut self, place: usize, name: Text)
        requires { place < length self.old }
        ensures { self.new ≡ with_name self.old place name }
    {
        self.list[place].name = name;
    }

    /// The key of the prim at this place, and that of zeros where there is none.
    pub fn key_of(&self, alloc: Global, place: Option<usize>) -> Result<Text, NoMemory>
        requires { IfSome place (λ place. place < length self.now) }
        ensures { IfOk result (λ key. key ≡ key_of_prim self.now place) }
    {
        match place {
            Some(place) => self.prim(place).key.copy(),
            None => null_key(alloc),
        }
    }

    /// The name of the prim at this place, and the key of zeros where there is none.
    pub fn name_of(&self, alloc: Global, place: Option<usize>) -> Result<Text, NoMemory>
        requires { IfSome place (λ place. place < length self.now) }
        ensures { IfOk result (λ name. name ≡ name_of_prim self.now place) }
    {
        match place {
            Some(place) => self.prim(place).name.copy(),
            None => null_key(alloc),
        }
    }
}

/// The key of zeros.
pub(crate) fn null_key(alloc: Global) -> Result<Text, NoMemory>
    ensures { IfOk result (λ key. key ≡ null_key) }
{
    Text::from_ascii(NULL_KEY.as_bytes().to_vec(alloc)?)
}
