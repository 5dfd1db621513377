//! Parcels: the bytes that an object goes as.

ghost use Rattle.std.specs.Prelude.{◌≡◌, [], IfOk};

use lsl_text::NoMemory;
use std::marker::Model;

/// A list of bytes. The empty one needs neither memory nor an allocator.
#[derive(Drop)]
pub struct Parcel {
    held: Option<Vec<u8>>,
}

impl Model for Parcel {
    ghost use Rattle.std.specs.Prelude.{List, ℕ};
    ghost use Rattle.lsl_handoff.specs.Parcels.{held_bytes};

    ghost Value = { List ℕ };

    ghost view = { λ p. held_bytes p.held (λ held. held.items) };
}

impl Parcel {
    /// No bytes. Takes no memory.
    pub fn empty() -> Parcel
        ensures { result ≡ [] }
    {
        Parcel { held: None }
    }

    /// These bytes. Takes no memory.
    pub fn from_vec(bytes: Vec<u8>) -> Parcel
        ensures { result ≡ bytes.items }
    {
        Parcel { held: Some(bytes) }
    }

    /// The bytes. Takes no memory.
    pub fn bytes(&self) -> &[u8]
        ensures { result.now ≡ self.now }
    {
        match &self.held {
            Some(held) => held.as_slice(),
            None => &[],
        }
    }

    /// An equal parcel. Takes memory for its bytes, unless there are none.
    pub fn copy(&self) -> Result<Parcel, NoMemory>
        ensures { IfOk result (λ parcel. parcel ≡ self.now) }
    {
        match &self.held {
            Some(held) => Ok(Parcel::from_vec(Vec::from_slice(
                *held.allocator(),
                held.as_slice(),
            )?)),
            None => Ok(Parcel::empty()),
        }
    }
}
