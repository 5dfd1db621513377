//! The units of all scripts.

ghost use Rattle.std.specs.Prelude.{◌≡◌, ◌<◌, [], ◌∷◌, ◌++◌, length, slice_get, Some, OnOk, OnErr};
ghost use Rattle.lsl_code.specs.Weaves.{Weaves};

use crate::woven_units::Woven;
use lsl_text::NoMemory;
use std::alloc::Global;
use std::marker::Model;

/// A list of units that weave, numbered from 0.
#[derive(Drop)]
pub struct Library {
    units: Vec<Woven>,
}

impl Model for Library {
    ghost use Rattle.std.specs.Prelude.{List, All};
    ghost use Rattle.lsl_code.specs.declared.woven_units.Woven.{Woven as Code};
    ghost use Rattle.lsl_code.specs.Weaves.{Weaves};

    ghost Value = { List Code };

    ghost view = { λ l. l.units.items };

    ghost invariant = { λ l. All Weaves l.units.items };
}

impl Library {
    /// No unit. Takes no memory.
    pub fn new(alloc: Global) -> Library
        ensures { result ≡ [] }
    {
        Library {
            units: Vec::new(alloc),
        }
    }

    /// Adds a unit. Its number is the count of those before it.
    pub fn add(&mut self, unit: Woven) -> Result<(), NoMemory>
        requires { Weaves unit }
        ensures ok { OnOk result (self.new ≡ self.old ++ unit ∷ []) }
        ensures unchanged { OnErr result (self.new ≡ self.old) }
    {
        self.units.push(unit)?;
        Ok(())
    }

    /// How many units there are. Takes no memory.
    pub fn len(&self) -> usize
        ensures { result ≡ length self.now }
    {
        self.units.len()
    }

    /// The unit of this number, which weaves. Takes no memory.
    pub fn unit(&self, number: u32) -> &Woven
        requires { number < length self.now }
        ensures unit { Some result.now ≡ slice_get self.now number }
        ensures weaves { Weaves result.now }
    {
        &self.units[number as usize]
    }
}
