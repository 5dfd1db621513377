//! The regions that a file names.

ghost use Rattle.std.specs.Prelude.{◌≡◌, ◌<◌, ◌^◌, [], fold, OnOk, length};
ghost use Rattle.lsl_handoff.specs.Fields.{IsOneOf};
ghost use Rattle.lsl_world.specs.Regions.{name_in, number_of, regions_of_file, way_between, with_object, with_region, with_step};

use indexmap::IndexMap;
use lsl_handoff::Way;
use lsl_lines::{ObjectLine, Step, WorldFile};
use lsl_text::NoMemory;
use lsl_value::Text;
use std::alloc::{AllocError, Global};
use std::marker::Model;

/// Regions, each once, numbered from 1, in a table in which each is found by its bytes in UTF-8.
#[derive(Drop)]
pub struct Regions {
    table: IndexMap<String, Text>,
}

impl Model for Regions {
    ghost use Rattle.std.specs.Prelude.{List, ℕ};
    ghost use Rattle.lsl_world.specs.RegionTable.{names_of, IsTable};

    ghost Value = { List (List ℕ) };

    ghost view = { λ r. names_of r.table.entries };

    ghost invariant = { λ r. IsTable r.table.entries };
}

impl Regions {
    /// No region. Takes no memory.
    pub(crate) fn new(alloc: Global) -> Regions
        ensures { result ≡ [] }
    {
        Regions {
            table: IndexMap::new(alloc),
        }
    }

    /// The regions that a file names, each once, in the order of first naming.
    pub(crate) fn add_file(&mut self, alloc: Global, file: &WorldFile) -> Result<(), NoMemory>
        requires none { self.old ≡ [] }
        ensures regions { OnOk result (self.new ≡ regions_of_file file.now) }
    {
        self.add_objects(alloc, file.objects.as_slice())?;
        self.add_steps(alloc, file.steps.as_slice())
    }

    // Adds the regions of objects.
    fn add_objects(&mut self, alloc: Global, lines: &[ObjectLine]) -> Result<(), NoMemory>
        ensures { OnOk result (self.new ≡ fold with_object self.old lines.now) }
    {
        for line in lines {
            self.add(alloc, &line.region)?;
        }
        Ok(())
    }

    // Adds the regions to which steps lead.
    fn add_steps(&mut self, alloc: Global, steps: &[Step]) -> Result<(), NoMemory>
        ensures { OnOk result (self.new ≡ fold with_step self.old steps.now) }
    {
        for step in steps {
            self.add_step(alloc, step)?;
        }
        Ok(())
    }

    // Adds the region to which a step leads.
    fn add_step(&mut self, alloc: Global, step: &Step) -> Result<(), NoMemory>
        ensures { OnOk result (self.new ≡ with_step self.old step.now) }
    {
        match step {
            Step::Cross(_, region) => self.add(alloc, region),
            _ => Ok(()),
        }
    }

    // Adds a region, unless it was named. Out of memory where its number would be too large.
    fn add(&mut self, alloc: Global, region: &Text) -> Result<(), NoMemory>
        ensures { OnOk result (self.new ≡ with_region self.old region.now) }
    {
        if self.number(region).is_some() {
            return Ok(());
        }
        if self.table.len() >= u32::MAX as usize {
            return Err(AllocError);
        }
        let key = String::from_str(alloc, region.as_str())?;
        drop(self.table.insert(key, region.copy()?)?);
        Ok(())
    }

    /// How many there are.
    pub(crate) fn len(&self) -> u32
        ensures value { result ≡ length self.now }
        ensures within { length self.now < 2 ^ 32 }
    {
        self.table.len() as u32
    }

    /// The region of this number.
    pub(crate) fn name(&self, number: u32) -> &Text
        requires { IsOneOf (length self.now) number }
        ensures { result.now ≡ name_in self.now number }
    {
        &self.table[(number - 1) as usize]
    }

    /// The number of a region, if it is named. Takes no memory, and walks no list.
    pub(crate) fn number(&self, region: &Text) -> Option<u32>
        ensures { result ≡ number_of self.now region.now }
    {
        let place = self.table.get_index_of(region.as_str())?;
        Some(place as u32 + 1)
    }

    /// The way of an object from a region to another, if both are named and differ. Takes no memory, and walks no list.
    pub(crate) fn way(&self, object: u32, from: &Text, to: &Text) -> Option<Way>
        ensures { result ≡ way_between object (number_of self.now from.now) (number_of self.now to.now) }
    {
        let from = self.number(from)?;
        let to = self.number(to)?;
        if from == to {
            return None;
        }
        Some(Way { object, from, to })
    }
}
