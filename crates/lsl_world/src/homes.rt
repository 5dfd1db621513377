//! Where the objects are.

ghost use Rattle.std.specs.Prelude.{◌≡◌, ◌<◌, ◌≤◌, ◌-◌, [], ◌∷◌, ◌++◌, length, get_or, OnOk, OnErr};
ghost use Rattle.lsl_post.specs.declared.entries.Entry.TheVariants as entries;
ghost use Rattle.lsl_post.specs.Journal.{Adds};
ghost use Rattle.lsl_region.specs.Worlds.{no_object};
ghost use Rattle.lsl_world.specs.Reports.{homes_from};

use crate::world::World;
use lsl_post::{Entries, Entry};
use lsl_text::NoMemory;

impl World {
    /// Adds the region of each object.
    pub(crate) fn tell_homes(&self, out: &mut Entries) -> Result<(), NoMemory>
        ensures { Adds result out.old out.new (homes_from 1 self.now.grid.objects) }
    {
        for place in 0..self.grid.objects() {
            self.tell_home(place as u32 + 1, out)?;
        }
        Ok(())
    }

    // Adds the region of the object of this number.
    fn tell_home(&self, number: u32, out: &mut Entries) -> Result<(), NoMemory>
        requires first { 0 < number }
        requires last { number ≤ length self.now.grid.objects }
        ensures ok { OnOk result (out.new ≡ out.old
            ++ entries.Home number (get_or self.now.grid.objects (number - 1) no_object).region ∷ []) }
        ensures unchanged { OnErr result (out.new ≡ out.old) }
    {
        let region = self.grid.region(number).copy()?;
        out.push(Entry::Home(number, region))
    }
}
