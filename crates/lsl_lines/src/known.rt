//! What a step says of what was read before it.

use crate::additions::has_number;
use crate::file::Step;
use crate::reading::Reading;

impl Reading {
    ghost use Rattle.std.specs.Prelude.{◌≡◌, length, slice_get};
    ghost use Rattle.lsl_lines.specs.Reading.{has_number, prims_of, has_link, knows, clock_behind};

    /// The last clock after the step.
    pub fn clock_behind(&self, step: &Step) -> u64
        ensures { result ≡ clock_behind self.now.clock step.now }
    {
        match step {
            Step::Clock(time) => *time,
            _ => self.clock,
        }
    }

    /// Whether the objects, scripts and prims of the step exist.
    pub fn knows(&self, step: &Step) -> bool
        ensures { result ≡ knows self.now step.now }
    {
        match step {
            Step::Clock(_) | Step::Say(..) | Step::Run(_) | Step::Pause(_) => true,
            Step::Touch(object, link, ..) => self.has_link(*object, *link),
            Step::Changed(object, _) | Step::Rez(object, _) | Step::Cross(object, _) =>
                self.has_object(*object),
            Step::Go(script, _) => has_number(u64::from(self.scripts), *script),
        }
    }

    fn has_object(&self, object: u32) -> bool
        ensures { result ≡ has_number (length self.now.objects) object }
    {
        has_number(self.objects.len() as u64, object)
    }

    fn has_link(&self, object: u32, link: u32) -> bool
        ensures { result ≡ has_link self.now.objects object link }
    {
        self.has_object(object) && (link <= 1 || u64::from(link) <= self.prim_count(object - 1))
    }

    fn prim_count(&self, place: u32) -> u64
        ensures { result ≡ prims_of (slice_get self.now.objects place) }
    {
        match self.objects.get(place as usize) {
            Some(object) => object.prims.len() as u64,
            None => 0,
        }
    }
}
