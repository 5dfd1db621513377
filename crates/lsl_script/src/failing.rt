//! A script stops for good.

ghost use Rattle.std.specs.Prelude.{◌≡◌, ℕ, List, IfOk};
ghost use Rattle.lsl_code.specs.declared.woven_units.Woven.{Woven as Code};
ghost use Rattle.lsl_script.specs.Awake.{IsAwake};
ghost use Rattle.lsl_script.specs.Codes.{rules_of};
ghost use Rattle.lsl_script.specs.Fitting.{FitsUnit};
ghost use Rattle.lsl_script.specs.Handlers.{failed};
ghost use Rattle.lsl_script.specs.Lawful.{Lawful};
ghost use Rattle.lsl_script.specs.Lives.{Carries};
ghost use Rattle.lsl_script.specs.Parts.{parts_of};
ghost use Rattle.lsl_script.specs.Resting.{failed_parts};
ghost use Rattle.lsl_script.specs.Scripts.{Script as Source};

use crate::closing::{forget, initial};
use crate::live::Live;
use crate::resting::keep;
use crate::scripts::Script;
use lsl_code::Woven;
use lsl_post::Rest;
use lsl_running::Fault;
use lsl_text::NoMemory;
use std::alloc::Global;

impl Live {
    /// The script stops for good.
    pub fn fail(self, alloc: Global, unit: &Woven, fault: Fault) -> Result<Script, NoMemory>
        requires awake { IsAwake unit.now self }
        ensures fits { IfOk result (FitsUnit unit.now) }
        ensures parts { IfOk result (λ script. script ≡ failed_parts unit.now fault self.parts) }
        ensures source { (codes : List Code) (s : Source) (number : ℕ) → Carries codes unit.now s self →
            IfOk result (λ script. script ≡ parts_of codes (failed (rules_of codes) number s fault).value) }
        ensures lawful { (codes : List Code) (s : Source) (number : ℕ) → Carries codes unit.now s self →
            Lawful (rules_of codes) (failed (rules_of codes) number s fault).value }
    {
        let Live {
            parts: mut script,
            ..
        } = self;
        let parts = &mut *script.parts;
        keep(parts, initial(alloc, unit)?);
        parts.leaving = None;
        let _count = forget(alloc, parts);
        parts.rest = Rest::Dead(fault);
        Ok(script)
    }
}
