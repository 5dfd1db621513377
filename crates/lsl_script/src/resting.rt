//! A script comes to rest at a tick: its calls are saved.

ghost use Rattle.std.specs.Prelude.{◌≡◌, List, IfOk, OnOk};
ghost use Rattle.lsl_code.specs.declared.woven_units.Woven.{Woven as Code};
ghost use Rattle.lsl_code.specs.Frames.{frames_of};
ghost use Rattle.lsl_code.specs.Weaves.{Weaves, bodies_of};
ghost use Rattle.lsl_machine.specs.declared.standing.Standing.TheVariants as standings;
ghost use Rattle.lsl_script.specs.Awake.{IsAwake};
ghost use Rattle.lsl_script.specs.Codes.{rules_of};
ghost use Rattle.lsl_script.specs.Fitting.{FitsUnit};
ghost use Rattle.lsl_script.specs.Lawful.{Lawful};
ghost use Rattle.lsl_script.specs.Lives.{Rests};
ghost use Rattle.lsl_script.specs.Parts.{parts_of};
ghost use Rattle.lsl_script.specs.Resting.{keeping, saved_parts, with_room};
ghost use Rattle.lsl_script.specs.Scripts.{Flight, Script as Source};

use crate::live::Live;
use crate::scripts::Script;
use lsl_code::Woven;
use lsl_machine::Parked;
use lsl_post::{Rest, ScriptParts};
use lsl_running::Kept;
use lsl_text::NoMemory;

impl Live {
    /// The script at rest, with its handler saved in place.
    pub fn rest(self, unit: &Woven) -> Result<Script, NoMemory>
        requires awake { IsAwake unit.now self }
        requires stands { self.machine.standing ≡ standings.AtTick }
        requires weaves { Weaves unit.now }
        ensures fits { IfOk result (FitsUnit unit.now) }
        ensures parts { IfOk result (λ script. script ≡ saved_parts self.parts self.machine.machine.kept self.event
            (frames_of (bodies_of unit.now) self.machine.machine.calls)) }
        ensures source { (codes : List Code) (s : Source) (f : Flight) → Rests codes unit.now s f self →
            IfOk result (λ script. script ≡ parts_of codes s) }
        ensures lawful { (codes : List Code) (s : Source) (f : Flight) → Rests codes unit.now s f self →
            Lawful (rules_of codes) s }
    {
        let Live {
            parts: mut script,
            event,
            machine,
            ..
        } = self;
        let Parked { sack, kept } = machine.save(unit)?;
        let parts = &mut *script.parts;
        keep(parts, kept);
        parts.rest = Rest::Saved(event, sack);
        Ok(script)
    }

    /// Saves the calls by the unit's own code, and restores them; the script is unchanged. After `NoMemory` it must be
    /// dropped.
    pub fn pause(&mut self, unit: &Woven) -> Result<(), NoMemory>
        requires awake { IsAwake unit.now self.old }
        requires stands { self.old.machine.standing ≡ standings.AtTick }
        requires weaves { Weaves unit.now }
        ensures awake { OnOk result (IsAwake unit.now self.new) }
        ensures same { OnOk result (self.new ≡ with_room self.old self.new.machine.room) }
    {
        self.machine.pause(unit, self.handler)?;
        Ok(())
    }
}

/// The script keeps these globals and this limit.
pub fn keep(parts: &mut ScriptParts, kept: Kept)
    ensures { parts.new ≡ keeping kept parts.old }
{
    let Kept { globals, limit } = kept;
    parts.globals = globals;
    parts.limit = limit;
}
