//! What a line adds to the last object and its last prim.

ghost use Rattle.lsl_lines.specs.Reading.{at_last, with_prim, with_script_at_last};
ghost use Rattle.lsl_lines.specs.Reads.{Makes};

use crate::additions::fault_unless;
use crate::faults::FileKind;
use crate::fields::{BAD_LINE, Field};
use crate::file::{ObjectLine, PrimLine, ScriptLine};
use lsl_code::Sequence;

/// How many prims an object has at most.
const MAX_PRIMS: usize = 255;

/// Adds a prim to the last object.
pub fn add_last_prim(objects: &mut Sequence<ObjectLine>, prim: PrimLine) -> Field<()>
    ensures { Makes result objects.new (at_last (with_prim prim) objects.old) }
{
    let Some(mut object) = objects.pop() else {
        return Err(BAD_LINE);
    };
    match object.add_prim(prim) {
        Ok(()) => Ok(objects.push(object)?),
        Err(refusal) => Err(refusal),
    }
}

/// Adds a script to the last prim of the last object.
pub fn add_last_script(objects: &mut Sequence<ObjectLine>, script: ScriptLine) -> Field<()>
    ensures { Makes result objects.new (at_last (with_script_at_last script) objects.old) }
{
    let Some(mut object) = objects.pop() else {
        return Err(BAD_LINE);
    };
    match object.add_script(script) {
        Ok(()) => Ok(objects.push(object)?),
        Err(refusal) => Err(refusal),
    }
}

impl ObjectLine {
    fn add_prim(&mut self, prim: PrimLine) -> Field<()>
        ensures { Makes result self.new (with_prim prim self.old) }
    {
        fault_unless(self.prims.len() < MAX_PRIMS, FileKind::TooMany)?;
        self.prims.push(prim)?;
        Ok(())
    }

    // Adds a script to the last prim.
    fn add_script(&mut self, script: ScriptLine) -> Field<()>
        ensures { Makes result self.new (with_script_at_last script self.old) }
    {
        let Some(mut prim) = self.prims.pop() else {
            return Err(BAD_LINE);
        };
        prim.scripts.push(script)?;
        self.prims.push(prim)?;
        Ok(())
    }
}
