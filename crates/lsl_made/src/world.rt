//! The text of a generated world.

ghost use Rattle.std.specs.Prelude.{◌≡◌, ◌++◌, OnOk, IfOk};
ghost use Rattle.std.specs.List.{flat_map};
ghost use Rattle.lsl_made.specs.Lines.{line};
ghost use Rattle.lsl_made.specs.World.{object_lines, step_lines, world_text};

use crate::lines::push_object;
use crate::numbers::number_after;
use crate::step::Step;
use lsl_text::NoMemory;
use lsl_value::Text;
use std::alloc::Global;

/// How many objects a generated world has.
const OBJECTS: u32 = 8;

/// How many steps a generated world has.
const STEPS: u32 = 4_000;

/// A generated world: the text of its world file, and of the one file that its scripts name, `walker`.
#[derive(Drop)]
pub struct Made {
    pub world: Text,
    pub script: Text,
}

/// The text of the world file of this seed.
pub(crate) fn text(alloc: Global, number: u32) -> Result<Text, NoMemory>
    ensures { IfOk result (λ text. text ≡ world_text number) }
{
    Text::from_ascii(bytes(alloc, number)?)
}

fn bytes(alloc: Global, number: u32) -> Result<Vec<u8>, NoMemory>
    ensures { IfOk result (λ out. out.items ≡ world_text number) }
{
    let mut out = Vec::new(alloc);
    push_objects(&mut out)?;
    out.extend_from_slice(b"begin\n")?;
    push_steps(&mut out, number)?;
    out.extend_from_slice(b"end\n")?;
    Ok(out)
}

fn push_objects(out: &mut Vec<u8>) -> Result<(), NoMemory>
    ensures { OnOk result (out.new.items ≡ out.old.items ++ flat_map line object_lines) }
{
    'objects: for object in 0..OBJECTS {
        push_object(out, object + 1)?;
    }
    Ok(())
}

fn push_steps(out: &mut Vec<u8>, number: u32) -> Result<(), NoMemory>
    ensures { OnOk result (out.new.items ≡ out.old.items ++ flat_map line (step_lines number)) }
{
    let mut x = number;
    'steps: for passed in 0..STEPS {
        x = number_after(x);
        Step::of_number(passed + 1, x).push_line(out)?;
    }
    Ok(())
}
