//! The world in which `once` runs a script.
ghost use Rattle.std.specs.Prelude.{◌≡◌, ◌∷◌, [], ◌≤◌, IfOk, length};
ghost use Rattle.std.specs.Str.{IsAscii};
ghost use Rattle.lsl_value.specs.Limits.{most_text_bytes};
ghost use Rattle.lsl_top.specs.Plays.{once_prim as the_prim, once_world as the_world};

use lsl_code::Sequence;
use lsl_lines::{ObjectLine, PrimLine, ScriptLine, Step, WorldFile};
use lsl_text::NoMemory;
use lsl_value::Text;
use std::alloc::Global;

/// A text of ASCII.
fn text(alloc: Global, bytes: &[u8]) -> Result<Text, NoMemory>
    requires ascii { IsAscii bytes.now }
    requires short { length bytes.now ≤ most_text_bytes }
    ensures { IfOk result (λ text. text ≡ bytes.now) }
{
    Text::from_ascii(Vec::from_slice(alloc, bytes)?)
}

/// A list of one element.
fn one<T: Drop>(alloc: Global, element: T) -> Result<Sequence<T>, NoMemory>
    ensures { IfOk result (λ list. list ≡ element ∷ []) }
{
    let mut list = Sequence::new(alloc);
    list.push(element)?;
    Ok(list)
}

fn once_prim(alloc: Global) -> Result<PrimLine, NoMemory>
    ensures { IfOk result (λ prim. prim ≡ the_prim) }
{
    let script = ScriptLine {
        name: text(alloc, b"New Script")?,
        file: 0,
    };
    Ok(PrimLine {
        key: text(alloc, b"00000000-0000-0000-0000-000000000001")?,
        name: text(alloc, b"Object")?,
        scripts: one(alloc, script)?,
    })
}

/// One script in an object of its own, run for 1,000,000 segments.
pub fn once_world(alloc: Global) -> Result<WorldFile, NoMemory>
    ensures { IfOk result (λ world. world ≡ the_world) }
{
    let object = ObjectLine {
        owner: text(alloc, b"00000000-0000-0000-0000-000000000002")?,
        region: text(alloc, b"here")?,
        prims: one(alloc, once_prim(alloc)?)?,
    };
    Ok(WorldFile {
        objects: one(alloc, object)?,
        files: one(alloc, Text::new())?,
        cards: Sequence::new(alloc),
        notes: Sequence::new(alloc),
        steps: one(alloc, Step::Run(1_000_000))?,
    })
}
