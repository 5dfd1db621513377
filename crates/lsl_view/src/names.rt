//! The names of a file's scripts.

ghost use Rattle.std.specs.Prelude.{◌≡◌, ◌++◌, IfOk, OnOk};
ghost use Rattle.lsl_view.specs.Names.{names_in_object, names_in_prim, script_names as names_of_scripts};

use lsl_lines::{ObjectLine, PrimLine, WorldFile};
use lsl_text::NoMemory;
use lsl_value::Text;
use std::alloc::Global;

/// The names of the scripts of a world file, in the order of their numbers. It takes memory for the list.
pub fn script_names(alloc: Global, file: &WorldFile) -> Result<Vec<Text>, NoMemory>
    ensures { IfOk result (λ names. names.items ≡ names_of_scripts file.now) }
{
    let mut names = Vec::new(alloc);
    'objects: for object in file.objects.as_slice() {
        push_names_in_object(&mut names, object)?;
    }
    Ok(names)
}

fn push_names_in_object(names: &mut Vec<Text>, object: &ObjectLine) -> Result<(), NoMemory>
    ensures { OnOk result (names.new.items ≡ names.old.items ++ names_in_object object.now) }
{
    'prims: for prim in object.prims.as_slice() {
        push_names_in_prim(names, prim)?;
    }
    Ok(())
}

fn push_names_in_prim(names: &mut Vec<Text>, prim: &PrimLine) -> Result<(), NoMemory>
    ensures { OnOk result (names.new.items ≡ names.old.items ++ names_in_prim prim.now) }
{
    'scripts: for script in prim.scripts.as_slice() {
        names.push(script.name.copy()?)?;
    }
    Ok(())
}
