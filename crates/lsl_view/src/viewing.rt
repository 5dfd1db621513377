//! A world at rest as text.

ghost use Rattle.std.specs.Prelude.{◌≡◌, length, IfOk};
ghost use Rattle.lsl_image.specs.Valid.{IsWorld};
ghost use Rattle.lsl_view.specs.Parts.{scripts_in, view_of_parts};

use crate::scripts::push_scripts;
use lsl_code::Library;
use lsl_image::WorldParts;
use lsl_text::NoMemory;
use lsl_value::Text;
use std::alloc::Global;

/// The lines of a world of these parts, in the order of its scripts, which have these names.
///
/// `script NUMBER "NAME" STATE REST QUEUED` is the line of a script: REST is `idle`, `dead` or the name of the current
/// event, and QUEUED the number of events that wait. In flight a line follows for each active call, the innermost
/// first, `call NAME LINE VALUES`: the name of the function or event, its current line in the text, and its slots.
///
/// It takes memory for the lines, and time in proportion to the parts and to what is written.
pub fn view(
    alloc: Global,
    parts: &WorldParts,
    names: &[Text],
    library: &Library,
) -> Result<Vec<u8>, NoMemory>
    requires parts { IsWorld library.now parts.now }
    requires names { length names.now ≡ length (scripts_in parts.now) }
    ensures { IfOk result (λ lines. lines.items ≡ view_of_parts library.now names.now parts.now) }
{
    let mut out = Vec::new(alloc);
    let mut before = 0;
    for placed in parts.objects.as_slice() {
        let scripts = placed.object.scripts.as_slice();
        push_scripts(&mut out, before, scripts, names, library)?;
        before += scripts.len();
    }
    Ok(out)
}
