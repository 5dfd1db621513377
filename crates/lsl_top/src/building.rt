//! The code of a play's scripts.
ghost use Rattle.std.specs.Prelude.{◌≡◌, List, length, map, IfOk, IsErrOf};
ghost use Rattle.lsl_text.specs.declared.Refusal.TheVariants as refusals;
ghost use Rattle.lsl_build.specs.Codes.{AreCodesOf};
ghost use Rattle.lsl_tree.specs.Program.{Program};
ghost use Rattle.lsl_world.specs.Codes.{AreRunBy};
ghost use Rattle.lsl_top.specs.Meant.{refused_at};
ghost use Rattle.lsl_top.specs.Scripts.{AreAccepted, IsRefusedAt};
ghost use Rattle.lsl_top.specs.declared.building.Refused.{Refused as TheRefused};

use lsl_build::{BuildFault, Built, build};
use lsl_code::Library;
use lsl_text::Refusal;
use std::alloc::Global;

/// The place of the first text that isn't accepted, and its fault.
#[derive(Clone, Copy, PartialEq, Eq)]
pub struct Refused {
    pub place: usize,
    pub fault: BuildFault,
}

/// The code of these texts, in order, or the first of them that isn't accepted.
pub fn build_scripts(alloc: Global, texts: &[Vec<u8>]) -> Result<Library, Refusal<Refused>>
    ensures ok { IfOk result (λ units. (programs : List Program)
        × AreAccepted (map (λ t. t.items) texts.now) programs × AreRunBy programs units) }
    ensures codes { IfOk result (λ units. AreCodesOf (map (λ t. t.items) texts.now) units) }
    ensures refused { (refused : TheRefused) → IsErrOf result (refusals.Fault refused)
        → IsRefusedAt (map (λ t. t.items) texts.now) refused.place refused.fault }
    ensures len { IfOk result (λ units. length units ≡ length texts.now) }
{
    let mut units = Library::new(alloc);
    for (place, text) in texts.iter().enumerate() {
        match build(alloc, text.as_slice()) {
            Ok(Built { program: _, code }) => units.add(code)?,
            Err(refusal) => return Err(at_place(place, refusal)),
        }
    }
    Ok(units)
}

/// The refusal of the text at a place.
fn at_place(place: usize, refusal: Refusal<BuildFault>) -> Refusal<Refused>
    ensures { result ≡ refused_at place refusal }
{
    match refusal {
        Refusal::Fault(fault) => Refusal::Fault(Refused { place, fault }),
        Refusal::NoMemory => Refusal::NoMemory,
    }
}
