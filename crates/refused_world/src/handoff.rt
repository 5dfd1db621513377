//! Clauses of `lsl_handoff`.

ghost use Rattle.std.specs.Prelude.{◌≡◌, Some, IfErr, length};
ghost use Rattle.lsl_handoff.specs.Fields.{HasCard, IsFirstLive, IsOneOf, cards_of, does};
ghost use Rattle.lsl_handoff.specs.NoteFaults.{IsRefusedBy, first_fault};
ghost use Rattle.lsl_handoff.specs.Rules.{Deliver, GiveUp};

use lsl_handoff::{Field, Note, NoteFault, NoteKind, read_note};
use lsl_text::Refusal;
use std::alloc::Global;

/// As `Field::deliver`.
pub fn delivered(field: &mut Field, note: Note) -> Option<Note>
    requires { HasCard field.old note.object note.to }
    ensures { does field.old (Deliver note) ≡ (field.new, result) }
{
    field.deliver(note)
}

/// As `Field::give_up`.
pub fn given_up(field: &mut Field, region: u32, object: u32) -> Option<Note>
    requires { HasCard field.old object region }
    ensures { does field.old (GiveUp region object) ≡ (field.new, result) }
{
    field.give_up(region, object)
}

/// As `Field::live`.
pub fn live_region(field: &Field, object: u32) -> Option<u32>
    requires { IsOneOf (length field.now) object }
    ensures { IsFirstLive (cards_of field.now object) result }
{
    field.live(object)
}

/// As `read_note`.
pub fn note_read(
    alloc: Global,
    bytes: &[u8],
    objects: u32,
    regions: u32,
) -> Result<Note, Refusal<NoteFault>>
    ensures { IfErr result (IsRefusedBy (λ fault. first_fault bytes.now objects regions ≡ Some fault)) }
{
    read_note(alloc, bytes, objects, regions)
}
