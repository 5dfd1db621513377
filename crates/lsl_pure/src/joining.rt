//! `llDumpList2String` and `llList2CSV`: the elements' texts, joined.

ghost use Rattle.std.specs.Prelude.{◌≡◌, ◌≤◌, ◌<◌, ◌+◌, ◌*◌, ◌++◌, length, IfOk, OnOk, map};
ghost use Rattle.std.specs.Str.{encode_utf8_all, IsUtf8};
ghost use Rattle.lsl_value.specs.Limits.{most_charge, most_items, most_text_bytes};
ghost use Rattle.lsl_value.specs.Text.{text_charge_of};
ghost use Rattle.lsl_pure.specs.Bounds.{TooBigOnlyWhere};
ghost use Rattle.lsl_pure.specs.Spelling.{spelled_atom};
ghost use Rattle.lsl_pure.specs.Joins.{dumped, csv_text, joined, each_behind};

use crate::PureFault;
use crate::spelling::text_of;
use itoa::Buffer;
use lsl_text::NoMemory;
use lsl_value::{Atom, Items, MOST_CHARGE, TEXT_CHARGE, Text};
use std::alloc::Global;

/// The elements' texts with the separator between them. Too big before anything is built; one piece of memory. See
/// <https://wiki.secondlife.com/wiki/LlDumpList2String>.
pub fn dump_list(alloc: Global, items: &Items, separator: &Text) -> Result<Text, PureFault>
    ensures ok { IfOk result (λ text. text ≡ dumped items.now separator.now) }
    ensures too_big { TooBigOnlyWhere result (most_charge < text_charge_of (dumped items.now separator.now)) }
{
    join(alloc, items.as_slice(), separator.bytes())
}

/// The elements' texts with a comma and a space between them. See <https://wiki.secondlife.com/wiki/LlList2CSV>.
pub fn list_to_csv(alloc: Global, items: &Items) -> Result<Text, PureFault>
    ensures ok { IfOk result (λ text. text ≡ csv_text items.now) }
    ensures too_big { TooBigOnlyWhere result (most_charge < text_charge_of (csv_text items.now)) }
{
    join(alloc, items.as_slice(), b", ")
}

fn join(alloc: Global, atoms: &[Atom], separator: &[u8]) -> Result<Text, PureFault>
    requires valid { IsUtf8 separator.now }
    requires short { length separator.now ≤ most_text_bytes }
    requires few { length atoms.now ≤ most_items }
    ensures ok { IfOk result (λ text. encode_utf8_all text ≡ joined separator.now (map spelled_atom atoms.now)) }
    ensures too_big { TooBigOnlyWhere result
        (most_charge < 16 + length (joined separator.now (map spelled_atom atoms.now))) }
{
    match atoms {
        [] => Ok(Text::new()),
        [first, others @ ..] => {
            let size = atom_len(first) + others_len(others, separator);
            if TEXT_CHARGE + size as u64 > MOST_CHARGE {
                return Err(PureFault::TooBig);
            }
            let mut out = Vec::with_capacity(alloc, size)?;
            push_atom(&mut out, first)?;
            push_others(&mut out, others, separator)?;
            Ok(text_of(out)?)
        }
    }
}

// How many bytes these elements' texts have, each behind the separator.
fn others_len(atoms: &[Atom], separator: &[u8]) -> usize
    requires short { length separator.now ≤ most_text_bytes }
    requires few { length atoms.now ≤ most_items }
    ensures value { result ≡ length (each_behind separator.now (map spelled_atom atoms.now)) }
    ensures within { result ≤ 65536 * 2097152 }
{
    let mut len = 0;
    'atoms: for atom in atoms {
        len += separator.len() + atom_len(atom);
    }
    len
}

// Appends these elements' texts, each behind the separator.
fn push_others(out: &mut Vec<u8>, atoms: &[Atom], separator: &[u8]) -> Result<(), NoMemory>
    requires before { IsUtf8 out.old.items }
    requires valid { IsUtf8 separator.now }
    ensures ok { OnOk result (out.new.items ≡ out.old.items ++ each_behind separator.now (map spelled_atom atoms.now)) }
    ensures whole { OnOk result (IsUtf8 out.new.items) }
{
    'atoms: for atom in atoms {
        out.extend_from_slice(separator)?;
        push_atom(out, atom)?;
    }
    Ok(())
}

// How many bytes the element's text has.
fn atom_len(atom: &Atom) -> usize
    ensures value { result ≡ length (spelled_atom atom.now) }
    ensures within { result ≤ most_text_bytes }
{
    match atom {
        Atom::Int(n) => {
            let mut buffer = Buffer::new();
            buffer.format(*n).len()
        }
        Atom::Str(text) | Atom::Key(text) => text.bytes().len(),
    }
}

// Appends the element's text.
fn push_atom(out: &mut Vec<u8>, atom: &Atom) -> Result<(), NoMemory>
    ensures ok { OnOk result (out.new.items ≡ out.old.items ++ spelled_atom atom.now) }
    ensures valid { IsUtf8 (spelled_atom atom.now) }
{
    match atom {
        Atom::Int(n) => {
            let mut buffer = Buffer::new();
            out.extend_from_slice(buffer.format(*n).as_bytes())
        }
        Atom::Str(text) | Atom::Key(text) => out.extend_from_slice(text.bytes()),
    }
}
