//! Values, appended as words.

ghost use Rattle.std.specs.Prelude.{◌≡◌, ◌++◌, ◌∷◌, [], map, OnOk};
ghost use Rattle.std.specs.List.{flat_map};
ghost use Rattle.lsl_lines.specs.Journal.{spaced};
ghost use Rattle.lsl_view.specs.Values.{behind_comma, element_word, elements_of, value_word};

use lsl_text::{NoMemory, push_decimal, push_quoted};
use lsl_value::{Atom, Value};

/// Appends values, each after a space.
pub fn push_values(out: &mut Vec<u8>, values: &[Value]) -> Result<(), NoMemory>
    ensures { OnOk result (out.new.items ≡ out.old.items ++ flat_map spaced (map value_word values.now)) }
{
    for value in values {
        out.push(b' ')?;
        push_value(out, value)?;
    }
    Ok(())
}

/// Appends a value.
pub fn push_value(out: &mut Vec<u8>, value: &Value) -> Result<(), NoMemory>
    ensures { OnOk result (out.new.items ≡ out.old.items ++ value_word value.now) }
{
    match value {
        Value::Int(n) => push_decimal(out, i64::from(*n)),
        Value::Str(text) | Value::Key(text) => push_quoted(out, text.bytes()),
        Value::List(items) => push_list(out, items.as_slice()),
    }
}

fn push_list(out: &mut Vec<u8>, atoms: &[Atom]) -> Result<(), NoMemory>
    ensures { OnOk result (out.new.items ≡ out.old.items ++ 91 ∷ (elements_of atoms.now ++ 93 ∷ [])) }
{
    out.push(b'[')?;
    push_elements(out, atoms)?;
    out.push(b']')?;
    Ok(())
}

fn push_elements(out: &mut Vec<u8>, atoms: &[Atom]) -> Result<(), NoMemory>
    ensures { OnOk result (out.new.items ≡ out.old.items ++ elements_of atoms.now) }
{
    match atoms {
        [] => Ok(()),
        [first, others @ ..] => {
            push_element(out, first)?;
            push_others(out, others)
        }
    }
}

fn push_others(out: &mut Vec<u8>, atoms: &[Atom]) -> Result<(), NoMemory>
    ensures { OnOk result
        (out.new.items ≡ out.old.items ++ flat_map behind_comma (map element_word atoms.now)) }
{
    'atoms: for atom in atoms {
        out.extend_from_slice(b", ")?;
        push_element(out, atom)?;
    }
    Ok(())
}

fn push_element(out: &mut Vec<u8>, atom: &Atom) -> Result<(), NoMemory>
    ensures { OnOk result (out.new.items ≡ out.old.items ++ element_word atom.now) }
{
    match atom {
        Atom::Int(n) => push_decimal(out, i64::from(*n)),
        Atom::Str(text) | Atom::Key(text) => push_quoted(out, text.bytes()),
    }
}
