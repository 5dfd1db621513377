//! What a line adds to the lists of what was read.

ghost use Rattle.std.specs.Prelude.{◌≡◌, ◌++◌, ◌∷◌, [], not, OnOk, IfOk};
ghost use Rattle.std.specs.Str.{encode_utf8_all};
ghost use Rattle.lsl_lines.specs.Keys.{has_key};
ghost use Rattle.lsl_lines.specs.Reading.{new_prim, keys_behind, place_of, file_added, has_number};
ghost use Rattle.lsl_lines.specs.Reads.{Makes, Tests};

use crate::faults::FileKind;
use crate::fields::Field;
use crate::file::PrimLine;
use crate::keys::Keys;
use lsl_code::Sequence;
use lsl_text::{NoMemory, Refusal};
use lsl_value::Text;
use std::alloc::{AllocError, Global};

/// This fault where the test fails.
pub fn fault_unless(test: bool, kind: FileKind) -> Field<()>
    ensures { Tests result test kind }
{
    if test {
        Ok(())
    } else {
        Err(Refusal::Fault(kind))
    }
}

/// A prim without scripts.
pub fn new_prim(alloc: Global, key: Text, name: Text) -> PrimLine
    ensures { result ≡ new_prim key name }
{
    PrimLine {
        key,
        name,
        scripts: Sequence::new(alloc),
    }
}

/// Adds a key that isn't in the table yet.
pub fn add_key(alloc: Global, keys: &mut Keys, key: &Text) -> Field<()>
    ensures { Makes result keys.new (keys_behind keys.old key.now) }
{
    fault_unless(!keys.has(key), FileKind::DoubleKey)?;
    keys.push(alloc, key)?;
    Ok(())
}

/// The place of a file, which is added where it wasn't named before.
pub fn add_file(files: &mut Sequence<Text>, file: Text) -> Result<u32, NoMemory>
    ensures place { IfOk result (λ place. place ≡ place_of files.old file) }
    ensures files { OnOk result (files.new ≡ file_added files.old file) }
{
    let place = place_of(files, &file);
    let number = u32::try_from(place).map_err(|_| AllocError)?;
    if place == files.len() {
        files.push(file)?;
    }
    Ok(number)
}

fn place_of(files: &Sequence<Text>, file: &Text) -> usize
    ensures { result ≡ place_of files.now file.now }
{
    let mut place = 0;
    let mut rest = files.as_slice();
    'names: while let [name, more @ ..] = rest {
        if file == name {
            break;
        }
        place += 1;
        rest = more;
    }
    place
}

/// Whether a list of `count` items, numbered from 1, has this number.
pub fn has_number(count: u64, number: u32) -> bool
    ensures { result ≡ has_number count number }
{
    number >= 1 && u64::from(number) <= count
}
