//! The files of a command, read.
ghost use Rattle.std.specs.Prelude.{◌≡◌, ◌<◌, length, slice_get, ℕ, List, Contains, map, ◌++◌, ◌∷◌, [], IfOk, IsErrOf, OnOk};
ghost use Rattle.std.specs.List.{AllZip};
ghost use Rattle.std.specs.Str.{encode_utf8_all};
ghost use Rattle.lsl_ports.specs.Counts.{NoneFell, Rose};
ghost use Rattle.lsl_top.specs.Meant.{mode_of, play_in, read_in};
ghost use Rattle.lsl_top.specs.Named.{IsFrozenName, IsPlayName};
ghost use Rattle.lsl_top.specs.Plays.{played};
ghost use Rattle.lsl_top.specs.Ports.{IsFrozenRead, IsRead, WasRead};

use crate::modes::Mode;
use crate::play::Play;
use lsl_lines::WorldFile;
use lsl_ports::{Shelf, ShelfFault, read_all};
use lsl_text::NoMemory;
use lsl_value::Text;
use std::alloc::Global;

/// A script is read up to this many bytes and one more, which shows that it is too long.
const MAX_SCRIPT_BYTES: u64 = 65_536;

/// A frozen file is read up to this many bytes and one more.
const MAX_FROZEN_BYTES: u64 = 2_147_483_647;

/// The text of a script, or its first bytes where it is too long.
pub fn read_script<S: Shelf>(
    alloc: Global,
    shelf: &mut S,
    name: &str,
) -> Result<Vec<u8>, ShelfFault>
    ensures ok { IfOk result (λ text. IsRead (S.held shelf.old) name.now text.items) }
    ensures unchanged { S.held shelf.new ≡ S.held shelf.old }
    ensures err { IsErrOf result ShelfFault.Failed → Rose (S.faults shelf.old name.now) (S.faults shelf.new name.now) }
    ensures counted { NoneFell (S.faults shelf.old) (S.faults shelf.new) }
{
    read_all(alloc, shelf, name, MAX_SCRIPT_BYTES)
}

/// The text of the frozen file of a play, or its first bytes where it is too long; none of a play without one.
pub fn read_frozen<S: Shelf>(
    alloc: Global,
    mode: Mode<'_>,
    shelf: &mut S,
) -> Result<Vec<u8>, ShelfFault>
    ensures ok { IfOk result (λ text. IsFrozenRead (S.held shelf.old) (mode_of mode.entry) text.items) }
    ensures unchanged { S.held shelf.new ≡ S.held shelf.old }
    ensures err { IsErrOf result ShelfFault.Failed → (name : List ℕ) × IsFrozenName (mode_of mode.entry) name
        × Rose (S.faults shelf.old name) (S.faults shelf.new name) }
    ensures counted { NoneFell (S.faults shelf.old) (S.faults shelf.new) }
{
    match mode {
        Mode::Whole => Ok(Vec::new(alloc)),
        Mode::Handing => Ok(Vec::new(alloc)),
        Mode::Freezing => Ok(Vec::new(alloc)),
        Mode::Inspecting(_) => Ok(Vec::new(alloc)),
        Mode::Thawing(name) => read_all(alloc, shelf, name, MAX_FROZEN_BYTES),
        Mode::Viewing(name) => read_all(alloc, shelf, name, MAX_FROZEN_BYTES),
    }
}

/// The texts of these scripts, in order; each file is read once.
pub fn read_scripts<S: Shelf>(
    alloc: Global,
    shelf: &mut S,
    names: &[&str],
) -> Result<Vec<Vec<u8>>, ShelfFault>
    ensures ok { IfOk result (λ texts. AllZip (IsRead (S.held shelf.old)) (map (λ n. n.now) names.now)
        (map (λ t. t.items) texts.items)) }
    ensures unchanged { S.held shelf.new ≡ S.held shelf.old }
    ensures err { IsErrOf result ShelfFault.Failed → (name : List ℕ) × Contains (map (λ n. n.now) names.now) name
        × Rose (S.faults shelf.old name) (S.faults shelf.new name) }
    ensures counted { NoneFell (S.faults shelf.old) (S.faults shelf.new) }
{
    let mut texts = Vec::new(alloc);
    for name in names {
        let text = read_script(alloc, shelf, name)?;
        push_text(&mut texts, text)?;
    }
    Ok(texts)
}

fn push_text(texts: &mut Vec<Vec<u8>>, text: Vec<u8>) -> Result<(), NoMemory>
    ensures { OnOk result (texts.new.items ≡ texts.old.items ++ text ∷ []) }
{
    texts.push(text)?;
    Ok(())
}

/// The names of these files as they are read. It takes memory for the list.
pub fn file_names<'a>(alloc: Global, files: &'a [Text]) -> Result<Vec<&'a str>, NoMemory>
    ensures { IfOk result (λ names. map (λ n. n.now) names.items ≡ map encode_utf8_all files.now) }
{
    let mut names = Vec::new(alloc);
    for file in files {
        names.push(file.as_str())?;
    }
    Ok(names)
}

/// The name at a place. It takes no memory.
pub fn name_at<'a>(names: &[&'a str], place: usize) -> &'a str
    requires { place < length names.now }
    ensures { slice_get (map (λ n. n.now) names.now) place ≡ Some result.now }
{
    names[place]
}

/// Reads all files of a play: its scripts' and then its notecards', each once, and then the frozen one.
pub fn read_play<'a, S: Shelf>(
    alloc: Global,
    mode: Mode<'a>,
    names: &'a [&'a str],
    cards: &'a [&'a str],
    world: &'a WorldFile,
    shelf: &mut S,
) -> Result<Play<'a>, ShelfFault>
    requires names { length names.now ≡ length world.now.files }
    requires cards { length cards.now ≡ length world.now.cards }
    ensures is { IfOk result (λ play. play_in play
        ≡ played (mode_of mode.entry) (map (λ n. n.now) names.now) (map (λ n. n.now) cards.now) world.now) }
    ensures read { IfOk result (λ play. WasRead (S.held shelf.old) (play_in play) (read_in play)) }
    ensures unchanged { S.held shelf.new ≡ S.held shelf.old }
    ensures err { IsErrOf result ShelfFault.Failed → (name : List ℕ)
        × IsPlayName (mode_of mode.entry) (map (λ n. n.now) names.now) (map (λ n. n.now) cards.now) name
        × Rose (S.faults shelf.old name) (S.faults shelf.new name) }
    ensures counted { NoneFell (S.faults shelf.old) (S.faults shelf.new) }
{
    let texts = read_scripts(alloc, shelf, names)?;
    let notes = read_scripts(alloc, shelf, cards)?;
    let frozen = read_frozen(alloc, mode, shelf)?;
    Ok(Play {
        mode,
        names,
        cards,
        world,
        texts,
        notes,
        frozen,
    })
}
