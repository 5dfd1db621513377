//! The copies of a world: its scripts with markers, and its file with one object more, with touches that separate the
//! steps.

ghost use Rattle.std.specs.Prelude.{◌≡◌, ◌≤◌, length, option_map};
ghost use Rattle.std.specs.List.{find};
ghost use Rattle.lsl_ports.specs.Counts.{NoneFell};
ghost use Rattle.lsl_ports.specs.Shelf.{Copies as CopiesBytes};
ghost use Rattle.lsl_trace.specs.Copies.{faults_over, held_over, is_named};

use crate::replaying::replay;
use lsl_marks::{Part, push_number};
use lsl_ports::{Failed, Link, Shelf, Sink};
use lsl_text::{NoMemory, push_quoted};
use lsl_top::Status;
use std::alloc::Global;

/// The object that is touched: a script of its own, and no event but touches.
const TOUCHED: &[u8] = b"default { touch_start(integer n) { } }\n";

const KEY: &[u8] = b"ffffffff-ffff-ffff-ffff-000000000001";

/// A file in place of another one.
#[derive(Drop)]
pub struct Replaced {
    pub name: Vec<u8>,
    pub text: Vec<u8>,
}

impl Replaced {
    /// Whether this is the file's name.
    fn is_named(&self, name: &str) -> bool
        ensures { result ≡ is_named name.now self.now }
    {
        self.name.as_slice() == name.as_bytes()
    }
}

/// A shelf on which some files are replaced by copies.
#[derive(Drop)]
pub struct Copies<'a, S> {
    shelf: &'a mut S,
    copies: &'a [Replaced],
}

impl<'a, S: Shelf> Copies<'a, S> {
    pub fn new(shelf: &'a mut S, copies: &'a [Replaced]) -> Copies<'a, S>
        ensures same_shelf { result.shelf.ghost_name ≡ shelf.entry.ghost_name }
        ensures below { result.shelf.now ≡ shelf.old }
    {
        Copies { shelf, copies }
    }
}

impl<S: Shelf> Shelf for Copies<'_, S> {
    ghost held = { λ s. held_over s.copies.now (S.held s.shelf.now) };

    ghost faults = { λ s. faults_over s.shelf.ghost_name (S.faults s.shelf.now) };

    fn read(&mut self, name: &str, place: u64, piece: &mut [u8]) -> Result<usize, Failed> {
        match copy_of(self.copies, name) {
            Some(copy) => Ok(copy_from(copy.text.as_slice(), place, piece)),
            None => self.shelf.read(name, place, piece),
        }
    }
}

/// Replays a world over copies, which use the same shelf, and only read it.
pub fn replay_copies<S: Shelf, K: Sink, L: Link>(
    alloc: Global,
    world: &str,
    copies: &mut Copies<'_, S>,
    sink: &mut K,
    link: &mut L,
) -> Result<Status, NoMemory>
    ensures same_shelf { copies.new.shelf.ghost_name ≡ copies.old.shelf.ghost_name }
    ensures unchanged { S.held copies.new.shelf.now ≡ S.held copies.old.shelf.now }
    ensures counted { NoneFell (S.faults copies.old.shelf.now) (S.faults copies.new.shelf.now)
        × (L.faults link.old ≤ L.faults link.new) }
{
    replay(alloc, world, copies, sink, link)
}

/// The first file that is in place of the one of this name.
fn copy_of<'a>(copies: &'a [Replaced], name: &str) -> Option<&'a Replaced>
    ensures { option_map (λ it. it.now) result ≡ find (is_named name.now) copies.now }
{
    copies.iter().find(|it| it.is_named(name))
}

/// Copies bytes from `place` on into the piece, and returns how many.
fn copy_from(text: &[u8], place: u64, piece: &mut [u8]) -> usize
    ensures within { result ≤ length piece.new }
    ensures copied { CopiesBytes text.now place piece.new result }
{
    let rest = &text[(place as usize).min(text.len())..];
    let count = rest.len().min(piece.len());
    piece[..count].copy_from_slice(&rest[..count]);
    count
}

/// How many objects and scripts a world has, and the name of the touched object's script.
#[derive(Clone, Copy)]
pub struct Counted<'a> {
    pub objects: usize,
    pub scripts: usize,
    pub touched: &'a [u8],
}

/// The file of the touched object's script.
pub fn touched(alloc: Global, name: &[u8]) -> Result<Replaced, NoMemory> {
    Ok(Replaced {
        name: Vec::from_slice(alloc, name)?,
        text: Vec::from_slice(alloc, TOUCHED)?,
    })
}

/// The world file with the touched object before `begin`, and a touch of it before each step.
pub fn parted_world(
    alloc: Global,
    world: &[u8],
    counted: Counted<'_>,
) -> Result<Vec<u8>, NoMemory> {
    let object = object_lines(alloc, counted)?;
    let touch = touch_lines(alloc, counted)?;
    let mut text = Vec::new(alloc);
    let mut from = 0;
    let mut has_begun = false;
    for (at, byte) in world.iter().enumerate() {
        if *byte != b'\n' && at.saturating_add(1) != world.len() {
            continue;
        }
        let to = at.saturating_add(1);
        let line = Part { from, to }.of(world);
        match first_word(line) {
            b"begin" => {
                text.extend_from_slice(object.as_slice())?;
                has_begun = true;
            }
            b"end" | b"" => {}
            word => {
                if has_begun && !word.starts_with(b"#") {
                    text.extend_from_slice(touch.as_slice())?;
                }
            }
        }
        text.extend_from_slice(line)?;
        from = to;
    }
    Ok(text)
}

fn object_lines(alloc: Global, counted: Counted<'_>) -> Result<Vec<u8>, NoMemory> {
    let mut text = Vec::new(alloc);
    text.extend_from_slice(b"object ")?;
    text.extend_from_slice(KEY)?;
    text.extend_from_slice(b" \"\" ")?;
    text.extend_from_slice(KEY)?;
    text.extend_from_slice(b" \"\"\nscript \"\" ")?;
    push_quoted(&mut text, counted.touched)?;
    text.push(b'\n')?;
    Ok(text)
}

fn touch_lines(alloc: Global, counted: Counted<'_>) -> Result<Vec<u8>, NoMemory> {
    let mut text = Vec::new(alloc);
    text.extend_from_slice(b"touch")?;
    push_number(&mut text, counted.objects.saturating_add(1) as u64)?;
    text.extend_from_slice(b" 0 ")?;
    text.extend_from_slice(KEY)?;
    text.extend_from_slice(b" \"\"\ngo")?;
    push_number(&mut text, counted.scripts.saturating_add(1) as u64)?;
    text.extend_from_slice(b" 1\n")?;
    Ok(text)
}

/// The first word of a line.
fn first_word(line: &[u8]) -> &[u8] {
    let from = line
        .iter()
        .position(|b| !is_space(*b))
        .unwrap_or(line.len());
    let rest = Part {
        from,
        to: line.len(),
    }
    .of(line);
    let to = rest.iter().position(|b| is_space(*b)).unwrap_or(rest.len());
    Part { from: 0, to }.of(rest)
}

fn is_space(b: u8) -> bool {
    matches!(b, b' ' | b'\t' | b'\r' | b'\n')
}
