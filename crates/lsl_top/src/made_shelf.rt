//! The two texts of a seed as a shelf.
ghost use Rattle.std.specs.Prelude.{◌≡◌, ◌≤◌, Some, length};
ghost use Rattle.std.specs.Str.{encode_utf8_all};
ghost use Rattle.lsl_ports.specs.Shelf.{Copies};
ghost use Rattle.lsl_top.specs.Made.{two_files};

use lsl_made::Made;
use lsl_ports::{Failed, Shelf};

/// A shelf that never fails: `made` is the world's file, and every other name its script's.
#[derive(Clone, Copy, Drop)]
pub struct MadeShelf<'a> {
    world: &'a [u8],
    script: &'a [u8],
}

impl<'a> MadeShelf<'a> {
    pub fn new(made: &'a Made) -> MadeShelf<'a>
        ensures world { result.world.now ≡ encode_utf8_all made.now.world }
        ensures script { result.script.now ≡ encode_utf8_all made.now.script }
    {
        MadeShelf {
            world: made.world.bytes(),
            script: made.script.bytes(),
        }
    }
}

impl Shelf for MadeShelf<'_> {
    ghost held = { λ s. Some (two_files s.world.now s.script.now) };

    ghost faults = { λ _ _. 0 };

    fn read(&mut self, name: &str, place: u64, piece: &mut [u8]) -> Result<usize, Failed> {
        let file = match name {
            "made" => self.world,
            _ => self.script,
        };
        Ok(copy_from(file, place, piece))
    }
}

/// Copies bytes from `place` on into the piece, and returns how many.
fn copy_from(file: &[u8], place: u64, piece: &mut [u8]) -> usize
    ensures within { result ≤ length piece.new }
    ensures copied { Copies file.now place piece.new result }
{
    let rest = &file[(place as usize).min(file.len())..];
    let count = rest.len().min(piece.len());
    piece[..count].copy_from_slice(&rest[..count]);
    count
}
