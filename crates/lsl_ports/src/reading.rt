//! A shelf of files, and the reading of a whole file.
ghost use Rattle.std.specs.Prelude.{◌≡◌, ◌<◌, ◌≤◌, ℕ, List, Option, length, vec_len, IfOk, IsErrOf, OnErr};
ghost use Rattle.lsl_ports.specs.Counts.{Rose, NoneFell};
ghost use Rattle.lsl_ports.specs.Shelf.{Files, Reads, IsHead};
ghost use Rattle.lsl_ports.specs.Piece.{Gains};
ghost use Rattle.lsl_ports.specs.declared.reading.ShelfFault.TheVariants.{Failed as ReadFailed, NoMemory as OutOfMemory};

use crate::Failed;
use std::alloc::{AllocError, Global};

/// How many bytes are asked for in one read.
const PIECE: u64 = 8192;

/// Why a file wasn't read.
#[derive(Clone, Copy, Debug, PartialEq, Eq)]
pub enum ShelfFault {
    /// The shelf failed, and counted it for the name that was asked for.
    Failed,
    /// There was no memory for the bytes.
    NoMemory,
}

impl From<Failed> for ShelfFault {
    ghost from_gives = { λ _ fault. fault ≡ ReadFailed };

    fn from(_: Failed) -> ShelfFault {
        ShelfFault::Failed
    }
}

impl From<AllocError> for ShelfFault {
    ghost from_gives = { λ _ fault. fault ≡ OutOfMemory };

    fn from(_: AllocError) -> ShelfFault {
        ShelfFault::NoMemory
    }
}

/// Files by name.
///
/// A shelf may report what it holds, which never changes. It counts its faults for each name.
pub trait Shelf {
    ghost held: { Self → Option Files };

    ghost faults: { Self → List ℕ → ℕ };

    /// Copies bytes of the file from `place` on into the piece, and returns how many. 0 for a piece that isn't empty is
    /// the file's end. A missing name is a fault. An empty piece is allowed.
    fn read(&mut self, name: &str, place: u64, piece: &mut [u8]) -> Result<usize, Failed>
        ensures within { IfOk result (λ count. count ≤ length piece.new) }
        ensures ok { IfOk result (λ count. Reads (held self.old) name.now place piece.new count) }
        ensures unchanged { held self.new ≡ held self.old }
        ensures err { OnErr result (Rose (faults self.old name.now) (faults self.new name.now)) }
        ensures counted { NoneFell (faults self.old) (faults self.new) };
}

/// Reads at most `room` further bytes of the file, straight into the vector's room.
fn read_piece<S: Shelf>(
    shelf: &mut S,
    name: &str,
    bytes: &mut Vec<u8>,
    room: usize,
) -> Result<usize, ShelfFault>
    requires some { 0 < room }
    requires few { room ≤ PIECE }
    ensures ok { IfOk result (λ count. Gains (S.held shelf.old) name.now bytes.old.items bytes.new.items count) }
    ensures within { IfOk result (λ count. count ≤ room) }
    ensures unchanged { S.held shelf.new ≡ S.held shelf.old }
    ensures err { IsErrOf result ShelfFault.Failed → Rose (S.faults shelf.old name.now) (S.faults shelf.new name.now) }
    ensures counted { NoneFell (S.faults shelf.old) (S.faults shelf.new) }
{
    let place = bytes.len();
    bytes.resize(place + room, 0)?;
    let count = shelf.read(name, place as u64, &mut bytes[place..])?;
    bytes.truncate(place + count);
    Ok(count)
}

/// Reads a file to its end, or to one byte past `limit`. It takes memory for the bytes.
pub fn read_all<S: Shelf>(
    alloc: Global,
    shelf: &mut S,
    name: &str,
    limit: u64,
) -> Result<Vec<u8>, ShelfFault>
    ensures ok { IfOk result (λ bytes. IsHead (S.held shelf.old) name.now limit bytes.items) }
    ensures unchanged { S.held shelf.new ≡ S.held shelf.old }
    ensures err { IsErrOf result ShelfFault.Failed → Rose (S.faults shelf.old name.now) (S.faults shelf.new name.now) }
    ensures counted { NoneFell (S.faults shelf.old) (S.faults shelf.new) }
{
    let most = limit.saturating_add(1);
    let mut bytes = Vec::new(alloc);
    while (bytes.len() as u64) < most {
        let room = (most - bytes.len() as u64).min(PIECE);
        if read_piece(shelf, name, &mut bytes, room as usize)? == 0 {
            return Ok(bytes);
        }
    }
    Ok(bytes)
}
