//! The sink.
ghost use Rattle.std.specs.Prelude.{◌≡◌, [], Some};
ghost use Rattle.sha2.specs.Sha256.{sha256};
ghost use Rattle.lsl_digest.specs.Lines.{count_lines, counted};

use crate::taken::{Piece, Taken};
use lsl_ports::{Failed, Sink};
use sha2::{Digest, Sha256};
use std::marker::Model;

/// A sink that never fails and takes no memory. It reports what it took, but keeps only the count of lines and the
/// digest.
#[derive(Drop)]
pub struct DigestSink {
    hasher: Sha256,
    lines: u64,
    taken: Taken,
}

impl Model for DigestSink {
    ghost use Rattle.std.specs.Prelude.{◌≡◌, ℕ, List, min};
    ghost use Rattle.sha2.specs.Hashers.{Holds256};
    ghost use Rattle.lsl_digest.specs.Lines.{count_lines, most_lines};

    ghost Value = { List ℕ };

    ghost view = { λ s. s.taken.bytes };

    ghost invariant = { λ s. Holds256 s.hasher s.taken.bytes
        × (s.lines ≡ min (count_lines s.taken.bytes) most_lines) };
}

impl DigestSink {
    /// A sink that took nothing yet.
    pub fn new() -> DigestSink
        ensures { result ≡ [] }
    {
        DigestSink {
            hasher: Sha256::new(),
            lines: 0,
            taken: Taken::nothing(),
        }
    }

    /// How many lines were taken, or none where they are too many to be counted.
    pub fn lines(&self) -> Option<u64>
        ensures { result ≡ counted (count_lines self.now) }
    {
        if self.lines == u64::MAX {
            None
        } else {
            Some(self.lines)
        }
    }

    /// The SHA-256 digest of all that was taken.
    pub fn digest(self) -> [u8; 32]
        ensures { result ≡ sha256 self }
    {
        self.hasher.finalize()
    }
}

impl Sink for DigestSink {
    ghost sunk = { λ s. Some s };

    ghost faults = { λ _. 0 };

    fn write(&mut self, piece: &[u8]) -> Result<usize, Failed> {
        self.hasher.update(piece);
        self.lines = self.lines.saturating_add(count_lines(piece));
        self.taken = self.taken.and(&Piece { bytes: piece });
        Ok(piece.len())
    }
}

/// How many line feeds the bytes have.
fn count_lines(bytes: &[u8]) -> u64
    ensures { result ≡ count_lines bytes.now }
{
    bytes.iter().filter(|byte| **byte == b'\n').count() as u64
}
