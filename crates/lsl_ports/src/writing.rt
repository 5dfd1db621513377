//! A sink for bytes, and the writing of many.
ghost use Rattle.std.specs.Prelude.{◌≡◌, ◌<◌, ◌≤◌, ℕ, List, Option, length, take, IfOk, OnErr, OnOk};
ghost use Rattle.lsl_ports.specs.Counts.{Rose};
ghost use Rattle.lsl_ports.specs.Growth.{Grew, GrewPartly};

use crate::Failed;

/// Takes bytes in order.
///
/// A sink may report which bytes it took. It counts its faults.
pub trait Sink {
    ghost sunk: { Self → Option (List ℕ) };

    ghost faults: { Self → ℕ };

    /// Takes a prefix of the piece, and returns its length. Of a piece that isn't empty it takes at least one byte, or
    /// fails. An empty piece is allowed.
    fn write(&mut self, piece: &[u8]) -> Result<usize, Failed>
        ensures within { IfOk result (λ count. count ≤ length piece.now) }
        ensures some { IfOk result (λ count. 0 < length piece.now → 0 < count) }
        ensures ok { IfOk result (λ count. Grew (sunk self.old) (sunk self.new) (take count piece.now)) }
        ensures unchanged { OnErr result (sunk self.new ≡ sunk self.old) }
        ensures err { OnErr result (Rose (faults self.old) (faults self.new)) }
        ensures counted { faults self.old ≤ faults self.new };
}

/// Writes all bytes, in as few calls as the sink allows. It takes no memory.
/// At `Failed` a prefix was taken.
pub fn write_all<K: Sink>(sink: &mut K, bytes: &[u8]) -> Result<(), Failed>
    ensures ok { OnOk result (Grew (K.sunk sink.old) (K.sunk sink.new) bytes.now) }
    ensures part { GrewPartly (K.sunk sink.old) (K.sunk sink.new) bytes.now }
    ensures err { OnErr result (Rose (K.faults sink.old) (K.faults sink.new)) }
    ensures counted { K.faults sink.old ≤ K.faults sink.new }
{
    let mut done = 0;
    while done < bytes.len() {
        let count = sink.write(&bytes[done..])?;
        done += count;
    }
    Ok(())
}
