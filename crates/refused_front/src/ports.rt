//! Calls of `lsl_ports` and `lsl_digest`.

ghost use Rattle.std.specs.Prelude.{◌≡◌, ◌++◌, IfOk, IsErrOf, OnErr};
ghost use Rattle.sha2.specs.Sha256.{sha256};
ghost use Rattle.lsl_digest.specs.Lines.{count_lines, counted};
ghost use Rattle.lsl_ports.specs.Counts.{Rose};
ghost use Rattle.lsl_ports.specs.Shelf.{IsHead};

use lsl_digest::DigestSink;
use lsl_ports::{Failed, Shelf, ShelfFault, Sink, read_all, write_all};
use std::alloc::Global;

/// `write_all`, `err`.
pub fn written<K: Sink>(sink: &mut K, bytes: &[u8]) -> Result<(), Failed>
    ensures { OnErr result (Rose (K.faults sink.old) (K.faults sink.new)) }
{
    write_all(sink, bytes)
}

/// `read_all`, `err`.
pub fn read_or_counted<S: Shelf>(
    alloc: Global,
    shelf: &mut S,
    asked: &str,
    limit: u64,
) -> Result<Vec<u8>, ShelfFault>
    ensures { IsErrOf result ShelfFault.Failed → Rose (S.faults shelf.old asked.now) (S.faults shelf.new asked.now) }
{
    read_all(alloc, shelf, asked, limit)
}

/// `read_all`, `ok`.
pub fn file_read<S: Shelf>(
    alloc: Global,
    shelf: &mut S,
    name: &str,
    limit: u64,
) -> Result<Vec<u8>, ShelfFault>
    ensures { IfOk result (λ bytes. IsHead (S.held shelf.old) name.now limit bytes.items) }
{
    read_all(alloc, shelf, name, limit)
}

/// `DigestSink::write`, `ok`, and `DigestSink::digest`.
pub fn digest_of_piece(piece: &[u8]) -> Result<[u8; 32], Failed>
    ensures { IfOk result (λ digest. digest ≡ sha256 piece.now) }
{
    let mut sink = DigestSink::new();
    write_all(&mut sink, piece)?;
    Ok(sink.digest())
}

/// `DigestSink::write`, `ok`, and `DigestSink::lines`.
pub fn lines_of_pieces(first: &[u8], second: &[u8]) -> Result<Option<u64>, Failed>
    ensures { IfOk result (λ lines. lines ≡ counted (count_lines (first.now ++ second.now))) }
{
    let mut sink = DigestSink::new();
    write_all(&mut sink, first)?;
    write_all(&mut sink, second)?;
    Ok(sink.lines())
}
