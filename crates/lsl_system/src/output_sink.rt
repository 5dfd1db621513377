//! Standard output.
ghost use Rattle.std.specs.Prelude.{◌≡◌, ◌<◌, ◌≤◌, IfOk, None, length};

use crate::counting::counted;
use lsl_ports::{Failed, Sink};
use std::io::{ErrorKind, Write};
use std::time::{Clock, Duration};
use std::{io, thread};

/// The pause in milliseconds before a writer that had no room is tried again.
const PAUSE: u64 = 2;

/// A writer as a sink. It keeps and reports nothing of what it took, and counts its faults.
///
/// A writer that has no room yet, or a signal that breaks in, isn't a fault: the sink waits, as long as it takes.
#[derive(Drop)]
pub struct OutputSink<'a, W, C> {
    out: W,
    clock: &'a C,
    faults: u64,
}

impl<'a, W, C> OutputSink<'a, W, C> {
    pub fn new(out: W, clock: &'a C) -> OutputSink<'a, W, C>
        ensures { (result.out ≡ out) × (result.faults ≡ 0) }
    {
        OutputSink {
            out,
            clock,
            faults: 0,
        }
    }
}

impl<W: Write, C: Clock> Sink for OutputSink<'_, W, C> {
    ghost sunk = { λ _. None };

    ghost faults = { λ sink. sink.faults };

    fn write(&mut self, piece: &[u8]) -> Result<usize, Failed> {
        counted(
            write_some(self.clock, &mut self.out, piece),
            &mut self.faults,
        )
    }
}

/// Writes a prefix of the piece, and at least one byte of a piece that isn't empty.
fn write_some<C: Clock, W: Write>(clock: &C, out: &mut W, piece: &[u8]) -> io::Result<usize>
    ensures within { IfOk result (λ count. count ≤ length piece.now) }
    ensures some { IfOk result (λ count. 0 < length piece.now → 0 < count) }
{
    let count = write_when_ready(clock, out, piece)?;
    if count == 0 && !piece.is_empty() {
        return Err(io::Error::from(ErrorKind::WriteZero));
    }
    Ok(count)
}

/// Has the writer take a prefix of the piece as soon as it has room.
fn write_when_ready<C: Clock, W: Write>(clock: &C, out: &mut W, piece: &[u8]) -> io::Result<usize>
    ensures { IfOk result (λ count. count ≤ length piece.now) }
{
    for _ in 0..u64::MAX {
        match out.write(piece) {
            Err(error) if error.kind() == ErrorKind::WouldBlock => {
                thread::sleep(clock, Duration::from_millis(PAUSE));
            }
            Err(error) if error.kind() == ErrorKind::Interrupted => {}
            written => return written,
        }
    }
    out.write(piece)
}

#[cfg(test)]
mod tests {
    use super::*;
    use std::test::Fail;

    /// A writer that has no room at first, and then is interrupted by a signal.
    #[derive(Drop)]
    struct Slow {
        calls: u32,
    }

    impl Write for Slow {
        fn write(&mut self, piece: &[u8]) -> io::Result<usize> {
            self.calls = self.calls.saturating_add(1);
            match self.calls {
                1 => Err(io::Error::from(ErrorKind::WouldBlock)),
                2 => Err(io::Error::from(ErrorKind::Interrupted)),
                3 => Ok(piece.len()),
                _ => Err(io::Error::from(ErrorKind::BrokenPipe)),
            }
        }

        fn flush(&mut self) -> io::Result<()> {
            Ok(())
        }
    }

    #[test]
    fn writes_until_the_writer_is_full(rt: HostRuntime) -> Result<(), Fail> {
        let mut page = [0u8; 4];
        let mut sink = OutputSink::new(page.as_mut_slice(), &rt);
        assert_eq!(rt; sink.write(b"abc"), Ok(3));
        assert_eq!(rt; sink.write(b""), Ok(0));
        assert_eq!(rt; sink.write(b"de"), Ok(1));
        assert_eq!(rt; sink.write(b"e"), Err(Failed));
        assert_eq!(rt; sink.faults, 1);
        assert_eq!(rt; page.as_slice(), b"abcd".as_slice());
        Ok(())
    }

    #[test]
    fn waits_for_a_writer_without_room(rt: HostRuntime) -> Result<(), Fail> {
        let mut slow = Slow { calls: 0 };
        let mut sink = OutputSink::new(&mut slow, &rt);
        assert_eq!(rt; sink.write(b"abc"), Ok(3));
        assert_eq!(rt; sink.faults, 0);
        assert_eq!(rt; sink.write(b"d"), Err(Failed));
        assert_eq!(rt; sink.faults, 1);
        assert_eq!(rt; slow.calls, 4);
        Ok(())
    }
}
