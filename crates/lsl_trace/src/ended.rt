//! What is asked for, and how a trace ends.

ghost use Rattle.std.specs.Prelude.{◌≡◌, IsTrue, ◌&&◌, nat_le};
ghost use Rattle.lsl_trace.specs.Early.{StopsEarly};

use lsl_ports::ShelfFault;
use lsl_top::Status;
use std::alloc::AllocError;

/// What is asked for: a world file, and the first and the last step whose entries are written.
#[derive(Clone, Copy)]
pub struct Request<'a> {
    pub world: &'a str,
    pub first: u64,
    pub last: u64,
}

impl Request<'_> {
    /// Whether this step is asked for.
    pub fn asks_for(&self, step: u64) -> bool
        ensures { result ≡ (nat_le self.now.first step && nat_le step self.now.last) }
    {
        self.first <= step && step <= self.last
    }
}

/// How a trace ended.
#[derive(Clone, Copy, PartialEq, Eq)]
pub enum Ended {
    /// It was written whole.
    Told,
    /// As `replay` ends for the world, and what `replay` writes then was written; `Ok` if that isn't lines, so that no
    /// trace can report them. At `WriteFault` the sink failed, and took a prefix. At `NoMemory` and `ReadFault` nothing
    /// may have been written.
    Refused(Status),
    /// A journal is longer than 64 MiB, and nothing was written.
    TooLong,
}

impl From<AllocError> for Ended {
    ghost from_gives = { λ _ ended. StopsEarly ended };

    fn from(_: AllocError) -> Ended {
        Ended::Refused(Status::NoMemory)
    }
}

impl From<ShelfFault> for Ended {
    ghost from_gives = { λ _ ended. StopsEarly ended };

    fn from(fault: ShelfFault) -> Ended {
        match fault {
            ShelfFault::Failed => Ended::Refused(Status::ReadFault),
            ShelfFault::NoMemory => Ended::Refused(Status::NoMemory),
        }
    }
}
