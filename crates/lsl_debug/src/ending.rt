//! How a command ends, and what is said of it.

use lsl_ports::{Failed, ShelfFault, Sink, write_all};
use lsl_seek::SeekFault;
use lsl_system::say;
use lsl_text::Refusal;
use lsl_top::Status;
use lsl_trace::Ended;

const USAGE: &str =
    "usage: lsl_debug state [--at STEP SEGMENT] WORLD | trace [--from STEP] [--to STEP] WORLD \
        | seek TRACE MOMENT [MOVE ..] | stops TRACE\n";

/// How a command ended.
#[derive(Clone, Copy, PartialEq, Eq)]
pub enum Ending {
    /// As a command of `lsl` may.
    Plain(Status),
    /// A journal is longer than a trace may have.
    TooLong,
    /// The file isn't a trace.
    BadTrace,
}

impl From<Status> for Ending {
    fn from(status: Status) -> Ending {
        Ending::Plain(status)
    }
}

impl From<Ended> for Ending {
    fn from(ended: Ended) -> Ending {
        match ended {
            Ended::Told => Ending::Plain(Status::Ok),
            Ended::Refused(status) => Ending::Plain(status),
            Ended::TooLong => Ending::TooLong,
        }
    }
}

impl From<ShelfFault> for Ending {
    fn from(fault: ShelfFault) -> Ending {
        match fault {
            ShelfFault::Failed => Ending::Plain(Status::ReadFault),
            ShelfFault::NoMemory => Ending::Plain(Status::NoMemory),
        }
    }
}

impl From<Refusal<SeekFault>> for Ending {
    fn from(refusal: Refusal<SeekFault>) -> Ending {
        match refusal {
            Refusal::NoMemory => Ending::Plain(Status::NoMemory),
            Refusal::Fault(SeekFault::Line(_)) => Ending::BadTrace,
            Refusal::Fault(SeekFault::Move) => Ending::Plain(Status::Usage),
        }
    }
}

impl From<Failed> for Ending {
    fn from(_: Failed) -> Ending {
        Ending::Plain(Status::WriteFault)
    }
}

impl Ending {
    /// The number with which the process ends: that of a status, or 10 or 11.
    pub fn number(self) -> u8 {
        match self {
            Ending::Plain(status) => status.number(),
            Ending::TooLong => 10,
            Ending::BadTrace => 11,
        }
    }

    /// Says how a command that names this file ended, in one line, where it didn't end well.
    pub fn tell<N: Sink>(self, file: Option<&str>, notes: &mut N) {
        match self {
            Ending::Plain(status) => say(USAGE, status, file, notes),
            Ending::TooLong => say_line(
                "the world's journal is longer than 64 MiB (lsl_debug: status 10)\n",
                notes,
            ),
            Ending::BadTrace => say_line(
                "the file isn't a trace of `lsl_debug trace` (lsl_debug: status 11)\n",
                notes,
            ),
        }
    }
}

fn say_line<N: Sink>(line: &str, notes: &mut N) {
    let _ = write_all(notes, line.as_bytes());
}
