//! Why an object doesn't depart, and what is wrong with bytes that aren't a note.

ghost use Rattle.std.specs.Prelude.{◌≡◌};
ghost use Rattle.lsl_text.specs.declared.Refusal.TheVariants.{Fault};
ghost use Rattle.lsl_handoff.specs.declared.faults.NoteFault.TheVariants.{Body};

use lsl_text::{NoMemory, Refusal};

/// Why an object doesn't depart: the first that holds, in this order.
#[derive(Clone, Copy, PartialEq, Eq)]
pub enum DepartFault {
    /// It isn't live in the region.
    NotLive,
    /// It would go to the region where it is.
    Here,
    /// Its card has the greatest trip number.
    LastTrip,
    NoMemory,
}

impl From<NoMemory> for DepartFault {
    ghost use Rattle.lsl_handoff.specs.declared.faults.DepartFault.TheVariants.{NoMemory};

    ghost from_gives = { λ _ e. e ≡ NoMemory };

    fn from(_e: NoMemory) -> DepartFault {
        DepartFault::NoMemory
    }
}

/// Why bytes aren't a note: the first fault in the order of the tests.
#[derive(Clone, Copy, Debug, PartialEq, Eq)]
pub enum NoteFault {
    /// There are `found` bytes; the note says `wanted`.
    Size { found: u64, wanted: u64 },
    /// The digest of the bytes is `found`; the note says `wanted`.
    Digest { found: [u8; 32], wanted: [u8; 32] },
    /// The note has a version that isn't known.
    Version(u16),
    /// The field that begins at this place can't be.
    Body(u64),
}

/// The field at this place can't be.
pub(crate) fn wrong(place: u64) -> Refusal<NoteFault>
    ensures { result ≡ Fault (Body place) }
{
    Refusal::Fault(NoteFault::Body(place))
}
