//! A link, which carries bytes to another place and brings bytes back.
ghost use Rattle.std.specs.Prelude.{◌≡◌, ◌≤◌, ℕ, List, [], ◌∷◌, Option, Some, None, IfOk, IsErrOf};
ghost use Rattle.lsl_ports.specs.Counts.{Rose};
ghost use Rattle.lsl_ports.specs.Growth.{Grew};
ghost use Rattle.lsl_ports.specs.Trips.{Trip};
ghost use Rattle.lsl_ports.specs.declared.carrying.LinkFault.TheVariants.{NoMemory as OutOfMemory};

use std::alloc::{AllocError, Global};

/// Why a link brought nothing back.
#[derive(Clone, Copy, Debug, PartialEq, Eq)]
pub enum LinkFault {
    /// The link failed, and counted it.
    Failed,
    /// There was no memory for the answer.
    NoMemory,
}

impl From<AllocError> for LinkFault {
    ghost from_gives = { λ _ fault. fault ≡ OutOfMemory };

    fn from(_: AllocError) -> LinkFault {
        LinkFault::NoMemory
    }
}

/// Takes bytes and gives bytes back.
///
/// A link may report its trips, each with what was sent and what came back. It counts its faults. What any link of the
/// type may give for what it is sent is known even if it reports no trips.
pub trait Link {
    ghost trips: { Self → Option (List Trip) };

    ghost faults: { Self → ℕ };

    ghost gives: { List ℕ → Option (List ℕ) → Type 0 };

    /// Hands bytes over, and gives those that came back.
    fn carry(&mut self, alloc: Global, sent: &[u8]) -> Result<Vec<u8>, LinkFault>
        ensures ok { IfOk result (λ back. Grew (trips self.old) (trips self.new)
            (record { sent = sent.now; back = Some back.items } ∷ [])) }
        ensures lost { IsErrOf result LinkFault.Failed → Grew (trips self.old) (trips self.new)
            (record { sent = sent.now; back = None } ∷ []) }
        ensures memory { IsErrOf result LinkFault.NoMemory → trips self.new ≡ trips self.old }
        ensures given { IfOk result (λ back. gives sent.now (Some back.items)) }
        ensures none_given { IsErrOf result LinkFault.Failed → gives sent.now None }
        ensures err { IsErrOf result LinkFault.Failed → Rose (faults self.old) (faults self.new) }
        ensures counted { faults self.old ≤ faults self.new };
}
