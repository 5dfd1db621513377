//! The link between regions of one process.
ghost use Rattle.std.specs.Prelude.{◌≡◌, ◌≤◌, [], ◌∷◌, Some, None, IfOk, IsErrOf};
ghost use Rattle.lsl_ports.specs.Counts.{Rose};
ghost use Rattle.lsl_ports.specs.Growth.{Grew};
ghost use Rattle.lsl_ports.specs.Trips.{Trip};
ghost use Rattle.lsl_top.specs.Laws.{copies};

use lsl_ports::{Link, LinkFault};
use std::alloc::Global;

/// A link that gives back the bytes that were sent, or reports that it is out of memory.
///
/// It keeps and reports no trips; that it gives no other bytes is known of its type.
#[derive(Clone, Copy)]
pub struct CopyingLink;

impl Link for CopyingLink {
    ghost trips = { λ _. None };

    ghost faults = { λ _. 0 };

    ghost gives = { copies };

    fn carry(&mut self, alloc: Global, sent: &[u8]) -> Result<Vec<u8>, LinkFault>
        ensures same { IfOk result (λ back. back.items ≡ sent.now) }
        ensures given { IfOk result (λ back. Some back.items ≡ Some sent.now) }
        ensures memory_alone { IsErrOf result LinkFault.Failed → ⊥ }
    {
        match Vec::from_slice(alloc, sent) {
            Ok(back) => Ok(back),
            Err(_) => Err(LinkFault::NoMemory),
        }
    }
}

#[cfg(test)]
mod tests {
    use super::*;
    use std::test::Fail;

    #[test]
    fn gives_back_what_was_sent(rt: HostRuntime) -> Result<(), Fail> {
        let back = CopyingLink.carry(rt.alloc(), b"image")?;
        assert_eq!(rt; back.as_slice(), b"image".as_slice());
        Ok(())
    }
}
