//! The link between the regions of a page's world, which are all in one place.
ghost use Rattle.std.specs.Prelude.{◌≡◌, None, Some};
ghost use Rattle.lsl_top.specs.Laws.{copies};

use lsl_ports::{Link, LinkFault};
use std::alloc::Global;

/// A link that returns what it is sent, or reports that it is out of memory. It reports no trips; that it returns
/// nothing else is known of its type.
#[derive(Clone, Copy, Drop)]
pub struct ReturningLink;

impl Link for ReturningLink {
    ghost trips = { λ _. None };

    ghost faults = { λ _. 0 };

    ghost gives = { copies };

    fn carry(&mut self, alloc: Global, sent: &[u8]) -> Result<Vec<u8>, LinkFault> {
        Ok(Vec::from_slice(alloc, sent)?)
    }
}
