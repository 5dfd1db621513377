//! What the system answers to a read or a write, with its errors counted.
ghost use Rattle.std.specs.Prelude.{◌≡◌, ◌≤◌, IfOk, OnErr, OnOk};
ghost use Rattle.lsl_ports.specs.Counts.{Rose};

use lsl_ports::Failed;
use std::io;

/// The number of bytes read or written. An error raises the count, and is a failure.
pub fn counted(answer: io::Result<usize>, faults: &mut u64) -> Result<usize, Failed>
    ensures answered { IfOk answer (λ count. OnErr result ⊥ × IfOk result (λ same. same ≡ count)) }
    ensures uncounted { OnOk answer (faults.new ≡ faults.old) }
    ensures failed { OnErr answer (OnOk result ⊥ × Rose faults.old faults.new) }
    ensures kept { faults.old ≤ faults.new }
{
    match answer {
        Ok(count) => Ok(count),
        Err(_) => {
            *faults = faults.saturating_add(1);
            Err(Failed)
        }
    }
}
