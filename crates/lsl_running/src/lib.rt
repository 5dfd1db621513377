//! What the meaning of a script and the machine that runs its code share: what is kept from one handler to the
//! next, what is charged, what a host call asks and is answered, and how a handler ends. Nothing here runs a
//! script.
#![tactic(auto)]

mod charges;
mod ends;
mod host;
mod kept;
mod limits;

pub use crate::charges::{CALL_CHARGE, SCRIPT_CHARGE, charged_with_values};
pub use crate::ends::{Fault, Outcome};
pub use crate::host::{Call, Reply};
pub use crate::kept::Kept;
pub use crate::limits::{DEFAULT_LIMIT, granted_limit};
