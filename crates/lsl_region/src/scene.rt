//! Where a script is run.

use lsl_code::{Library, Woven};

/// The script at a place of the grid, which is run over its unit, with the library of all units and the clock's
/// reading. It is looked up once, and passed on as it is.
#[derive(Drop)]
pub(crate) struct Scene<'a> {
    pub(crate) place: usize,
    pub(crate) clock: u64,
    pub(crate) library: &'a Library,
    pub(crate) unit: &'a Woven,
}
