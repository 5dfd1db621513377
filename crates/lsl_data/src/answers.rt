//! What a store answers.

/// The result of a write or a delete. The store is changed after `Stored` and `Deleted` alone.
#[derive(Clone, Copy, PartialEq, Eq, Drop)]
pub enum Wrote {
    /// the name holds the value now
    Stored,
    /// the name is gone
    Deleted,
    /// the name is empty
    NoKey,
    /// there is no such name
    NotFound,
    /// the name holds that value already
    Same,
    /// all texts together would have more than 65,536 bytes
    Full,
}
