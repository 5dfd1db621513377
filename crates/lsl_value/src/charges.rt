//! What values are charged, and limits of values (<https://wiki.secondlife.com/wiki/LSL_Script_Memory>).

/// What an integer is charged.
pub const INT_CHARGE: u64 = 8;

/// What a text or key is charged beside its bytes.
pub const TEXT_CHARGE: u64 = 16;

/// What a list is charged beside its elements.
pub const LIST_CHARGE: u64 = 16;

/// What an element of a list is charged beside its own charge.
pub const ELEMENT_CHARGE: u64 = 8;

/// What a script is charged at most, and so each of its values.
pub const MOST_CHARGE: u64 = 65_536;
