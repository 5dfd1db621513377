//! World files, the lines of journals and of frozen worlds, and scripts that are due.

pub mod due;
pub mod entries;
pub mod frozen;
pub mod worlds;
