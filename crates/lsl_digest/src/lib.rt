//! A sink that keeps no byte of what is written: it counts lines, and digests the bytes as they come.
#![tactic(auto)]

mod digest_sink;
mod taken;

pub use crate::digest_sink::DigestSink;
