//! The world of a seed, replayed from its two texts as files. The result is what `make` must write.

use hex::encode;
use lsl_made::made;
use lsl_ports::{MemoryLink, MemoryShelf, MemorySink, StoredFile};
use lsl_top::lsl;
use sha2::{Digest, Sha256};
use std::alloc::{AllocError, Global};

/// How many bytes the report of a seed's world may have here.
const ROOM: usize = 1_000_000;

/// How the replay of a seed's world ends, how many lines its report has, and the report's digest.
pub fn replayed(alloc: Global, number: u32) -> Result<String, AllocError> {
    let made = made(alloc, number)?;
    let mut files = Vec::new(alloc);
    files.push(StoredFile::new(alloc, "made", made.world.bytes())?)?;
    files.push(StoredFile::new(alloc, "walker", made.script.bytes())?)?;
    let mut shelf = MemoryShelf::new(alloc, files, Vec::new(alloc))?;
    let mut sink = MemorySink::new(alloc, ROOM, Vec::new(alloc))?;
    let mut link = MemoryLink::new(alloc, Vec::new(alloc));
    let words = [
        String::from_str(alloc, "replay")?,
        String::from_str(alloc, "made")?,
    ];
    let status = lsl(alloc, &words, &mut shelf, &mut sink, &mut link);
    let report = sink.as_bytes();
    let lines = report.iter().filter(|byte| **byte == b'\n').count();
    let digest = encode(alloc, &Sha256::digest(report))?;
    format!(in alloc;
        "replayed {number}: status {} lines {lines} sha256 {digest}",
        status.number()
    )
}
